/// Where a part of a source stands: the bytes from `from` up to, and without, `to`. Both count from the start of the
/// source, and `from` is at most `to`.
#[derive(Clone, Copy, Debug, PartialEq, Eq)]
pub struct Span {
    pub from: u32,
    pub to: u32,
}

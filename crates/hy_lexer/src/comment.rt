// Block comments.
ghost use Rattle.std.specs.Prelude.{MatchOption};
ghost use Rattle.hy_lexer.specs.Scans.{IsClosed, IsOpen};
ghost use Rattle.hy_lexer.specs.Steps.{IsStep};

/// What a text within a comment begins with, and what is after that.
#[derive(Clone, Copy, Debug)]
pub enum Step<'a> {
    Opens(&'a [u8]),
    Closes(&'a [u8]),
    Other(&'a [u8]),
    End,
}

// The next mark or byte within a comment.
fn next_step(text: &[u8]) -> Step<'_>
    ensures { IsStep text.now result }
{
    let Some((first, behind)) = text.split_first() else {
        return Step::End;
    };
    let Some((second, after)) = behind.split_first() else {
        return Step::Other(behind);
    };
    match (*first, *second) {
        (b'/', b'*') => Step::Opens(after),
        (b'*', b'/') => Step::Closes(after),
        _ => Step::Other(behind),
    }
}

/// How many bytes a comment has after its first `/*`, up to where it is closed and with the `*/` that closes it.
pub fn closed_len(inner: &[u8]) -> Option<usize>
    ensures { MatchOption result (IsOpen inner.now) (λ length. IsClosed inner.now length) }
{
    let mut rest = inner;
    let mut level: usize = 1;
    while level > 0 {
        match next_step(rest) {
            Step::Opens(behind) => {
                level += 1;
                rest = behind;
            }
            Step::Closes(behind) => {
                level -= 1;
                rest = behind;
            }
            Step::Other(behind) => rest = behind,
            Step::End => return None,
        }
    }
    Some(inner.len() - rest.len())
}

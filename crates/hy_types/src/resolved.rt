// What names stand for.
use hy_tree::Meant;

/// What each name of a source stands for. `docs/NAMES.md` has the rules.
#[derive(Drop)]
pub struct Resolved {
    /// By the number of the node that uses the name.
    pub meant: Vec<Meant>,
}

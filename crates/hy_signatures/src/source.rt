// A source, as the passes see it.
ghost use Rattle.std.specs.Prelude.{◌≡◌};
ghost use Rattle.hy_signatures.specs.Shown.{source_shown};

use hy_tree::{Decl, Meant};

/// A source: its declarations, and what its names stand for, by the nodes that use them.
#[derive(Clone, Copy)]
pub struct Source<'a> {
    pub decls: &'a [Decl],
    pub meant: &'a [Meant],
}

impl Source<'_> {
    /// What the name at a node stands for.
    pub fn meaning(&self, node: u32) -> Meant
        ensures { result ≡ (source_shown self.now).meant node }
    {
        self.meant
            .get(node as usize)
            .copied()
            .unwrap_or(Meant::Nothing)
    }
}

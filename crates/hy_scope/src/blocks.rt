// The names of the blocks around a statement.
ghost use Rattle.std.specs.Prelude.{◌≡◌, ◌∷◌, [], IfOk, OnOk, map, reverse};
ghost use Rattle.hy_tree.specs.Names.{no_names, in_blocks, is_there};
ghost use Rattle.hy_tree.specs.Findings as findings;
ghost use Rattle.hy_tree.specs.Findings.{with_local};
ghost use Rattle.hy_scope.specs.Shown.{blocks_of, names_of, outer};

use crate::table::Table;
use hy_base::NoMemory;
use hy_tree::{Meant, Name};
use std::alloc::Global;
use std::mem;

/// The names of a block and of those around it. The parameters are the outermost.
#[derive(Drop)]
pub struct Blocks {
    here: Table,
    /// The nearest is the last.
    around: Vec<Table>,
}

/// What the last table that has a name says.
fn find_last(tables: &[Table], name: &[u8]) -> Option<Meant>
    ensures { result ≡ in_blocks (map names_of (reverse tables.now)) name.now }
{
    let mut rest = tables;
    while let Some((last, before)) = rest.split_last() {
        if let Some(meant) = last.find(name) {
            return Some(meant);
        }
        rest = before;
    }
    None
}

impl Blocks {
    /// One block with these names.
    pub fn new(alloc: Global, here: Table) -> Blocks
        ensures { blocks_of result ≡ names_of here ∷ [] }
    {
        Blocks {
            here,
            around: Vec::new(alloc),
        }
    }

    /// What the nearest block that has a name says.
    pub fn find(&self, name: &[u8]) -> Option<Meant>
        ensures { result ≡ in_blocks (blocks_of self.now) name.now }
    {
        match self.here.find(name) {
            Some(meant) => Some(meant),
            None => find_last(self.around.as_slice(), name),
        }
    }

    /// Whether the innermost block has a name.
    pub fn is_here(&self, name: &[u8]) -> bool
        ensures { result ≡ is_there (findings.here (blocks_of self.now) name.now) }
    {
        self.here.find(name).is_some()
    }

    /// A new block inside.
    pub fn enter(&mut self, alloc: Global) -> Result<(), NoMemory>
        ensures { OnOk result (blocks_of self.new ≡ no_names ∷ blocks_of self.old) }
    {
        let here = mem::replace(&mut self.here, Table::new(alloc));
        self.around.push(here)?;
        Ok(())
    }

    /// Back to the block around.
    pub fn leave(&mut self)
        ensures { blocks_of self.new ≡ outer (blocks_of self.old) }
    {
        if let Some(here) = self.around.pop() {
            self.here = here;
        }
    }

    /// Declares a name in the innermost block, and says whether it was there.
    pub fn put(&mut self, alloc: Global, name: &Name, node: u32) -> Result<bool, NoMemory>
        ensures was { IfOk result (λ was. was ≡ is_there (findings.here (blocks_of self.old) name.now.text)) }
        ensures blocks { OnOk result (blocks_of self.new ≡ with_local name.now node (blocks_of self.old)) }
    {
        let was = self
            .here
            .put(alloc, name.text.as_slice(), Meant::Local(node))?;
        Ok(was)
    }
}

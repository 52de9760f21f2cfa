// Names, each with what it stands for.
ghost use Rattle.std.specs.Prelude.{◌≡◌, IfOk, OnOk};
ghost use Rattle.hy_tree.specs.Names.{no_names, with_name, is_there};
ghost use Rattle.hy_scope.specs.Shown.{names_of};

use hy_base::NoMemory;
use hy_tree::Meant;
use indexmap::IndexMap;
use std::alloc::Global;

/// Names, each with what it stands for, and a look-up that does not grow with their number.
#[derive(Drop)]
pub struct Table {
    names: IndexMap<Vec<u8>, Meant>,
}

impl Table {
    /// A table without names.
    pub fn new(alloc: Global) -> Table
        ensures { names_of result ≡ no_names }
    {
        Table {
            names: IndexMap::new(alloc),
        }
    }

    /// What a name stands for.
    pub fn find(&self, name: &[u8]) -> Option<Meant>
        ensures { result ≡ names_of self.now name.now }
    {
        self.names.get(name).copied()
    }

    /// Puts a name that hides one that is there, and says whether one was.
    pub fn put(&mut self, alloc: Global, name: &[u8], meant: Meant) -> Result<bool, NoMemory>
        ensures was { IfOk result (λ was. was ≡ is_there (names_of self.old name.now)) }
        ensures names { OnOk result (names_of self.new ≡ with_name name.now meant (names_of self.old)) }
    {
        let copy = Vec::from_slice(alloc, name)?;
        let old = self.names.insert(copy, meant)?;
        Ok(old.is_some())
    }
}

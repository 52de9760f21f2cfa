// The accesses that are live, by their names.
ghost use Rattle.std.specs.Prelude.{◌≡◌, [], ℕ, None, OnOk};
ghost use Rattle.hy_access.specs.Accesses.{IsLiveIfGiven};
ghost use Rattle.hy_store.specs.Names.{CanClose, IsClosed, IsLent, names};

use hy_access::{AccId, Accesses, Range, Way};
use hy_base::NoMemory;
use std::alloc::Global;
use std::collections::HashMap;

/// The live accesses, and for each name of one its id: an access's name is the number of those opened before it, and it is
/// known by it for good, where an id may be given to a later access.
#[derive(Drop)]
pub struct Opened {
    pub accesses: Accesses,
    ids: HashMap<u64, AccId>,
}

impl Opened {
    /// No access. No memory is taken.
    pub fn new(alloc: Global) -> Opened
        ensures accesses { result.accesses ≡ [] }
        ensures names { (name : ℕ) → names result name ≡ None }
    {
        Opened {
            accesses: Accesses::new(alloc),
            ids: HashMap::new(alloc),
        }
    }

    /// The id of the access of that name, where it is live.
    pub fn find(&self, name: u64) -> Option<AccId>
        ensures { result ≡ names self.now name }
    {
        match self.ids.get(&name) {
            Some(id) => Some(*id),
            None => None,
        }
    }

    /// Opens an access under that name. It fails only out of memory; then nothing has that name.
    pub fn lend(
        &mut self,
        name: u64,
        own: Range,
        header: Option<Range>,
        way: Way,
        parent: Option<AccId>,
    ) -> Result<(), NoMemory>
        requires { IsLiveIfGiven parent self.old.accesses }
        ensures { OnOk result (IsLent self.old self.new name own header way parent) }
    {
        let id = self.accesses.lend(own, header, way, parent)?;
        self.ids.insert(name, id)?;
        Ok(())
    }

    /// Closes the access of that name, if it is live; no live one was made from it.
    pub fn close(&mut self, name: u64)
        requires { CanClose (names self.old name) self.old.accesses }
        ensures { IsClosed self.old self.new name }
    {
        if let Some(id) = self.find(name) {
            self.accesses.close(id);
            let _ = self.ids.remove(&name);
        }
    }
}

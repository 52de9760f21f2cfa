// The live accesses.
ghost use Rattle.std.specs.Prelude.{◌≡◌, ◌≢◌, ◌++◌, ◌∷◌, [], ◌↔◌, ℕ, Some, None, IfOk, OnErr, IsSomeAnd, IsTrue, map};
ghost use Rattle.hy_access.specs.Accesses.{Access, access, IsLive, IsLiveIfGiven, HaveOwnIds, HasChild, MayRead, MayWrite, Writes, without_access};
ghost use Rattle.hy_access.specs.Forest.{order, slot_of_id, youngest_of};
ghost use Rattle.slab.specs.Slab.{get};
ghost use Rattle.hy_links.specs.Linked.{look};

use crate::slots::{Slot, place, push, unlink};
use crate::walk::is_clear;
use crate::{AccId, Range, Way};
use hy_base::NoMemory;
use hy_links::Links;
use slab::Slab;
use std::alloc::Global;
use std::marker::Model;

/// The live accesses of a machine, in the order in which they were lent.
///
/// A contract sees the list of them, each with its id, its own range, perhaps a header range, its way and its parent. An
/// access meets a range by its own or its header range. `lend`, `close`, `own` and `has_children` take a fixed number of
/// steps; `may_read` and `may_write` go over all live accesses, a few comparisons each. Memory is taken by `lend` alone.
/// The calls trust their conditions: none tests that an id is live.
#[derive(Drop)]
pub struct Accesses {
    slots: Slab<Slot>,
    newest: Option<u32>,
}

impl Model for Accesses {
    ghost use Rattle.std.specs.Prelude.{List};
    ghost use Rattle.hy_access.specs.Accesses.{Access};
    ghost use Rattle.hy_access.specs.Forest.{order, IsForest};
    ghost use Rattle.hy_links.specs.Linked.{listed};

    ghost Value = { List Access };

    ghost view = { λ accesses. listed order accesses.slots accesses.newest };

    ghost invariant = { λ accesses. IsForest accesses.slots accesses.newest };
}

// The youngest child of a parent that is given.
fn youngest_child(slots: &Slab<Slot>, parent: Option<u32>) -> Option<u32>
    ensures { result ≡ youngest_of slots.now parent }
{
    let index = parent?;
    match slots.get(index as usize) {
        Some(slot) => slot.child,
        None => None,
    }
}

// The newest of the accesses that are left where one is closed, which was in this slot.
fn newest_without(slot: &Slot, newest: Option<u32>) -> Option<u32>
    ensures last { slot.now.links.after ≡ None → result ≡ slot.now.links.before }
    ensures not_last { slot.now.links.after ≢ None → result ≡ newest }
{
    match slot.links.after {
        None => slot.links.before,
        Some(_) => newest,
    }
}

impl Accesses {
    // What is kept of a live access.
    fn slot(&self, id: AccId) -> &Slot
        requires { IsLive id self.now }
        ensures { access id self.now ≡ Some (order.held id.slot result.now) }
    {
        &self.slots[id.slot as usize]
    }

    /// No access. The allocator is kept; no memory is taken.
    pub fn new(alloc: Global) -> Accesses
        ensures { result ≡ [] }
    {
        Accesses {
            slots: Slab::new(alloc),
            newest: None,
        }
    }

    /// Opens an access to a range, and perhaps to a header range, made from the access `parent`, or from the own frame
    /// where none is given. It comes after all others. It fails only out of memory, and then nothing has changed.
    pub fn lend(
        &mut self,
        own: Range,
        header: Option<Range>,
        way: Way,
        parent: Option<AccId>,
    ) -> Result<AccId, NoMemory>
        requires { IsLiveIfGiven parent self.old }
        ensures lent { IfOk result (λ id. self.new ≡ self.old ++ record { id = id; own = own; header = header; way = way; parent = parent } ∷ []) }
        ensures new_id { IfOk result (λ id. IsLive id self.old → ⊥) }
        ensures refused { OnErr result (self.new ≡ self.old) }
    {
        let slot = Slot {
            links: Links::newest(self.newest),
            siblings: Links::newest(youngest_child(&self.slots, place(parent))),
            child: None,
            own,
            header,
            way,
            parent,
        };
        let index = push(&mut self.slots, slot)?;
        self.newest = Some(index);
        Ok(AccId { slot: index })
    }

    /// Closes an access that has no live child.
    pub fn close(&mut self, id: AccId)
        requires live { IsLive id self.old }
        requires childless { HasChild id self.old → ⊥ }
        ensures { self.new ≡ without_access id self.old }
    {
        let slot = unlink(&mut self.slots, id.slot);
        self.newest = newest_without(&slot, self.newest);
    }

    /// The own range of an access.
    pub fn own(&self, id: AccId) -> Range
        requires { IsLive id self.now }
        ensures { IsSomeAnd (access id self.now) (λ one. result ≡ one.own) }
    {
        self.slot(id).own
    }

    /// Whether a live access was made from this one.
    pub fn has_children(&self, id: AccId) -> bool
        requires { IsLive id self.now }
        ensures { IsTrue result ↔ HasChild id self.now }
    {
        self.slots[id.slot as usize].child.is_some()
    }

    /// Whether the range may be read through this access, or from the own frame where none is given: no live writing
    /// access meets the range but `through` and its ancestors. A range without cells meets nothing.
    pub fn may_read(&self, range: Range, through: Option<AccId>) -> bool
        requires { IsLiveIfGiven through self.now }
        ensures { IsTrue result ↔ MayRead self.now range through }
    {
        is_clear(&self.slots, self.newest, &range, through, Way::Read)
    }

    /// Whether the range may be written through this access, or from the own frame where none is given: no live access
    /// meets the range but `through` and its ancestors, and `through` writes. A range without cells meets nothing.
    pub fn may_write(&self, range: Range, through: Option<AccId>) -> bool
        requires { IsLiveIfGiven through self.now }
        ensures { IsTrue result ↔ MayWrite self.now range through }
    {
        self.writes(through) && is_clear(&self.slots, self.newest, &range, through, Way::Write)
    }

    // Whether this access writes; the own frame, where none is given, is written too.
    fn writes(&self, through: Option<AccId>) -> bool
        requires { IsLiveIfGiven through self.now }
        ensures { IsTrue result ↔ Writes self.now through }
    {
        match through {
            None => true,
            Some(id) => match self.slot(id).way {
                Way::Read => false,
                Way::Write => true,
            },
        }
    }

    /// A law, and no step: live accesses have different ids.
    pub fn have_own_ids(&self)
        ensures { HaveOwnIds self.now }
    {
        let _slots = &self.slots;
    }
}

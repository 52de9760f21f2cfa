// The live activations.
ghost use Rattle.std.specs.Prelude.{◌≡◌, ◌≢◌, Some, None, ◌++◌, ◌∷◌, [], ℕ, IfOk, OnErr, IsSomeAnd};
ghost use Rattle.hy_frames.specs.Activations.{Activation, activation, IsLive, IsRunning, IsSuspended, HaveOwnIds, caller_of, started, suspended, resumed};
ghost use Rattle.hy_frames.specs.Activations.{gone_to, with_activation, without_activation};
ghost use Rattle.hy_frames.specs.Slots.{order};

use crate::slots::{Slot, push, unlink};
use crate::{ActId, Standing};
use hy_base::NoMemory;
use hy_links::Links;
use slab::Slab;
use std::alloc::Global;
use std::marker::Model;

/// The live activations of a machine, in order of start.
///
/// A contract sees the list of them, each with its id, the function whose code it runs, the block that is its frame, its
/// place in the code and its standing. Each call takes a fixed number of steps, however many are live; memory is taken
/// by `start` alone. The calls trust their conditions: none tests that an id is live.
#[derive(Drop)]
pub struct Acts {
    slots: Slab<Slot>,
    newest: Option<u32>,
}

impl Model for Acts {
    ghost use Rattle.std.specs.Prelude.{List};
    ghost use Rattle.hy_frames.specs.Activations.{Activation};
    ghost use Rattle.hy_frames.specs.Slots.{order};
    ghost use Rattle.hy_links.specs.Linked.{listed, AreLinked};

    ghost Value = { List Activation };

    ghost view = { λ acts. listed order acts.slots acts.newest };

    ghost invariant = { λ acts. AreLinked order acts.slots acts.newest };
}

// The newest of the activations that are left where one is taken out, which was in this slot.
fn newest_without(slot: Slot, newest: Option<u32>) -> Option<u32>
    ensures last { slot.links.after ≡ None → result ≡ slot.links.before }
    ensures not_last { slot.links.after ≢ None → result ≡ newest }
{
    match slot.links.after {
        None => slot.links.before,
        Some(_) => newest,
    }
}

impl Acts {
    // What is kept of a live activation.
    fn slot(&self, act: ActId) -> &Slot
        requires { IsLive act self.now }
        ensures { activation act self.now ≡ Some (order.held act.slot result.now) }
    {
        &self.slots[act.slot as usize]
    }

    /// No activation. The allocator is kept; no memory is taken.
    pub fn new(alloc: Global) -> Acts
        ensures { result ≡ [] }
    {
        Acts {
            slots: Slab::new(alloc),
            newest: None,
        }
    }

    /// Starts an activation of a function, with the block that is its frame, after all others. It runs, at place 0 of
    /// the function's code. It fails only out of memory, and then nothing has changed.
    pub fn start(
        &mut self,
        function: u32,
        frame: u64,
        caller: Option<ActId>,
    ) -> Result<ActId, NoMemory>
        ensures started { IfOk result (λ act. self.new ≡ self.old ++ started act function frame caller ∷ []) }
        ensures new_id { IfOk result (λ act. IsLive act self.old → ⊥) }
        ensures refused { OnErr result (self.new ≡ self.old) }
    {
        let slot = Slot {
            links: Links::newest(self.newest),
            function,
            frame,
            code_place: 0,
            standing: Standing::Running(caller),
        };
        let index = push(&mut self.slots, slot)?;
        self.newest = Some(index);
        Ok(ActId { slot: index })
    }

    /// Suspends a running activation, which has no caller then.
    pub fn suspend(&mut self, act: ActId)
        requires { IsRunning act self.old }
        ensures { self.new ≡ with_activation act suspended self.old }
    {
        self.slots[act.slot as usize].standing = Standing::Suspended;
    }

    /// Lets a suspended activation run again, now for this caller.
    pub fn resume(&mut self, act: ActId, caller: ActId)
        requires { IsSuspended act self.old }
        ensures { self.new ≡ with_activation act (resumed caller) self.old }
    {
        self.slots[act.slot as usize].standing = Standing::Running(Some(caller));
    }

    /// Takes an activation out, wherever it stands, and gives the block that is its frame.
    pub fn end(&mut self, act: ActId) -> u64
        requires { IsLive act self.old }
        ensures frame { IsSomeAnd (activation act self.old) (λ ended. result ≡ ended.frame) }
        ensures left { self.new ≡ without_activation act self.old }
    {
        let slot = unlink(&mut self.slots, act.slot);
        self.newest = newest_without(slot, self.newest);
        slot.frame
    }

    /// The activation to which this one hands out or returns: none exactly where it is suspended, or was started
    /// without one and was never resumed.
    pub fn caller(&self, act: ActId) -> Option<ActId>
        requires { IsLive act self.now }
        ensures { IsSomeAnd (activation act self.now) (λ a. result ≡ caller_of a.standing) }
    {
        match self.slot(act).standing {
            Standing::Running(caller) => caller,
            Standing::Suspended => None,
        }
    }

    /// The function whose code an activation runs.
    pub fn function(&self, act: ActId) -> u32
        requires { IsLive act self.now }
        ensures { IsSomeAnd (activation act self.now) (λ a. result ≡ a.function) }
    {
        self.slot(act).function
    }

    /// The block that is an activation's frame.
    pub fn frame(&self, act: ActId) -> u64
        requires { IsLive act self.now }
        ensures { IsSomeAnd (activation act self.now) (λ a. result ≡ a.frame) }
    {
        self.slot(act).frame
    }

    /// The place in the code, in instructions from the function's first, at which an activation stands.
    pub fn code_place(&self, act: ActId) -> u32
        requires { IsLive act self.now }
        ensures { IsSomeAnd (activation act self.now) (λ a. result ≡ a.code_place) }
    {
        self.slot(act).code_place
    }

    /// Lets an activation go on at this place of its function's code.
    pub fn go(&mut self, act: ActId, place: u32)
        requires { IsLive act self.old }
        ensures { self.new ≡ with_activation act (gone_to place) self.old }
    {
        self.slots[act.slot as usize].code_place = place;
    }

    /// A law, and no step: live activations have different ids.
    pub fn have_own_ids(&self)
        ensures { HaveOwnIds self.now }
    {
        let _slots = &self.slots;
    }
}

// The instruction that closes an access.
ghost use Rattle.std.specs.Prelude.{◌≡◌, ◌<◌, ◌++◌, ℕ, true, Some, OnOk, IsSomeAnd, length};
ghost use Rattle.hy_object.specs.Lending.{is_childless, is_given, opened_in, was_lent};
ghost use Rattle.hy_object.specs.States.{Activation, State, nth};
ghost use Rattle.hy_store.specs.Closes.{Closes, close_unless};
ghost use Rattle.hy_store.specs.Frames.{kept};
ghost use Rattle.hy_store.specs.Names.{CanClose, names};
ghost use Rattle.hy_store.specs.Executes.{MayRunOut, StoreExecutes};
ghost use Rattle.hy_store.specs.Represents.{Ghosts, RepresentsSome, Represents, abstract_slot};

use crate::frame::Slot;
use crate::halt::Halt;
use crate::store::Store;
use hy_base::NoMemory;
use hy_object::{Fun, Kind};

/// The access that the activation of a slot opened itself.
pub fn opened_in(slot: Slot) -> Option<u64>
    ensures { result ≡ opened_in (abstract_slot slot) }
{
    match slot {
        Slot::Filled(name) => Some(name),
        Slot::Empty | Slot::Given(_) | Slot::Yielded(_, _) => None,
    }
}

// Whether a slot holds the access of that name, which the caller gave.
fn is_given(slot: Slot, name: u64) -> bool
    ensures { is_given (abstract_slot slot) name ≡ result }
{
    match slot {
        Slot::Given(given) => given == name,
        Slot::Empty | Slot::Filled(_) | Slot::Yielded(_, _) => false,
    }
}

impl Store {
    /// Whether a waiting or suspended activation was lent the access of that name: one of its first `accesses` slots was
    /// given it.
    pub fn was_lent(&self, fun: &Fun, frame: u64, accesses: u32, name: u64) -> bool
        ensures { (g : Ghosts) (s : State) → Represents g self.now fun.now s → (i : ℕ) (a : Activation) → nth (s.callers ++ s.suspended) i ≡ Some a
            → a.frame ≡ frame → a.fun.accesses ≡ accesses → was_lent s name a ≡ result }
    {
        let _fun = fun;
        for k in 0..accesses {
            if is_given(self.frames.slot(frame, k), name) {
                return true;
            }
        }
        false
    }

    // Whether no live access was made from the one of that name.
    fn is_childless(&self, fun: &Fun, name: u64) -> bool
        requires { RepresentsSome self.now fun.now }
        ensures tells { (g : Ghosts) (s : State) → Represents g self.now fun.now s → is_childless s name ≡ result }
        ensures closable { result ≡ true → CanClose (names self.now.opened name) self.now.opened.accesses }
    {
        let _fun = fun;
        match self.opened.find(name) {
            Some(id) => !self.opened.accesses.has_children(id),
            None => true,
        }
    }

    // Closes the access of that name, and empties the slot of the running activation that held it.
    fn shut(&mut self, slot: u32, name: u64) -> Result<(), NoMemory>
        requires closable { CanClose (names self.old.opened name) self.old.opened.accesses }
        requires slot { IsSomeAnd (kept self.old.frames self.old.frame) (λ one. slot < length one.slots) }
        ensures { OnOk result (Closes self.old self.new slot name) }
    {
        if self.counts.closed == u64::MAX {
            return Err(NoMemory);
        }
        self.opened.close(name);
        self.frames.set_slot(self.frame, slot, Slot::Empty);
        self.counts.closed += 1;
        Ok(())
    }

    /// Closes the access that a slot of the running activation was filled with, unless it has a child, or is said to be lent
    /// to a suspended subscript.
    pub fn close(&mut self, fun: &Fun, slot: u32, lent: bool) -> Result<(), Halt>
        requires represented { RepresentsSome self.old fun.now }
        requires slot { slot < fun.now.slots }
        ensures { StoreExecutes MayRunOut fun.now self.old self.new result (λ s. close_unless s slot lent) }
    {
        let Some(name) = opened_in(self.frames.slot(self.frame, slot)) else {
            return Err(Halt::Stuck(Kind::Slot));
        };
        let childless = self.is_childless(fun, name);
        if lent || !childless {
            return Err(Halt::Stuck(Kind::Slot));
        }
        self.shut(slot, name)?;
        Ok(())
    }
}

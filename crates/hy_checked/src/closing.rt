// Closing: an access that a suspended subscript was lent stays open.
ghost use Rattle.std.specs.Prelude.{◌≡◌, ℕ, Some, not};
ghost use Rattle.hy_object.specs.declared.instr.Instr.TheVariants as instr;
ghost use Rattle.hy_object.specs.Checks.{own_slot};
ghost use Rattle.hy_object.specs.Lending.{close, none_was_lent, opened_in};
ghost use Rattle.hy_object.specs.States.{State};
ghost use Rattle.hy_store.specs.Executes.{MayRunOut};
ghost use Rattle.hy_checked.specs.Executes.{MachineExecutes};
ghost use Rattle.hy_checked.specs.Simulates.{IsAt, Simulates};

use crate::calls::known_fun;
use crate::machine::Machine;
use hy_object::{Fun, Object};
use hy_store::{Halt, opened_in};

impl Machine {
    // Whether a suspended subscript was lent the access that the running activation opened in a slot.
    fn is_lent(&self, object: &Object, fun: &Fun, slot: u32) -> bool
        requires { IsAt object.now self.now fun.now (instr.Close slot) }
        ensures { (s : State) → Simulates object.now self.now s → (this : ℕ) → opened_in (own_slot s slot) ≡ Some this
            → none_was_lent s this s.suspended ≡ not result }
    {
        let Some(name) = opened_in(self.store.frames.slot(self.store.frame, slot)) else {
            return false;
        };
        let mut at = 0;
        while at < self.suspended_ids.len() {
            let suspended_id = self.suspended_ids[at];
            let paused = self.waiting(suspended_id);
            let its = known_fun(object, paused.number);
            if self.store.was_lent(fun, paused.frame, its.accesses, name) {
                return true;
            }
            at += 1;
        }
        false
    }

    /// Closes the access that the running activation opened in a slot, which is empty then. It is stuck where a live access
    /// was made from it, or a suspended subscript was lent it (`docs/MACHINE.md`).
    pub fn close(&mut self, object: &Object, fun: &Fun, slot: u32) -> Result<(), Halt>
        requires { IsAt object.now self.old fun.now (instr.Close slot) }
        ensures { MachineExecutes MayRunOut object.now self.old self.new result (λ s. close s slot) }
    {
        let lent = self.is_lent(object, fun, slot);
        let counts = self.store.counts;
        if let Err(halt) = self.store.close(fun, slot, lent) {
            self.store.counts = counts;
            return Err(halt);
        }
        self.place += 1;
        Ok(())
    }
}

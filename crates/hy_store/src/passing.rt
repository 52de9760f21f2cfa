// Instructions that let another activation run: yields and slides. Which activations wait and which are suspended
// the machine knows; here are their frames.
ghost use Rattle.std.specs.Prelude.{◌≡◌, ◌<◌, Some};
ghost use Rattle.hy_object.specs.Controls.{Taken, resumes, taken, yield};
ghost use Rattle.hy_object.specs.States.{State};
ghost use Rattle.hy_store.specs.Frames.{kept};
ghost use Rattle.hy_store.specs.Switches.{CanTake, HandedOut, StoreSwitches, Waits, slot_for};
ghost use Rattle.hy_store.specs.Represents.{Ghosts, RepresentsSome, Represents};

use crate::frame::{Role, Slot};
use crate::halt::Halt;
use crate::store::{Store, held};
use hy_object::{Fun, Kind};

// The slot of the caller into which an access is handed out, where the role is that of a subscript before its yield.
fn slot_for(role: Option<Role>) -> Option<u32>
    ensures { result ≡ slot_for role }
{
    match role {
        Some(Role::Projected(slot)) => Some(slot),
        Some(Role::Called(_)) | Some(Role::Sliding) | None => None,
    }
}

impl Store {
    /// Suspends the running activation, and hands the access in a slot of its own out to the caller, which goes on.
    pub fn hand_out(
        &mut self,
        fun: &Fun,
        slot: u32,
        next: &Fun,
        caller: Option<u64>,
    ) -> Result<(), Halt>
        requires represented { RepresentsSome self.old fun.now }
        requires slot { slot < fun.now.slots }
        requires takes { CanTake (kept self.old.frames) self.old.frame caller }
        ensures { StoreSwitches fun.now next.now self.old self.new result (Waits caller next.now) HandedOut (λ s. yield s slot) }
    {
        let (_fun, _next) = (fun, next);
        let Some(name) = held(self.frames.slot(self.frame, slot)) else {
            return Err(Halt::Stuck(Kind::Slot));
        };
        let Some(into) = slot_for(self.frames.role(self.frame)) else {
            return Err(Halt::Stuck(Kind::Order));
        };
        let Some(frame) = caller else {
            return Err(Halt::Stuck(Kind::Order));
        };
        self.frames
            .set_slot(frame, into, Slot::Yielded(name, self.frame));
        self.frames.set_role(self.frame, Role::Sliding);
        self.frame = frame;
        Ok(())
    }

    /// Lets the suspended subscript in that frame, whose function is `next`, go on, and empties the slot of the running
    /// activation that its yield filled.
    pub fn wake(&mut self, fun: &Fun, slot: u32, next: &Fun, frame: u64)
        requires represented { RepresentsSome self.old fun.now }
        requires slot { slot < fun.now.slots }
        ensures { (g : Ghosts) (s : State) (t : Taken) → Represents g self.old fun.now s → taken frame s.suspended ≡ Some t → t.found.fun ≡ next.now
            → Represents g self.new next.now (resumes s slot t) }
    {
        let (_fun, _next) = (fun, next);
        self.frames.set_slot(self.frame, slot, Slot::Empty);
        self.frame = frame;
    }
}

// The instruction that ends an activation.
ghost use Rattle.std.specs.Prelude.{◌≡◌, ◌≤◌, ◌<◌, ◌+◌, ◌-◌, ◌^◌, ℕ, Some, None, IsTrue, IfOk, OnOk};
ghost use Rattle.hy_object.specs.declared.object.Fun.{Fun};
ghost use Rattle.hy_object.specs.declared.stuck.Kind.TheVariants as kind;
ghost use Rattle.hy_object.specs.Checks.{check, is_whole, may_write, own_words, stuck};
ghost use Rattle.hy_object.specs.Checks as checks;
ghost use Rattle.hy_object.specs.Controls.{frees_frame, goes_back, is_closed, is_open, leave, leaves_none, returns};
ghost use Rattle.hy_object.specs.States.{State};
ghost use Rattle.hy_object.specs.States as states;
ghost use Rattle.hy_store.specs.Memory.{live, HasCells};
ghost use Rattle.hy_store.specs.Opened.{abstract_range};
ghost use Rattle.hy_store.specs.Switches.{LeadsTo, StoreSwitches, Returned, Waits};
ghost use Rattle.hy_store.specs.Returns.{FreesFrame, has_cells, in_frame};
ghost use Rattle.hy_store.specs.Represents.{Ghosts, RepresentsSome, Reaches, Represents, follow, represented, abstract_role, abstract_slot};

use crate::frame::{Role, Slot};
use crate::halt::Halt;
use crate::reach::{Reach, may_write};
use crate::store::{Store, check};
use hy_access::Range;
use hy_base::{End, NoMemory};
use hy_object::{Fun, Kind};
use std::alloc::Global;

// Whether the activation itself filled a slot, and it is still open.
fn is_open(slot: Slot) -> bool
    ensures { is_open (abstract_slot slot) ≡ result }
{
    match slot {
        Slot::Empty | Slot::Given(_) => false,
        Slot::Filled(_) | Slot::Yielded(_, _) => true,
    }
}

impl Store {
    // Whether a block has cells in that range.
    fn has_cells(&self, range: Range) -> bool
        ensures test { result ≡ has_cells (live self.now.blocks range.block) range.from range.len }
        ensures there { IsTrue result → HasCells (live self.now.blocks range.block) range.from range.len }
    {
        match self.blocks.cells(range.block) {
            Some(cells) => range.from as usize + range.len as usize <= cells.len(),
            None => false,
        }
    }

    // Whether the running activation has closed all that it opened.
    fn is_closed(&self, fun: &Fun) -> bool
        ensures { (g : Ghosts) (s : State) → Represents g self.now fun.now s → is_closed s ≡ result }
    {
        for k in 0..fun.slots {
            if is_open(self.frames.slot(self.frame, k)) {
                return false;
            }
        }
        true
    }

    // Whether no name is left in the frame but in the words of the result.
    fn leaves_none(&self, fun: &Fun, words: Range) -> bool
        requires represented { RepresentsSome self.now fun.now }
        requires inside { words.from + words.len ≤ fun.now.words }
        ensures { (g : Ghosts) (s : State) → Represents g self.now fun.now s → leaves_none s (abstract_range words) ≡ result }
    {
        let all = fun.words;
        let end = words.from + words.len;
        let before = Reach {
            range: Range {
                block: self.frame,
                from: 0,
                len: words.from,
            },
            through: None,
        };
        let past = Reach {
            range: Range {
                block: self.frame,
                from: end,
                len: all - end,
            },
            through: None,
        };
        self.is_nameless(fun, before) && self.is_nameless(fun, past)
    }

    // Whether one more block that is freed can be counted.
    fn can_free(&self) -> Result<(), NoMemory>
        ensures { OnOk result (self.now.counts.freed < 2 ^ 64 - 1) }
    {
        if self.counts.freed == u64::MAX {
            return Err(NoMemory);
        }
        Ok(())
    }

    // Frees the frame of the running activation, and forgets what was kept of it.
    fn free_frame(&mut self)
        requires { self.old.counts.freed < 2 ^ 64 - 1 }
        ensures { FreesFrame self.old self.new }
    {
        self.blocks.free(self.frame);
        self.frames.free(self.frame);
        self.counts.freed += 1;
    }

    // Ends the running activation, and goes on with the one in that frame.
    fn go_back(&mut self, frame: u64)
        requires { self.old.counts.freed < 2 ^ 64 - 1 }
        ensures { (fun next : Fun) → LeadsTo fun next self.old self.new (Waits (Some frame) next) Returned (λ s. goes_back (frees_frame s) s.callers) }
    {
        self.free_frame();
        self.frame = frame;
    }

    // Ends the running activation. The one in the caller's frame goes on, and with none the run is done.
    fn end_activation(&mut self, caller: Option<u64>) -> Result<(), Halt>
        ensures { (fun next : Fun) → StoreSwitches fun next self.old self.new result (Waits caller next) Returned (λ s. goes_back (frees_frame s) s.callers) }
    {
        self.can_free()?;
        match caller {
            Some(frame) => {
                self.go_back(frame);
                Ok(())
            }
            None => {
                self.free_frame();
                Err(Halt::Ended(End::Done))
            }
        }
    }

    // Moves the result to the caller's words from that one on, and ends the running activation.
    fn fill(&mut self, alloc: Global, fun: &Fun, x: Reach, to: u32, caller: u64) -> Result<(), Halt>
        requires represented { RepresentsSome self.old fun.now }
        requires cells { HasCells (live self.old.blocks x.range.block) x.range.from x.range.len }
        requires inside { x.range.from + x.range.len ≤ fun.now.words }
        ensures { (next : Fun)
            → StoreSwitches fun.now next self.old self.new result (Waits (Some caller) next) Returned
            (λ s. returns s (in_frame x.range) (states.Called to) s.callers) }
    {
        let y = Reach {
            range: Range {
                block: caller,
                from: to,
                len: x.range.len,
            },
            through: None,
        };
        if !self.has_cells(y.range) {
            return Err(Halt::Stuck(Kind::Range));
        }
        check(may_write(&self.opened.accesses, y), Kind::Access)?;
        check(self.is_closed(fun), Kind::Slot)?;
        check(self.is_nameless(fun, y), Kind::Lost)?;
        check(self.leaves_none(fun, x.range), Kind::Lost)?;
        self.can_free()?;
        self.transfer(alloc, x, y)?;
        self.go_back(caller);
        Ok(())
    }

    // Ends the running activation, whose result nobody takes.
    fn finish(&mut self, fun: &Fun, x: Reach) -> Result<(), Halt>
        requires represented { RepresentsSome self.old fun.now }
        requires inside { x.range.from + x.range.len ≤ fun.now.words }
        ensures { (to : ℕ) (next : Fun)
            → StoreSwitches fun.now next self.old self.new result (Waits None next) Returned
            (λ s. returns s (in_frame x.range) (states.Called to) s.callers) }
    {
        check(self.is_closed(fun), Kind::Slot)?;
        check(self.leaves_none(fun, x.range), Kind::Lost)?;
        self.end_activation(None)
    }

    // Ends a subscript that has yielded, which has no result.
    fn end_slide(&mut self, fun: &Fun, x: Reach, caller: Option<u64>) -> Result<(), Halt>
        requires represented { RepresentsSome self.old fun.now }
        requires inside { x.range.from + x.range.len ≤ fun.now.words }
        ensures { (next : Fun)
            → StoreSwitches fun.now next self.old self.new result (Waits caller next) Returned (λ s. returns s (in_frame x.range) states.Sliding s.callers) }
    {
        check(self.is_closed(fun), Kind::Slot)?;
        check(x.range.len == 0, Kind::Order)?;
        check(self.leaves_none(fun, x.range), Kind::Lost)?;
        self.end_activation(caller)
    }

    // Why a subscript may not return before its yield.
    fn refusal(&self, fun: &Fun) -> Kind
        ensures { (g : Ghosts) (s : State) → Represents g self.now fun.now s → check s kind.Slot (is_closed s) (stuck s kind.Order) ≡ stuck s result }
    {
        if self.is_closed(fun) {
            Kind::Order
        } else {
            Kind::Slot
        }
    }

    // The words of the result: they may be moved.
    fn result_words(&self, fun: &Fun, word: u32) -> Result<Reach, Kind>
        requires { RepresentsSome self.now fun.now }
        ensures reached { IfOk result (Reaches self.now fun.now.result) }
        ensures inside { IfOk result (λ r. r.range.from + r.range.len ≤ fun.now.words) }
        ensures checks { (g : Ghosts) (s : State) → Represents g self.now fun.now s → (go : checks.Reach → State)
            → own_words s word fun.now.result (λ x. check s kind.Access (may_write s x) (check s kind.Unset (is_whole s x.range) (go x))) ≡ follow s result
            (λ r. go (represented g s r)) }
    {
        let x = self.own_words(fun, word, fun.result)?;
        check(may_write(&self.opened.accesses, x), Kind::Access)?;
        check(self.is_whole(fun, x), Kind::Unset)?;
        Ok(x)
    }

    // Hands over what an activation of that role hands to its caller, and ends it.
    fn hand_back(
        &mut self,
        alloc: Global,
        fun: &Fun,
        x: Reach,
        role: Role,
        caller: Option<u64>,
    ) -> Result<(), Halt>
        requires represented { RepresentsSome self.old fun.now }
        requires cells { HasCells (live self.old.blocks x.range.block) x.range.from x.range.len }
        requires inside { x.range.from + x.range.len ≤ fun.now.words }
        ensures { (next : Fun)
            → StoreSwitches fun.now next self.old self.new result (Waits caller next) Returned
            (λ s. returns s (in_frame x.range) (abstract_role role) s.callers) }
    {
        match role {
            Role::Called(to) => match caller {
                Some(frame) => self.fill(alloc, fun, x, to, frame),
                None => self.finish(fun, x),
            },
            Role::Projected(_) => Err(Halt::Stuck(self.refusal(fun))),
            Role::Sliding => self.end_slide(fun, x, caller),
        }
    }

    /// Ends the running activation, with its result from that word on. `caller` is the frame of the one that waits for it,
    /// whose function is `next`; with none the run is done.
    pub fn leave(
        &mut self,
        alloc: Global,
        fun: &Fun,
        word: u32,
        next: &Fun,
        caller: Option<u64>,
    ) -> Result<(), Halt>
        requires { RepresentsSome self.old fun.now }
        ensures { StoreSwitches fun.now next.now self.old self.new result (Waits caller next.now) Returned (λ s. leave s word) }
    {
        let _next = next;
        let x = self.result_words(fun, word)?;
        let Some(role) = self.frames.role(self.frame) else {
            unreachable!()
        };
        self.hand_back(alloc, fun, x, role, caller)
    }
}

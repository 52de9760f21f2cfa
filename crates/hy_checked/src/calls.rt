// Calls, projections and returns.
ghost use Rattle.std.specs.Prelude.{◌≡◌, None, IsSome, Some, slice_get};
ghost use Rattle.hy_frames.specs.Activations.{IsLive};
ghost use Rattle.hy_object.specs.declared.instr.Instr.TheVariants as instr;
ghost use Rattle.hy_object.specs.Checks.{take_turn};
ghost use Rattle.hy_object.specs.Controls.{call, leave, project, start};
ghost use Rattle.hy_store.specs.Opened.{abstract_range};
ghost use Rattle.hy_store.specs.Represents.{abstract_role};
ghost use Rattle.hy_store.specs.Executes.{MayRunOut};
ghost use Rattle.hy_checked.specs.Executes.{MachineExecutes};
ghost use Rattle.hy_checked.specs.Simulates.{HasCaller, IsAt, WaitsAs};
ghost use Rattle.hy_checked.specs.Starting.{CanStart};

use crate::machine::{Machine, Waiting};
use hy_base::{End, RunCause};
use hy_frames::ActId;
use hy_object::{Fun, Kind, Object};
use hy_store::{Halt, Reach, Role, is_empty};
use std::alloc::Global;

/// What a call or a projection starts: the function of that number, with the caller's slots from `slot` on and the words that
/// are reached.
#[derive(Clone, Copy, Debug)]
pub struct Start {
    pub number: u32,
    pub slot: u32,
    pub reach: Reach,
    pub role: Role,
}

/// A function that is known to exist.
pub fn known_fun(object: &Object, number: u32) -> &Fun
    requires { IsSome (slice_get object.now.funs number) }
    ensures { Some result.now ≡ slice_get object.now.funs number }
{
    let Some(fun) = object.funs.get(number as usize) else {
        unreachable!()
    };
    fun
}

impl Machine {
    /// Where an activation goes on that does not run.
    pub fn waiting(&self, act: ActId) -> Waiting
        requires { IsLive act self.now.acts }
        ensures { WaitsAs self.now act result }
    {
        Waiting {
            number: self.acts.function(act),
            place: self.acts.code_place(act),
            frame: self.acts.frame(act),
        }
    }

    /// Calls a function.
    pub fn call(
        &mut self,
        alloc: Global,
        object: &Object,
        fun: &Fun,
        number: u32,
        slot: u32,
        word: u32,
    ) -> Result<(), Halt>
        requires { IsAt object.now self.old fun.now (instr.Call number slot word) }
        ensures { MachineExecutes MayRunOut object.now self.old self.new result (λ s. call object.now s number slot word) }
    {
        let callee = known_fun(object, number);
        let reach = self.store.hands_over(fun, callee, slot, word)?;
        let role = Role::Called(word);
        let what = Start {
            number,
            slot,
            reach,
            role,
        };
        self.start(alloc, object, fun, callee, what)
    }

    /// Starts a subscript, which hands out to the slot `into`.
    pub fn project(
        &mut self,
        alloc: Global,
        object: &Object,
        fun: &Fun,
        number: u32,
        slot: u32,
        word: u32,
        into: u32,
    ) -> Result<(), Halt>
        requires { IsAt object.now self.old fun.now (instr.Project number slot word into) }
        ensures { MachineExecutes MayRunOut object.now self.old self.new result (λ s. project object.now s number slot word into) }
    {
        let callee = known_fun(object, number);
        let reach = self.store.hands_over(fun, callee, slot, word)?;
        if is_empty(self.store.frames.slot(self.store.frame, into)) {
            let role = Role::Projected(into);
            let what = Start {
                number,
                slot,
                reach,
                role,
            };
            return self.start(alloc, object, fun, callee, what);
        }
        Err(Halt::Stuck(Kind::Slot))
    }

    // Takes a turn and starts a function.
    fn start(
        &mut self,
        alloc: Global,
        object: &Object,
        fun: &Fun,
        callee: &Fun,
        what: Start,
    ) -> Result<(), Halt>
        requires { CanStart object.now self.old fun.now callee.now what }
        ensures { MachineExecutes MayRunOut object.now self.old self.new result
            (λ s. take_turn s (λ t. start t what.number callee.now what.slot (abstract_range what.reach.range) (abstract_role what.role))) }
    {
        let _object = object;
        let _fun = fun;
        if self.left == 0 {
            return Err(Halt::Ended(End::Spent));
        }
        self.acts.go(self.running, self.place + 1);
        let act = self
            .acts
            .start(what.number, self.store.counts.blocks, Some(self.running))?;
        let counts = self.store.counts;
        if let Err(_) = self
            .store
            .start(alloc, callee, what.slot, what.reach, what.role)
        {
            self.store.counts = counts;
            return Err(Halt::Cut(RunCause::NoMemory));
        }
        self.running = act;
        self.number = what.number;
        self.place = 0;
        self.left -= 1;
        Ok(())
    }

    /// Ends the running activation with its result, and its caller goes on.
    pub fn leave(
        &mut self,
        alloc: Global,
        object: &Object,
        fun: &Fun,
        word: u32,
    ) -> Result<(), Halt>
        requires { IsAt object.now self.old fun.now (instr.Return word) }
        ensures { MachineExecutes MayRunOut object.now self.old self.new result (λ s. leave s word) }
    {
        let Some(caller) = self.acts.caller(self.running) else {
            return self.leave_main(alloc, object, fun, word);
        };
        let waits = self.waiting(caller);
        let next = known_fun(object, waits.number);
        let counts = self.store.counts;
        match self.store.leave(alloc, fun, word, next, Some(waits.frame)) {
            Ok(()) => {
                self.acts.have_own_ids();
                self.acts.end(self.running);
                self.running = caller;
                self.number = waits.number;
                self.place = waits.place;
                Ok(())
            }
            Err(Halt::Ended(end)) => Err(Halt::Ended(end)),
            Err(halt) => {
                self.store.counts = counts;
                Err(halt)
            }
        }
    }

    // Ends the last activation, for which none waits.
    fn leave_main(
        &mut self,
        alloc: Global,
        object: &Object,
        fun: &Fun,
        word: u32,
    ) -> Result<(), Halt>
        requires here { IsAt object.now self.old fun.now (instr.Return word) }
        requires none { HasCaller self.old None }
        ensures { MachineExecutes MayRunOut object.now self.old self.new result (λ s. leave s word) }
    {
        let _object = object;
        let counts = self.store.counts;
        match self.store.leave(alloc, fun, word, fun, None) {
            Ok(()) => unreachable!(),
            Err(Halt::Ended(end)) => Err(Halt::Ended(end)),
            Err(halt) => {
                self.store.counts = counts;
                Err(halt)
            }
        }
    }
}

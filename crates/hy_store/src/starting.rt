// What a call starts.
ghost use Rattle.std.specs.Prelude.{◌≡◌, ◌+◌, ◌-◌, ◌≤◌, ◌^◌, ◌<◌, ℕ, suc, Bool, List, replicate, IfOk, OnOk};
ghost use Rattle.hy_store.specs.declared.frame.Slot.TheVariants.{Empty};
ghost use Rattle.hy_object.specs.declared.object.Object.{Object};
ghost use Rattle.hy_object.specs.Steps.{begin, main_of};
ghost use Rattle.hy_object.specs.declared.object.Fun.{Fun};
ghost use Rattle.hy_object.specs.Checks.{with_turn};
ghost use Rattle.hy_object.specs.Checks as checks;
ghost use Rattle.hy_object.specs.Controls.{can_give, start};
ghost use Rattle.hy_object.specs.States.{State};
ghost use Rattle.hy_store.specs.Opened.{abstract_range};
ghost use Rattle.hy_store.specs.Calls.{IsBegun, hands_to, no_ghosts};
ghost use Rattle.hy_store.specs.Frames.{kept};
ghost use Rattle.hy_store.specs.Memory.{live, HasCells};
ghost use Rattle.hy_store.specs.Represents.{AreFirst, Ghosts, RepresentsSome, Reaches, Represents, Starts, first_slot, follow, given_slot, represented};
ghost use Rattle.hy_store.specs.Represents.{abstract_role, abstract_slot};

use crate::blocks::{Blocks, padded};
use crate::frame::{Frame, Frames, Role, Slot};
use crate::lending::is_empty;
use crate::opened::Opened;
use crate::reach::{Reach, may_write};
use crate::store::{Store, check, fits};
use hy_base::{Counts, NoMemory};
use hy_object::{Fun, Kind};
use std::alloc::Global;

// What a new activation has of a slot of its caller.
fn given(slot: Slot) -> Slot
    ensures { result ≡ given_slot slot }
{
    match slot {
        Slot::Empty => Slot::Empty,
        Slot::Given(name) | Slot::Filled(name) | Slot::Yielded(name, _) => Slot::Given(name),
    }
}

fn empty_slots(alloc: Global, count: u32) -> Result<Vec<Slot>, NoMemory>
    ensures { IfOk result (λ row. row.items ≡ replicate count Empty) }
{
    let mut row = Vec::new(alloc);
    for _ in 0..count {
        row.push(Slot::Empty)?;
    }
    Ok(row)
}

impl Store {
    /// The start of a run in `main`: a turn and a block for its frame are counted.
    pub fn begin(alloc: Global, main: &Fun) -> Result<Store, NoMemory>
        requires { main.now.words < 2 ^ 32 }
        ensures begins { IfOk result (λ store. IsBegun store main.now) }
        ensures ready { IfOk result (λ store. RepresentsSome store main.now) }
        ensures represented { IfOk result (λ store. (object : Object) (input : List ℕ) (cut : Bool) (n : ℕ) → main_of object ≡ main.now
            → Represents no_ghosts store main.now (begin object input cut (suc n))) }
    {
        let mut blocks = Blocks::new(alloc);
        let mut frames = Frames::new(alloc);
        let slots = empty_slots(alloc, main.slots)?;
        let role = Role::Called(0);
        blocks.take(0, padded(alloc, &[], main.words)?)?;
        frames.take(0, Frame { slots, role })?;
        Ok(Store {
            blocks,
            opened: Opened::new(alloc),
            frames,
            frame: 0,
            counts: Counts {
                turns: 1,
                blocks: 1,
                freed: 0,
                opened: 0,
                closed: 0,
            },
        })
    }

    // What a function is started with in slot `k`.
    fn first_slot(&self, callee: &Fun, slot: u32, k: u32) -> Slot
        requires { slot + callee.now.accesses < 2 ^ 32 }
        ensures { result ≡ first_slot (kept self.now.frames self.now.frame) slot callee.now.accesses k }
    {
        if k < callee.accesses {
            given(self.frames.slot(self.frame, slot + k))
        } else {
            Slot::Empty
        }
    }

    // The slots that a function is started with: the first are the caller's from that one on.
    fn first_slots(&self, alloc: Global, callee: &Fun, slot: u32) -> Result<Vec<Slot>, NoMemory>
        requires { slot + callee.now.accesses < 2 ^ 32 }
        ensures { IfOk result (λ row. AreFirst (kept self.now.frames self.now.frame) slot callee.now row.items) }
    {
        let mut row = Vec::new(alloc);
        for k in 0..callee.slots {
            row.push(self.first_slot(callee, slot, k))?;
        }
        Ok(row)
    }

    // Whether the caller's slots from that one on exist and are filled, as many as the callee is lent.
    fn can_give(&self, fun: &Fun, callee: &Fun, slot: u32) -> bool
        requires { slot ≤ fun.now.slots }
        ensures { (g : Ghosts) (s : State) → Represents g self.now fun.now s → can_give s slot callee.now.accesses ≡ result }
    {
        if !fits(slot, callee.accesses, fun.slots) {
            return false;
        }
        for k in 0..callee.accesses {
            if is_empty(self.frames.slot(self.frame, slot + k)) {
                return false;
            }
        }
        true
    }

    /// What is handed to a function: its slots exist, and its words may be moved.
    pub fn hands_over(&self, fun: &Fun, callee: &Fun, slot: u32, word: u32) -> Result<Reach, Kind>
        requires represented { RepresentsSome self.now fun.now }
        requires slot { slot ≤ fun.now.slots }
        ensures reached { IfOk result (Reaches self.now callee.now.owned) }
        ensures checks { (g : Ghosts) (s : State) → Represents g self.now fun.now s → (go : checks.Reach → State)
            → hands_to s callee.now slot word go ≡ follow s result (λ r. go (represented g s r)) }
    {
        check(self.can_give(fun, callee, slot), Kind::Slot)?;
        let x = self.own_words(fun, word, callee.owned)?;
        check(may_write(&self.opened.accesses, x), Kind::Access)?;
        check(self.is_whole(fun, x), Kind::Unset)?;
        Ok(x)
    }

    /// Starts a function in a new frame, into which the cells that are reached are moved. A turn is counted.
    pub fn start(
        &mut self,
        alloc: Global,
        callee: &Fun,
        slot: u32,
        reach: Reach,
        role: Role,
    ) -> Result<(), NoMemory>
        requires cells { HasCells (live self.old.blocks reach.range.block) reach.range.from reach.range.len }
        requires owned { reach.range.len ≤ callee.now.words }
        requires slots { slot + callee.now.accesses < 2 ^ 32 }
        requires turns { self.old.counts.turns < 2 ^ 64 - 1 }
        requires other { reach.range.block < self.old.counts.blocks }
        requires lent { callee.now.accesses ≤ callee.now.slots }
        ensures starts { OnOk result (Starts self.old self.new callee.now slot reach.range role) }
        ensures represented { OnOk result ((fun : Fun) (g : Ghosts) (s : State) → Represents g self.old fun s → (number left : ℕ)
            → (after : Ghosts)
            × Represents after self.new callee.now (start (with_turn s left) number callee.now slot (abstract_range reach.range) (abstract_role role))) }
    {
        let name = self.counts.blocks;
        if name == u64::MAX {
            return Err(NoMemory);
        }
        let cells = padded(alloc, self.cells(reach), callee.words)?;
        let slots = self.first_slots(alloc, callee, slot)?;
        self.blocks.take(name, cells)?;
        self.blocks
            .unset(reach.range.block, reach.range.from, reach.range.len);
        self.frames.take(name, Frame { slots, role })?;
        self.frame = name;
        self.counts.blocks = name + 1;
        self.counts.turns += 1;
        Ok(())
    }
}

// What an instruction looks at before it changes anything: the memory that the running activation reaches.
ghost use Rattle.std.specs.Prelude.{◌≡◌, ◌≤◌, ◌+◌, ℕ, ℤ, nat_le, length, replicate, IfOk, OnOk, IsSomeAnd, Some};
ghost use Rattle.hy_access.specs.Accesses as live_access;
ghost use Rattle.hy_object.specs.Checks.{check, word_in, is_whole, is_nameless, may_read, may_use, may_write, own_words, reach, read_word, to_word, held};
ghost use Rattle.hy_object.specs.Checks.{own_slot, with_some};
ghost use Rattle.hy_object.specs.Checks as checks;
ghost use Rattle.hy_object.specs.States.{State};
ghost use Rattle.hy_store.specs.Memory.{live, HasCells, IsRow};
ghost use Rattle.hy_store.specs.Cells.{Unset};
ghost use Rattle.hy_store.specs.Held.{abstract_cell};
ghost use Rattle.hy_store.specs.Opened.{abstract_range};
ghost use Rattle.hy_store.specs.Represents.{Ghosts, Represents, RepresentsSome, Moves, Reaches, Stores, follow, reach_in, represented, abstract_slot};

use crate::blocks::Blocks;
use crate::cell::{Cell, are_nameless, are_set, cell_at, window};
use crate::frame::{Frames, Slot};
use crate::opened::Opened;
use crate::reach::{Reach, may_read, may_use, may_write};
use hy_access::Range;
use hy_base::{Counts, NoMemory};
use hy_object::{Fun, Kind, Place, Way};
use std::alloc::Global;

/// The blocks, the accesses and the slots, and the block that is the frame of the running activation.
#[derive(Drop)]
pub struct Store {
    pub blocks: Blocks,
    pub opened: Opened,
    pub frames: Frames,
    pub frame: u64,
    pub counts: Counts,
}

impl Store {
    /// So many words of the own frame.
    pub fn own_words(&self, fun: &Fun, word: u32, words: u32) -> Result<Reach, Kind>
        requires { RepresentsSome self.now fun.now }
        ensures reached { IfOk result (Reaches self.now words) }
        ensures inside { IfOk result (λ r. r.range.from + r.range.len ≤ fun.now.words) }
        ensures checks { (g : Ghosts) (s : State) → Represents g self.now fun.now s → (go : checks.Reach → State)
            → own_words s word words go ≡ follow s result (λ r. go (represented g s r)) }
    {
        if !fits(word, words, fun.words) {
            return Err(Kind::Range);
        }
        Ok(Reach {
            range: Range {
                block: self.frame,
                from: word,
                len: words,
            },
            through: None,
        })
    }

    /// So many words at a place.
    pub fn reach(&self, fun: &Fun, place: Place, words: u32) -> Result<Reach, Kind>
        requires { RepresentsSome self.now fun.now }
        ensures reached { IfOk result (Reaches self.now words) }
        ensures checks { (g : Ghosts) (s : State) → Represents g self.now fun.now s → (go : checks.Reach → State)
            → reach s place words go ≡ follow s result (λ r. go (represented g s r)) }
    {
        if place.base == 0 {
            return self.own_words(fun, place.offset, words);
        }
        let Some(name) = held(self.frames.slot(self.frame, place.base - 1)) else {
            return Err(Kind::Slot);
        };
        self.reach_through(fun, name, place.offset, words)
    }

    /// Brings the frame of the running activation to hand, so that its words are found with no look at the table of blocks.
    /// What is represented stays.
    pub fn settle(&mut self)
        ensures { (g : Ghosts) (fun : Fun) (s : State) → Represents g self.old fun s → Represents g self.new fun s }
    {
        self.blocks.bring(self.frame);
    }

    /// The cells that are reached.
    pub fn cells(&self, reach: Reach) -> &[Cell]
        requires { HasCells (live self.now.blocks reach.range.block) reach.range.from reach.range.len }
        ensures { IsRow (live self.now.blocks) reach.range result.now }
    {
        match self.blocks.cells(reach.range.block) {
            Some(cells) => window(cells, reach.range.from, reach.range.len),
            None => &[],
        }
    }

    /// Stores these cells, as many as are reached.
    #[tactic(auto, using(crate::proofs::Storing::found_again))]
    pub fn put(&mut self, reach: Reach, new: &[Cell])
        requires cells { HasCells (live self.old.blocks reach.range.block) reach.range.from reach.range.len }
        requires size { length new.now ≡ reach.range.len }
        ensures { Stores self.old self.new reach.range new.now }
    {
        self.blocks.put(reach.range.block, reach.range.from, new);
    }

    /// Unsets the cells that are reached.
    pub fn unset(&mut self, reach: Reach)
        requires { HasCells (live self.old.blocks reach.range.block) reach.range.from reach.range.len }
        ensures { Stores self.old self.new reach.range (replicate reach.range.len Unset) }
    {
        self.blocks
            .unset(reach.range.block, reach.range.from, reach.range.len);
    }

    /// A copy of the cells that are reached.
    pub fn copied(&self, alloc: Global, reach: Reach) -> Result<Vec<Cell>, NoMemory>
        requires { HasCells (live self.now.blocks reach.range.block) reach.range.from reach.range.len }
        ensures { IfOk result (λ row. IsRow (live self.now.blocks) reach.range row.items) }
    {
        Ok(self.cells(reach).to_vec(alloc)?)
    }

    /// Moves cells from one range to another of as many, which it does not meet. Where memory runs out nothing is done.
    pub fn transfer(&mut self, alloc: Global, from: Reach, to: Reach) -> Result<(), NoMemory>
        requires from { HasCells (live self.old.blocks from.range.block) from.range.from from.range.len }
        requires to { HasCells (live self.old.blocks to.range.block) to.range.from to.range.len }
        requires size { to.range.len ≡ from.range.len }
        ensures { OnOk result (Moves self.old self.new from.range to.range) }
    {
        let row = self.copied(alloc, from)?;
        self.put(to, row.as_slice());
        self.unset(from);
        Ok(())
    }

    /// Whether each cell is set.
    pub fn is_whole(&self, fun: &Fun, reach: Reach) -> bool
        requires { HasCells (live self.now.blocks reach.range.block) reach.range.from reach.range.len }
        ensures { (g : Ghosts) (s : State) → Represents g self.now fun.now s → is_whole s (abstract_range reach.range) ≡ result }
    {
        let _fun = fun;
        are_set(self.cells(reach))
    }

    /// Whether no cell holds a name.
    pub fn is_nameless(&self, fun: &Fun, reach: Reach) -> bool
        requires { HasCells (live self.now.blocks reach.range.block) reach.range.from reach.range.len }
        ensures { (g : Ghosts) (s : State) → Represents g self.now fun.now s → is_nameless s (abstract_range reach.range) ≡ result }
    {
        let _fun = fun;
        are_nameless(self.cells(reach))
    }

    /// The word in a word of the own frame.
    pub fn read_word(&self, fun: &Fun, word: u32) -> Result<i64, Kind>
        requires { RepresentsSome self.now fun.now }
        ensures { (g : Ghosts) (s : State) → Represents g self.now fun.now s → (go : ℤ → State) → read_word s word go ≡ follow s result go }
    {
        let reach = self.own_words(fun, word, 1)?;
        check(may_read(&self.opened.accesses, reach), Kind::Access)?;
        word_in(cell_at(self.cells(reach), 0))
    }

    /// A word of the own frame that is to be stored.
    pub fn to_word(&self, fun: &Fun, word: u32) -> Result<Reach, Kind>
        requires { RepresentsSome self.now fun.now }
        ensures reached { IfOk result (Reaches self.now 1) }
        ensures checks { (g : Ghosts) (s : State) → Represents g self.now fun.now s → (go : checks.Reach → State)
            → to_word s word go ≡ follow s result (λ r. go (represented g s r)) }
    {
        let reach = self.own_words(fun, word, 1)?;
        check(may_write(&self.opened.accesses, reach), Kind::Access)?;
        Ok(reach)
    }

    fn reach_through(&self, fun: &Fun, name: u64, offset: u32, words: u32) -> Result<Reach, Kind>
        requires { RepresentsSome self.now fun.now }
        ensures reached { IfOk result (Reaches self.now words) }
        ensures checks { (g : Ghosts) (s : State) → Represents g self.now fun.now s → (go : checks.Reach → State)
            → reach_in s name offset words go ≡ follow s result (λ r. go (represented g s r)) }
    {
        let Some(id) = self.opened.find(name) else {
            return Err(Kind::Slot);
        };
        let own = self.opened.accesses.own(id);
        if !self.blocks.is_live(own.block) {
            return Err(Kind::Freed);
        }
        if !fits(offset, words, own.len) {
            return Err(Kind::Range);
        }
        Ok(Reach {
            range: Range {
                block: own.block,
                from: own.from + offset,
                len: words,
            },
            through: Some(id),
        })
    }
}

/// Goes on where a test holds, and else is stuck for that reason.
pub fn check(holds: bool, why: Kind) -> Result<(), Kind>
    ensures { (s : State) (go : State) → check s why holds go ≡ follow s result (λ done. go) }
{
    if holds { Ok(()) } else { Err(why) }
}

// The word in a cell.
fn word_in(cell: Cell) -> Result<i64, Kind>
    ensures { (s : State) (go : ℤ → State) → word_in s (abstract_cell cell) go ≡ follow s result go }
{
    match cell {
        Cell::Unset => Err(Kind::Unset),
        Cell::Word(n) => Ok(n),
        Cell::Name(_) => Err(Kind::Kind),
    }
}

/// Whether so many words from that one on are among all of them.
pub fn fits(from: u32, words: u32, all: u32) -> bool
    ensures { result ≡ nat_le (from + words) all }
{
    u64::from(from) + u64::from(words) <= u64::from(all)
}

/// The access that a slot holds.
pub fn held(slot: Slot) -> Option<u64>
    ensures { result ≡ held (abstract_slot slot) }
{
    match slot {
        Slot::Empty => None,
        Slot::Given(name) => Some(name),
        Slot::Filled(name) => Some(name),
        Slot::Yielded(name, _) => Some(name),
    }
}

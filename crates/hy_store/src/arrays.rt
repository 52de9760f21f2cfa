// Instructions on arrays.
ghost use Rattle.std.specs.Prelude.{◌≡◌, ℕ, ℤ, true, IfOk, IsSome};
ghost use Rattle.hy_object.specs.Arrays.{count_of};
ghost use Rattle.hy_object.specs.Checks as checks;
ghost use Rattle.hy_object.specs.Elements.{array, pair_in, room};
ghost use Rattle.hy_object.specs.States.{State};
ghost use Rattle.hy_store.specs.Cells.{Name};
ghost use Rattle.hy_store.specs.Held.{abstract_cell};
ghost use Rattle.hy_store.specs.Memory.{live, HasCells};
ghost use Rattle.hy_store.specs.Executes.{InPlace, StoreExecutes};
ghost use Rattle.hy_store.specs.Represents.{Ghosts, RepresentsSome, Reaches, Represents, follow, represented};

use crate::cell::{Cell, cell_at};
use crate::halt::Halt;
use crate::reach::{Reach, may_use};
use crate::store::{Store, check};
use hy_object::{Fun, Kind, Place, Way};

/// An array: its two cells, the name of its block, and the count of its elements.
#[derive(Clone, Copy, Debug, PartialEq, Eq)]
pub struct Array {
    pub cells: Reach,
    pub block: u64,
    pub count: i64,
}

// What two cells hold: both are set, and then a name and a word.
fn pair_in(first: Cell, second: Cell) -> Result<(u64, i64), Kind>
    ensures name { IfOk result (λ pair. first ≡ Name pair.0) }
    ensures checks { (s : State) (go : ℕ → ℤ → State) → pair_in s (abstract_cell first) (abstract_cell second) go
        ≡ follow s result (λ pair. go pair.0 pair.1) }
{
    match (first, second) {
        (Cell::Unset, _) | (_, Cell::Unset) => Err(Kind::Unset),
        (Cell::Name(block), Cell::Word(count)) => Ok((block, count)),
        _ => Err(Kind::Kind),
    }
}

/// The words of room that one element takes.
pub fn room(width: u32) -> u32
    ensures { result ≡ room width }
{
    if width == 0 { 1 } else { width }
}

impl Store {
    /// How many words a live block has.
    pub fn size(&self, fun: &Fun, block: u64) -> u32
        requires represented { RepresentsSome self.now fun.now }
        requires lives { IsSome (live self.now.blocks block) }
        ensures fits { HasCells (live self.now.blocks block) 0 result }
        ensures words { (g : Ghosts) (s : State) → Represents g self.now fun.now s → s.words block ≡ result }
    {
        let _fun = fun;
        match self.blocks.cells(block) {
            Some(cells) => cells.len() as u32,
            None => 0,
        }
    }

    /// The array at a place, whose two cells may be used in that way.
    pub fn array(&self, fun: &Fun, place: Place, way: Way) -> Result<Array, Kind>
        requires { RepresentsSome self.now fun.now }
        ensures reached { IfOk result (λ a. Reaches self.now 2 a.cells) }
        ensures lives { IfOk result (λ a. IsSome (live self.now.blocks a.block)) }
        ensures is_array { IfOk result (λ a. (g : Ghosts) (s : State) → Represents g self.now fun.now s → g.is_array a.block ≡ true) }
        ensures checks { (g : Ghosts) (s : State) → Represents g self.now fun.now s → (go : checks.Reach → ℕ → ℤ → State)
            → array s place way go ≡ follow s result (λ a. go (represented g s a.cells) a.block a.count) }
    {
        let x = self.reach(fun, place, 2)?;
        check(may_use(&self.opened.accesses, way, x), Kind::Access)?;
        let cells = self.cells(x);
        let pair = pair_in(cell_at(cells, 0), cell_at(cells, 1))?;
        check(self.blocks.is_live(pair.0), Kind::Freed)?;
        Ok(Array {
            cells: x,
            block: pair.0,
            count: pair.1,
        })
    }

    /// Stores the count of an array.
    pub fn count(&mut self, fun: &Fun, to: u32, place: Place) -> Result<(), Halt>
        requires { RepresentsSome self.old fun.now }
        ensures { StoreExecutes InPlace fun.now self.old self.new result (λ s. count_of s to place) }
    {
        let reach = self.to_word(fun, to)?;
        let array = self.array(fun, place, Way::Read)?;
        check(self.is_nameless(fun, reach), Kind::Lost)?;
        self.put(reach, &[Cell::Word(array.count)]);
        Ok(())
    }
}

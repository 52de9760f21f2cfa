// Instructions that take and free the blocks of arrays.
ghost use Rattle.std.specs.Prelude.{◌≡◌, ◌<◌, ◌≤◌, ◌^◌, pos, true, false, IfOk, OnOk, IsSome};
ghost use Rattle.hy_object.specs.Arrays.{free_array, grow, new_array};
ghost use Rattle.hy_store.specs.Allots.{Allots, Frees, Regrows, Takes, larger};
ghost use Rattle.hy_store.specs.Memory.{live, HasCells};
ghost use Rattle.hy_store.specs.Executes.{MayRunOut, StoreExecutes};
ghost use Rattle.hy_store.specs.Represents.{RepresentsSome};

use crate::arrays::{Array, room};
use crate::blocks::padded;
use crate::cell::Cell;
use crate::halt::Halt;
use crate::reach::{Reach, may_write};
use crate::store::{Store, check};
use hy_access::Range;
use hy_base::NoMemory;
use hy_object::{Fun, Kind, Place, Way};
use std::alloc::Global;

// The words of the block that an array of so many elements moves to, where its own has no room for one more.
fn larger_than(count: u64, room: u32, words: u32) -> Option<u128>
    ensures { result ≡ larger (pos count) room words }
{
    let count = u128::from(count);
    let room = u128::from(room);
    if (count + 1) * room <= u128::from(words) {
        return None;
    }
    let doubled = 2 * count * room;
    let least = 4 * room;
    Some(if least < doubled { doubled } else { least })
}

// The same of a count that may be any word; where it is below 0 there is room.
fn larger(count: i64, room: u32, words: u32) -> Option<u128>
    ensures { result ≡ larger count room words }
{
    match u64::try_from(count) {
        Ok(count) => larger_than(count, room, words),
        Err(_) => None,
    }
}

impl Store {
    // Takes a block with these cells under the next name.
    fn take_block(&mut self, cells: Vec<Cell>) -> Result<u64, NoMemory>
        ensures name { IfOk result (λ name. name ≡ self.old.counts.blocks) }
        ensures takes { OnOk result (Takes self.old self.new cells.items) }
    {
        let name = self.counts.blocks;
        if name == u64::MAX {
            return Err(NoMemory);
        }
        self.blocks.take(name, cells)?;
        self.counts.blocks = name + 1;
        Ok(name)
    }

    // Frees a block.
    fn free_block(&mut self, name: u64) -> Result<(), NoMemory>
        ensures { OnOk result (Frees self.old self.new name) }
    {
        if self.counts.freed == u64::MAX {
            return Err(NoMemory);
        }
        self.blocks.free(name);
        self.counts.freed += 1;
        Ok(())
    }

    // Takes a block with these cells for the array with those two cells.
    fn allot(&mut self, header: Reach, cells: Vec<Cell>, count: i64) -> Result<(), NoMemory>
        requires cells { HasCells (live self.old.blocks header.range.block) header.range.from header.range.len }
        requires two { header.range.len ≡ 2 }
        requires other { header.range.block < self.old.counts.blocks }
        ensures { OnOk result (Allots self.old self.new header.range cells.items count) }
    {
        let name = self.take_block(cells)?;
        self.put(header, &[Cell::Name(name), Cell::Word(count)]);
        Ok(())
    }

    // So many words of a block, from its first on.
    fn whole(block: u64, words: u32) -> Reach
        ensures range { result.range ≡ record { block = block; from = 0; len = words } }
    {
        Reach {
            range: Range {
                block,
                from: 0,
                len: words,
            },
            through: None,
        }
    }

    // Moves the cells of an array's block, which are so many words, to a larger one. The array's own two cells may be
    // among those; they are stored while their block is live.
    fn regrow(
        &mut self,
        alloc: Global,
        array: Array,
        words: u32,
        larger: u128,
    ) -> Result<(), NoMemory>
        requires cells { HasCells (live self.old.blocks array.cells.range.block) array.cells.range.from array.cells.range.len }
        requires two { array.cells.range.len ≡ 2 }
        requires other { array.cells.range.block < self.old.counts.blocks }
        requires all { HasCells (live self.old.blocks array.block) 0 words }
        requires more { words ≤ larger }
        ensures small { OnOk result (larger < 2 ^ 32) }
        ensures regrows { OnOk result (Regrows self.old self.new array.cells.range
            (record { block = array.block; from = 0; len = words }) larger array.count) }
    {
        let Ok(larger) = u32::try_from(larger) else {
            return Err(NoMemory);
        };
        let all = Store::whole(array.block, words);
        let cells = padded(alloc, self.cells(all), larger)?;
        self.allot(array.cells, cells, array.count)?;
        self.free_block(array.block)?;
        Ok(())
    }

    /// Makes an array without elements, in a new block of no words.
    pub fn new_array(&mut self, alloc: Global, fun: &Fun, place: Place) -> Result<(), Halt>
        requires { RepresentsSome self.old fun.now }
        ensures { StoreExecutes MayRunOut fun.now self.old self.new result (λ s. new_array s place) }
    {
        let x = self.reach(fun, place, 2)?;
        check(may_write(&self.opened.accesses, x), Kind::Access)?;
        check(self.is_nameless(fun, x), Kind::Lost)?;
        self.allot(x, Vec::new(alloc), 0)?;
        Ok(())
    }

    /// Frees the block of an array, in which no name is left.
    pub fn free_array(&mut self, fun: &Fun, place: Place) -> Result<(), Halt>
        requires { RepresentsSome self.old fun.now }
        ensures { StoreExecutes MayRunOut fun.now self.old self.new result (λ s. free_array s place) }
    {
        let array = self.array(fun, place, Way::Write)?;
        let all = Store::whole(array.block, self.size(fun, array.block));
        check(self.is_nameless(fun, all), Kind::Lost)?;
        self.unset(array.cells);
        self.free_block(array.block)?;
        Ok(())
    }

    /// Makes room for one more element: where there is none, all cells move to a larger block.
    pub fn grow(&mut self, alloc: Global, fun: &Fun, place: Place, width: u32) -> Result<(), Halt>
        requires { RepresentsSome self.old fun.now }
        ensures { StoreExecutes MayRunOut fun.now self.old self.new result (λ s. grow s place width) }
    {
        let array = self.array(fun, place, Way::Write)?;
        let words = self.size(fun, array.block);
        let Some(larger) = larger(array.count, room(width), words) else {
            return Ok(());
        };
        self.regrow(alloc, array, words, larger)?;
        Ok(())
    }
}

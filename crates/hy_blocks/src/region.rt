// Blocks of memory.
ghost use Rattle.std.specs.Prelude.{◌≡◌, ◌<◌, ◌≤◌, ◌+◌, ◌-◌, ◌++◌, ◌^◌, ◌∷◌, [], None, Some, length, slice_set, IfOk, OnErr, OnOk, IsSomeAnd};
ghost use Rattle.hy_blocks.specs.Blocks.{cell, unset_cells, AreApart, HasCells, IsGrown, IsLive, IsLiveAnd, IsMoved, with_cells};

use crate::raw::Raw;
use crate::table::Table;
use hy_base::NoMemory;
use std::alloc::Global;
use std::marker::Model;

/// The memory of a machine: blocks of cells, each block named by the number of blocks that were taken before it, each cell a
/// number or unset.
///
/// A clause sees the list of all blocks that were ever taken, each freed or the list of its cells. `alloc` and `grow` alone take
/// memory, and change nothing where they refuse. What is live is given back when the `Region` is dropped.
/// The calls trust their conditions: none tests that a block is live, or a cell set. `docs/MEMORY.md` says how blocks are kept.
#[derive(Drop)]
pub struct Region {
    table: Table,
    taken: u64,
    alloc: Global,
}

impl Model for Region {
    ghost use Rattle.std.specs.Prelude.{List};
    ghost use Rattle.hy_blocks.specs.Blocks.{Block};
    ghost use Rattle.hy_blocks.specs.Tables.{all, look};

    ghost Value = { List Block };

    ghost view = { λ region. all (look region.table) region.taken };
}

// A block's name is below this number.
const NAMES: u64 = 1 << 63;

impl Region {
    /// No block. No memory is taken.
    pub fn new(alloc: Global) -> Region
        ensures { result ≡ [] }
    {
        Region {
            table: Table::new(alloc),
            taken: 0,
            alloc,
        }
    }

    /// Takes a block of so many cells, all unset.
    pub fn alloc(&mut self, words: u32) -> Result<u64, NoMemory>
        ensures name { IfOk result (λ name. (name ≡ length self.old) × (name < 2 ^ 63)) }
        ensures taken { IfOk result (λ name. self.new ≡ self.old ++ Some (unset_cells words) ∷ []) }
        ensures refused { OnErr result (self.new ≡ self.old) }
    {
        let raw = self.make(words)?;
        self.put(raw)
    }

    // A block that has no name yet, if there is one for it.
    fn make(&self, words: u32) -> Result<Raw, NoMemory>
        ensures made { IfOk result (λ raw. raw ≡ unset_cells words) }
        ensures name { IfOk result (λ raw. length self.now < 2 ^ 63) }
    {
        if self.taken >= NAMES {
            return Err(NoMemory);
        }
        Ok(Raw::new(self.alloc, words)?)
    }

    // Gives a block the next name.
    fn put(&mut self, raw: Raw) -> Result<u64, NoMemory>
        requires { length self.old < 2 ^ 63 }
        ensures name { IfOk result (λ name. name ≡ length self.old) }
        ensures taken { IfOk result (λ name. self.new ≡ self.old ++ Some raw ∷ []) }
        ensures refused { OnErr result (self.new ≡ self.old) }
    {
        let name = self.taken;
        self.table.insert(name, raw)?;
        self.taken += 1;
        Ok(name)
    }

    /// Takes a block of so many cells, no fewer than a live block has, moves that one's cells to its front as they are and frees
    /// it.
    pub fn grow(&mut self, name: u64, words: u32) -> Result<u64, NoMemory>
        requires { IsLiveAnd self.old name (λ all. all ≤ words) }
        ensures name { IfOk result (λ new. (new ≡ length self.old) × (new < 2 ^ 63)) }
        ensures grown { OnOk result (IsGrown self.old self.new name words) }
        ensures refused { OnErr result (self.new ≡ self.old) }
    {
        let raw = self.make(words)?;
        let new = self.put(raw)?;
        let old = self.table.remove(name);
        self.table.fill(new, &old);
        Ok(new)
    }

    /// Frees a block.
    pub fn free(&mut self, name: u64)
        requires { IsLive self.old name }
        ensures { self.new ≡ slice_set self.old name None }
    {
        self.table.remove(name);
    }

    /// The number of cells of a block.
    pub fn words(&self, name: u64) -> u32
        requires { IsLive self.now name }
        ensures { IsLiveAnd self.now name (λ all. result ≡ all) }
    {
        self.table.words(name)
    }

    /// The number in a cell that is set.
    pub fn read(&self, name: u64, at: u32) -> i64
        requires { IsSomeAnd (cell self.now name at) (λ n. Unit {0}) }
        ensures { cell self.now name at ≡ Some result }
    {
        self.table.raw(name).read(at)
    }

    /// Stores a number in a cell.
    pub fn write(&mut self, name: u64, at: u32, value: i64)
        requires { HasCells self.old name at 1 }
        ensures { self.new ≡ with_cells self.old name (λ cells. slice_set cells at (Some value)) }
    {
        self.table.write(name, at, value);
    }

    /// Moves so many cells as they are, of one block or between two; they are unset where they were.
    pub fn move_words(&mut self, to: u64, to_at: u32, from: u64, from_at: u32, words: u32)
        requires to { HasCells self.old to to_at words }
        requires from { HasCells self.old from from_at words }
        requires apart { AreApart to to_at from from_at words }
        ensures { IsMoved self.old self.new to to_at from from_at words }
    {
        self.table.move_words(to, to_at, from, from_at, words);
    }
}

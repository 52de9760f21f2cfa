// One block of words.
ghost use Rattle.std.specs.Prelude.{◌≡◌, ◌<◌, ◌≤◌, ◌^◌, ◌++◌, ℤ, drop, length, get_or, slice_set, Some, None, IfOk};
ghost use Rattle.hy_blocks.specs.Blocks.{unset_cells};
ghost use Rattle.hy_blocks.specs.Places.{IsFilled};

use crate::memory::{Base, Cells, Deed, allocate, deallocate};
use std::alloc::{AllocError, Global};
use std::marker::Model;

/// One block of plain words in raw memory, which is not initialised when it is taken. A clause sees the list of its cells, each
/// a number or unset.
///
/// Beside the memory it keeps for each cell whether it is set, 9 bytes a cell together. Only what moves a cell that may be unset
/// looks at that: `read` stands on its condition.
pub struct Raw {
    base: Base<i64>,
    words: u32,
    cells: Cells<i64>,
    deed: Deed<i64, Global>,
    set: Vec<bool>,
    alloc: Global,
}

impl Model for Raw {
    ghost use Rattle.std.specs.Prelude.{List, Option, ℤ};
    ghost use Rattle.hy_blocks.specs.Parts.{IsBlock};

    ghost Value = { List (Option ℤ) };

    ghost view = { λ raw. raw.cells.slots };

    ghost invariant = { λ raw. IsBlock raw.base raw.words raw.cells raw.deed raw.set.items raw.alloc };
}

impl Raw {
    /// A block of so many words, none of them set.
    pub fn new(alloc: Global, words: u32) -> Result<Raw, AllocError>
        ensures { IfOk result (λ raw. raw ≡ unset_cells words) }
    {
        let set = Vec::from_elem(alloc, false, words as usize)?;
        let (base, cells, deed) = allocate(&alloc, words as usize)?;
        Ok(Raw {
            base,
            words,
            cells,
            deed,
            set,
            alloc,
        })
    }

    /// The number of its words.
    pub fn words(&self) -> u32
        ensures words { result ≡ length self.now }
        ensures small { length self.now < 2 ^ 32 }
    {
        self.words
    }

    /// The number in a cell that is set.
    pub fn read(&self, at: u32) -> i64
        requires { IsFilled self.now at }
        ensures { get_or self.now at None ≡ Some result }
    {
        *self.cells.get(self.base, at as usize)
    }

    /// Stores a number.
    pub fn write(&mut self, at: u32, value: i64)
        requires { at < length self.old }
        ensures { self.new ≡ slice_set self.old at (Some value) }
    {
        self.cells.write(self.base, at as usize, value);
        self.set[at as usize] = true;
    }

    /// Moves a cell out as it is; it is unset afterwards.
    pub fn take(&mut self, at: u32) -> Option<i64>
        requires { at < length self.old }
        ensures cell { result ≡ get_or self.old at None }
        ensures left { self.new ≡ slice_set self.old at None }
    {
        if !self.set[at as usize] {
            return None;
        }
        self.set[at as usize] = false;
        Some(self.cells.take(self.base, at as usize))
    }

    /// A cell as it is.
    pub fn cell(&self, at: u32) -> Option<i64>
        requires { at < length self.now }
        ensures { result ≡ get_or self.now at None }
    {
        if !self.set[at as usize] {
            return None;
        }
        Some(self.read(at))
    }

    /// Makes a cell what is given.
    pub fn put(&mut self, at: u32, cell: Option<i64>)
        requires { at < length self.old }
        ensures { self.new ≡ slice_set self.old at cell }
    {
        match cell {
            Some(value) => self.write(at, value),
            None => {
                self.take(at);
            }
        }
    }

    /// Makes the first cells those of another block, as they are.
    pub fn fill(&mut self, first: &Raw)
        requires { length first.now ≤ length self.old }
        ensures { self.new ≡ first.now ++ drop (length first.now) self.old }
    {
        for at in 0..first.words() {
            self.put(at, first.cell(at));
        }
    }
}

impl Drop for Raw {
    fn drop(self) {
        let Raw {
            base,
            words,
            cells,
            deed,
            set: _,
            alloc,
        } = self;
        deallocate(&alloc, base, words as usize, cells, deed);
    }
}

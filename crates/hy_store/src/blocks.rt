// The blocks that are live.
ghost use Rattle.std.specs.Prelude.{◌≡◌, ◌+◌, ◌-◌, ◌≤◌, ◌++◌, ℕ, None, Some, length, replicate, IfOk, OnErr, OnOk, IsSomeAnd, is_some};
ghost use Rattle.std.specs.Option.{option_map};
ghost use Rattle.hy_store.specs.Cells.{Unset, with_window};
ghost use Rattle.hy_store.specs.Memory.{Becomes, HasCells, is_at_hand, live, with_block};

use crate::cell::{Cell, put, unset};
use hy_base::NoMemory;
use std::alloc::Global;
use std::collections::HashMap;
use std::mem;

/// The live blocks of memory by their names. A block that is freed leaves the table, and gives its memory back.
///
/// The cells of one block may be at hand: those are found with no look at the table, where other cells stand in for them.
/// A contract sees for each name the cells of its block, or none where no block of that name is live. Memory is taken by
/// `take` alone, which changes nothing where it refuses.
#[derive(Drop)]
pub struct Blocks {
    live: HashMap<u64, Vec<Cell>>,
    at_hand: Option<u64>,
    cells: Vec<Cell>,
}

fn is_at_hand(at_hand: Option<u64>, name: u64) -> bool
    ensures { result ≡ is_at_hand at_hand name }
{
    match at_hand {
        Some(one) => one == name,
        None => false,
    }
}

/// These cells, and unset ones after them up to so many words.
pub fn padded(alloc: Global, first: &[Cell], words: u32) -> Result<Vec<Cell>, NoMemory>
    requires { length first.now ≤ words }
    ensures { IfOk result (λ cells. cells.items ≡ first.now ++ replicate (words - length first.now) Unset) }
{
    let mut cells = first.to_vec(alloc)?;
    for _ in 0..words as usize - first.len() {
        cells.push(Cell::Unset)?;
    }
    Ok(cells)
}

impl Blocks {
    /// No block. No memory is taken.
    pub fn new(alloc: Global) -> Blocks
        ensures { (name : ℕ) → live result name ≡ None }
    {
        Blocks {
            live: HashMap::new(alloc),
            at_hand: None,
            cells: Vec::new(alloc),
        }
    }

    /// The cells of a block, where it is live.
    pub fn cells(&self, name: u64) -> Option<&[Cell]>
        ensures { option_map (λ cells. cells.now) result ≡ live self.now name }
    {
        if is_at_hand(self.at_hand, name) {
            return Some(self.cells.as_slice());
        }
        match self.live.get(&name) {
            Some(cells) => Some(cells.as_slice()),
            None => None,
        }
    }

    /// Whether a block is live.
    pub fn is_live(&self, name: u64) -> bool
        ensures { result ≡ is_some (live self.now name) }
    {
        is_at_hand(self.at_hand, name) || self.live.contains_key(&name)
    }

    /// Stores these cells in a live block from that place on.
    pub fn put(&mut self, name: u64, from: u32, new: &[Cell])
        requires { HasCells (live self.old name) from (length new.now) }
        ensures { Becomes (live self.old) (live self.new) name (λ cells. with_window cells from new.now) }
    {
        if is_at_hand(self.at_hand, name) {
            put(&mut self.cells, from, new);
        } else if let Some(cells) = self.live.get_mut(&name) {
            put(cells, from, new);
        }
    }

    /// Unsets so many cells of a live block from that place on.
    pub fn unset(&mut self, name: u64, from: u32, words: u32)
        requires { HasCells (live self.old name) from words }
        ensures { Becomes (live self.old) (live self.new) name (λ cells. with_window cells from (replicate words Unset)) }
    {
        if is_at_hand(self.at_hand, name) {
            unset(&mut self.cells, from, words);
        } else if let Some(cells) = self.live.get_mut(&name) {
            unset(cells, from, words);
        }
    }

    /// Takes a block with these cells. It fails only out of memory, and then nothing has changed.
    pub fn take(&mut self, name: u64, cells: Vec<Cell>) -> Result<(), NoMemory>
        ensures taken { OnOk result ((other : ℕ) → live self.new other ≡ with_block (live self.old) name (Some (cells.items)) other) }
        ensures refused { OnErr result ((other : ℕ) → live self.new other ≡ live self.old other) }
    {
        self.live.insert(name, cells)?;
        if is_at_hand(self.at_hand, name) {
            self.at_hand = None;
        }
        Ok(())
    }

    /// Frees a block, where it is live.
    pub fn free(&mut self, name: u64)
        ensures { (other : ℕ) → live self.new other ≡ with_block (live self.old) name None other }
    {
        let removed = self.live.remove(&name);
        if is_at_hand(self.at_hand, name) {
            self.at_hand = None;
            if let Some(stand_in) = removed {
                self.cells = stand_in;
            }
        }
    }

    /// Brings the cells of a block to hand, where it is live. What is live stays.
    pub fn bring(&mut self, name: u64)
        ensures { (other : ℕ) → live self.new other ≡ live self.old other }
    {
        if !is_at_hand(self.at_hand, name) {
            self.put_back();
            self.take_up(name);
        }
    }

    // Puts the cells at hand back into the table.
    fn put_back(&mut self)
        ensures { (other : ℕ) → live self.new other ≡ live self.old other }
    {
        if let Some(name) = self.at_hand {
            if let Some(cells) = self.live.get_mut(&name) {
                mem::swap(cells, &mut self.cells);
                self.at_hand = None;
            }
        }
    }

    // Takes the cells of a block out of the table, unless others are at hand.
    fn take_up(&mut self, name: u64)
        ensures { (other : ℕ) → live self.new other ≡ live self.old other }
    {
        if let None = self.at_hand {
            if let Some(cells) = self.live.get_mut(&name) {
                mem::swap(cells, &mut self.cells);
                self.at_hand = Some(name);
            }
        }
    }
}

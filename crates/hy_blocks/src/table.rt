// The blocks that are live, by their names.
ghost use Rattle.std.specs.Prelude.{◌≡◌, ◌<◌, ◌≤◌, ◌+◌, ◌^◌, ◌++◌, None, Some, ℕ, drop, length, get_or, slice_set, nat_eq, IfOk, OnErr, OnOk, IsSomeAnd};
ghost use Rattle.std.specs.HashMap.{get};
ghost use Rattle.slab.specs.Slab.{get as slot};
ghost use Rattle.hy_blocks.specs.Blocks.{AreApart, Moves};
ghost use Rattle.hy_blocks.specs.Tables.{look, Becomes, Same};

use crate::raw::Raw;
use hy_base::NoMemory;
use slab::Slab;
use std::alloc::Global;
use std::collections::HashMap;

/// A live block, and its name.
#[derive(Drop)]
pub struct Kept {
    pub name: u64,
    pub raw: Raw,
}

/// The live blocks in slots, and where the one of a name is. A block that is freed leaves both.
#[derive(Drop)]
pub struct Table {
    places: HashMap<u64, usize>,
    slots: Slab<Kept>,
}

impl Table {
    pub fn new(alloc: Global) -> Table
        ensures { (name : ℕ) → look result name ≡ None }
    {
        Table {
            places: HashMap::new(alloc),
            slots: Slab::new(alloc),
        }
    }

    // The slot of a live block.
    fn find(&self, name: u64) -> usize
        requires { IsSomeAnd (look self.now name) (λ cells. Unit {0}) }
        ensures place { get nat_eq self.now.places name ≡ Some result }
        ensures kept { IsSomeAnd (slot self.now.slots result) (λ kept. (kept.name ≡ name) × (look self.now name ≡ Some kept.raw)) }
    {
        match self.places.get(&name) {
            Some(place) => *place,
            None => unreachable!(),
        }
    }

    /// A live block.
    pub fn raw(&self, name: u64) -> &Raw
        requires { IsSomeAnd (look self.now name) (λ cells. Unit {0}) }
        ensures { look self.now name ≡ Some result.now }
    {
        &self.slots[self.find(name)].raw
    }

    /// The number of cells of a live block.
    pub fn words(&self, name: u64) -> u32
        requires { IsSomeAnd (look self.now name) (λ cells. Unit {0}) }
        ensures { IsSomeAnd (look self.now name) (λ cells. (result ≡ length cells) × (length cells < 2 ^ 32)) }
    {
        self.raw(name).words()
    }

    /// Stores a number in a cell of a live block.
    pub fn write(&mut self, name: u64, at: u32, value: i64)
        requires { IsSomeAnd (look self.old name) (λ cells. at < length cells) }
        ensures { IsSomeAnd (look self.old name) (λ cells. Becomes (look self.old) (look self.new) name (Some (slice_set cells at (Some value)))) }
    {
        let place = self.find(name);
        self.slots[place].raw.write(at, value);
    }

    /// Moves a cell of a live block out as it is; it is unset afterwards.
    pub fn take(&mut self, name: u64, at: u32) -> Option<i64>
        requires { IsSomeAnd (look self.old name) (λ cells. at < length cells) }
        ensures cell { IsSomeAnd (look self.old name) (λ cells. result ≡ get_or cells at None) }
        ensures left { IsSomeAnd (look self.old name) (λ cells. Becomes (look self.old) (look self.new) name (Some (slice_set cells at None))) }
    {
        let place = self.find(name);
        self.slots[place].raw.take(at)
    }

    /// Makes a cell of a live block what is given.
    pub fn put(&mut self, name: u64, at: u32, cell: Option<i64>)
        requires { IsSomeAnd (look self.old name) (λ cells. at < length cells) }
        ensures { IsSomeAnd (look self.old name) (λ cells. Becomes (look self.old) (look self.new) name (Some (slice_set cells at cell))) }
    {
        let place = self.find(name);
        self.slots[place].raw.put(at, cell);
    }

    /// Makes the first cells of a live block those of another one.
    pub fn fill(&mut self, name: u64, first: &Raw)
        requires { IsSomeAnd (look self.old name) (λ cells. length first.now ≤ length cells) }
        ensures { IsSomeAnd (look self.old name) (λ cells. Becomes (look self.old) (look self.new) name (Some (first.now ++ drop (length first.now) cells))) }
    {
        let place = self.find(name);
        self.slots[place].raw.fill(first);
    }

    /// Moves so many cells as they are, of one live block or between two.
    pub fn move_words(&mut self, to: u64, to_at: u32, from: u64, from_at: u32, words: u32)
        requires to { IsSomeAnd (look self.old to) (λ cells. to_at + words ≤ length cells) }
        requires from { IsSomeAnd (look self.old from) (λ cells. from_at + words ≤ length cells) }
        requires apart { AreApart to to_at from from_at words }
        ensures { Moves (look self.old) (look self.new) to to_at from from_at words }
    {
        // What a block holds is counted by a `u32`, so no place below goes past one.
        let _ends = (self.words(to), self.words(from));
        for i in 0..words {
            let moved = self.take(from, from_at + i);
            self.put(to, to_at + i, moved);
        }
    }

    /// Puts a block in under a name.
    pub fn insert(&mut self, name: u64, raw: Raw) -> Result<(), NoMemory>
        ensures put { OnOk result (Becomes (look self.old) (look self.new) name (Some raw)) }
        ensures refused { OnErr result (Same (look self.old) (look self.new)) }
    {
        self.slots.reserve(1)?;
        let place = self.slots.vacant_key();
        self.places.insert(name, place)?;
        self.slots.insert_reserved(Kept { name, raw });
        Ok(())
    }

    /// Takes a live block out.
    pub fn remove(&mut self, name: u64) -> Raw
        requires { IsSomeAnd (look self.old name) (λ cells. Unit {0}) }
        ensures block { look self.old name ≡ Some result }
        ensures left { Becomes (look self.old) (look self.new) name None }
    {
        let place = self.find(name);
        self.places.remove(&name);
        self.slots.remove(place).raw
    }
}

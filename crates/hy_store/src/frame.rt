// What the running and the waiting activations have beside their cells.
ghost use Rattle.std.specs.Prelude.{◌≡◌, ◌<◌, ℕ, None, Some, length, slice_get, OnErr, OnOk, IsSome, IsSomeAnd};
ghost use Rattle.std.specs.Option.{option_map};
ghost use Rattle.hy_store.specs.Frames.{held_at, kept, slot_in, slots_at, role_at, abstract_frame, with_frame, with_role, with_slot, Changes};

use hy_base::NoMemory;
use std::alloc::Global;
use std::collections::HashMap;

/// What a slot of an activation holds; an access is known by its name, the number of those opened before it.
#[derive(Clone, Copy, Debug, PartialEq, Eq)]
pub enum Slot {
    Empty,
    /// An access that the caller gave when the activation started.
    Given(u64),
    /// One that the activation opened itself.
    Filled(u64),
    /// One that the subscript with that frame handed out by its yield.
    Yielded(u64, u64),
}

/// What an activation hands to its caller.
#[derive(Clone, Copy, Debug, PartialEq, Eq)]
pub enum Role {
    /// A result, to the caller's words from that one on.
    Called(u32),
    /// An access, to that slot of the caller: a subscript before its yield.
    Projected(u32),
    /// Nothing: a subscript after its yield.
    Sliding,
}

/// The slots and the role of an activation.
#[derive(Drop)]
pub struct Frame {
    pub slots: Vec<Slot>,
    pub role: Role,
}

/// The slots and roles of all live activations, by the names of the blocks that are their frames.
///
/// A contract sees for each name what is kept of the activation, or nothing. Memory is taken by `take` alone, which changes
/// nothing where it refuses.
#[derive(Drop)]
pub struct Frames {
    live: HashMap<u64, Frame>,
}

fn held_at(slots: &[Slot], slot: u32) -> Slot
    ensures { result ≡ held_at (slice_get slots.now slot) }
{
    match slots.get(slot as usize) {
        Some(held) => *held,
        None => Slot::Empty,
    }
}

impl Frames {
    /// No activation. No memory is taken.
    pub fn new(alloc: Global) -> Frames
        ensures { (name : ℕ) → kept result name ≡ None }
    {
        Frames {
            live: HashMap::new(alloc),
        }
    }

    /// The slots of an activation.
    pub fn slots(&self, frame: u64) -> Option<&[Slot]>
        ensures { option_map (λ slots. slots.now) result ≡ slots_at (kept self.now frame) }
    {
        match self.live.get(&frame) {
            Some(one) => Some(one.slots.as_slice()),
            None => None,
        }
    }

    /// What a slot of an activation holds; one that does not exist is empty.
    pub fn slot(&self, frame: u64, slot: u32) -> Slot
        ensures { result ≡ slot_in (kept self.now frame) slot }
    {
        match self.live.get(&frame) {
            Some(one) => held_at(one.slots.as_slice(), slot),
            None => Slot::Empty,
        }
    }

    /// What an activation hands to its caller.
    pub fn role(&self, frame: u64) -> Option<Role>
        ensures { result ≡ role_at (kept self.now frame) }
    {
        match self.live.get(&frame) {
            Some(one) => Some(one.role),
            None => None,
        }
    }

    /// Fills a slot, or empties it.
    pub fn set_slot(&mut self, frame: u64, slot: u32, held: Slot)
        requires { IsSomeAnd (kept self.old frame) (λ one. slot < length one.slots) }
        ensures { Changes (kept self.old) (kept self.new) frame (with_slot slot held) }
    {
        if let Some(one) = self.live.get_mut(&frame) {
            one.slots[slot as usize] = held;
        }
    }

    /// Changes what an activation hands to its caller.
    pub fn set_role(&mut self, frame: u64, role: Role)
        requires { IsSome (kept self.old frame) }
        ensures { Changes (kept self.old) (kept self.new) frame (with_role role) }
    {
        if let Some(one) = self.live.get_mut(&frame) {
            one.role = role;
        }
    }

    /// Keeps what a new activation has. It fails only out of memory, and then nothing has changed.
    pub fn take(&mut self, frame: u64, one: Frame) -> Result<(), NoMemory>
        ensures taken { OnOk result ((other : ℕ) → kept self.new other ≡ with_frame (kept self.old) frame (Some (abstract_frame one)) other) }
        ensures refused { OnErr result ((other : ℕ) → kept self.new other ≡ kept self.old other) }
    {
        self.live.insert(frame, one)?;
        Ok(())
    }

    /// Forgets an activation.
    pub fn free(&mut self, frame: u64)
        ensures { (other : ℕ) → kept self.new other ≡ with_frame (kept self.old) frame None other }
    {
        let _ = self.live.remove(&frame);
    }
}

// Activations in slots, each with the indices of those before and after it in order of start. A slot that is given back
// goes into the list of free slots that `Slab` keeps.
ghost use Rattle.std.specs.Prelude.{◌≡◌, IfOk, OnErr};
ghost use Rattle.slab.specs.Slab.{ContainsKey};
ghost use Rattle.hy_links.specs.Linked.{Changes};
ghost use Rattle.hy_frames.specs.Slots.{with_before, with_after, IsFilled, IsEmptied};

use crate::Standing;
use hy_base::NoMemory;
use hy_links::Links;
use slab::Slab;

/// An activation and its neighbours.
#[derive(Clone, Copy)]
pub struct Slot {
    pub links: Links,
    pub function: u32,
    pub frame: u64,
    pub code_place: u32,
    pub standing: Standing,
}

// Sets which activation is before the one at `at`, if there is one.
fn set_before(slots: &mut Slab<Slot>, at: Option<u32>, before: Option<u32>)
    ensures { Changes slots.old slots.new at (with_before before) }
{
    if let Some(index) = at
        && let Some(slot) = slots.get_mut(index as usize)
    {
        slot.links.before = before;
    }
}

// Sets which activation is after the one at `at`, if there is one.
fn set_after(slots: &mut Slab<Slot>, at: Option<u32>, after: Option<u32>)
    ensures { Changes slots.old slots.new at (with_after after) }
{
    if let Some(index) = at
        && let Some(slot) = slots.get_mut(index as usize)
    {
        slot.links.after = after;
    }
}

// The index that the next slot to be filled has, as long as it is one of 32 bits.
fn next_index(slots: &Slab<Slot>) -> Result<u32, NoMemory>
    ensures { IfOk result (λ index. index ≡ slots.now.vacant_key) }
{
    match u32::try_from(slots.vacant_key()) {
        Ok(index) => Ok(index),
        Err(_) => Err(NoMemory),
    }
}

/// Fills a slot, links the newest until now, which is the one before it, to it, and gives its index. A refusal changes no slot.
pub fn push(slots: &mut Slab<Slot>, slot: Slot) -> Result<u32, NoMemory>
    ensures filled { IfOk result (λ index. IsFilled slots.old slots.new slot index) }
    ensures refused { OnErr result (slots.new.slots ≡ slots.old.slots) }
{
    let index = next_index(slots)?;
    slots.insert(slot)?;
    set_after(slots, slot.links.before, Some(index));
    Ok(index)
}

/// Gives a slot back, joins its two neighbours, and says what was in it.
pub fn unlink(slots: &mut Slab<Slot>, index: u32) -> Slot
    requires { ContainsKey slots.old index }
    ensures { IsEmptied slots.old slots.new result index }
{
    let slot = slots.remove(index as usize);
    set_after(slots, slot.links.before, slot.links.after);
    set_before(slots, slot.links.after, slot.links.before);
    slot
}

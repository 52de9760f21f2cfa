// Accesses in slots, linked in the order in which they were lent. Each also has the indices of its youngest child and of
// its two neighbours among the children of its parent. A slot that is given back goes into the list of free slots that
// `Slab` keeps.
ghost use Rattle.std.specs.Prelude.{◌≡◌, Some, None, IfOk, OnErr};
ghost use Rattle.slab.specs.Slab.{ContainsKey};
ghost use Rattle.hy_links.specs.Linked.{Changes};
ghost use Rattle.hy_access.specs.Forest.{slot_of_id, first_of_parent, with_before, with_after, with_older, with_younger, with_child, IsLent, IsClosed};

use crate::{AccId, Range, Way};
use hy_base::NoMemory;
use hy_links::Links;
use slab::Slab;

/// An access and its neighbours.
#[derive(Clone, Copy)]
pub struct Slot {
    pub links: Links,
    pub siblings: Links,
    pub child: Option<u32>,
    pub own: Range,
    pub header: Option<Range>,
    pub way: Way,
    pub parent: Option<AccId>,
}

// Sets which access was lent before the one at `at`, if there is one.
fn set_before(slots: &mut Slab<Slot>, at: Option<u32>, before: Option<u32>)
    ensures { Changes slots.old slots.new at (with_before before) }
{
    if let Some(index) = at
        && let Some(slot) = slots.get_mut(index as usize)
    {
        slot.links.before = before;
    }
}

// Sets which access was lent after the one at `at`, if there is one.
fn set_after(slots: &mut Slab<Slot>, at: Option<u32>, after: Option<u32>)
    ensures { Changes slots.old slots.new at (with_after after) }
{
    if let Some(index) = at
        && let Some(slot) = slots.get_mut(index as usize)
    {
        slot.links.after = after;
    }
}

// Sets the next older sibling of the access at `at`, if there is one.
fn set_older(slots: &mut Slab<Slot>, at: Option<u32>, older: Option<u32>)
    ensures { Changes slots.old slots.new at (with_older older) }
{
    if let Some(index) = at
        && let Some(slot) = slots.get_mut(index as usize)
    {
        slot.siblings.before = older;
    }
}

// Sets the next younger sibling of the access at `at`, if there is one.
fn set_younger(slots: &mut Slab<Slot>, at: Option<u32>, younger: Option<u32>)
    ensures { Changes slots.old slots.new at (with_younger younger) }
{
    if let Some(index) = at
        && let Some(slot) = slots.get_mut(index as usize)
    {
        slot.siblings.after = younger;
    }
}

// Sets the youngest child of the access at `at`, if there is one.
fn set_child(slots: &mut Slab<Slot>, at: Option<u32>, child: Option<u32>)
    ensures { Changes slots.old slots.new at (with_child child) }
{
    if let Some(index) = at
        && let Some(slot) = slots.get_mut(index as usize)
    {
        slot.child = child;
    }
}

/// The index of the slot of an access that is given.
pub fn place(id: Option<AccId>) -> Option<u32>
    ensures { result ≡ slot_of_id id }
{
    match id {
        Some(id) => Some(id.slot),
        None => None,
    }
}

// The index that the next slot to be filled has, as long as it is one of 32 bits.
fn next_index(slots: &Slab<Slot>) -> Result<u32, NoMemory>
    ensures { IfOk result (λ index. index ≡ slots.now.vacant_key) }
{
    match u32::try_from(slots.vacant_key()) {
        Ok(index) => Ok(index),
        Err(_) => Err(NoMemory),
    }
}

/// Fills a slot, and links its neighbours and its parent to it. A refusal changes no slot.
pub fn push(slots: &mut Slab<Slot>, slot: Slot) -> Result<u32, NoMemory>
    ensures pushed { IfOk result (λ index. IsLent slots.old slots.new slot index) }
    ensures refused { OnErr result (slots.new.slots ≡ slots.old.slots) }
{
    let index = next_index(slots)?;
    slots.insert(slot)?;
    set_after(slots, slot.links.before, Some(index));
    set_younger(slots, slot.siblings.before, Some(index));
    set_child(slots, place(slot.parent), Some(index));
    Ok(index)
}

// The parent whose youngest child this one is.
fn parent_of_youngest(slot: &Slot) -> Option<u32>
    ensures { result ≡ first_of_parent slot.now }
{
    match slot.siblings.after {
        None => place(slot.parent),
        Some(_) => None,
    }
}

/// Gives a slot back, joins its neighbours, and says what was in it.
pub fn unlink(slots: &mut Slab<Slot>, index: u32) -> Slot
    requires { ContainsKey slots.old index }
    ensures { IsClosed slots.old slots.new result index }
{
    let slot = slots.remove(index as usize);
    set_after(slots, slot.links.before, slot.links.after);
    set_before(slots, slot.links.after, slot.links.before);
    set_younger(slots, slot.siblings.before, slot.siblings.after);
    set_older(slots, slot.siblings.after, slot.siblings.before);
    set_child(slots, parent_of_youngest(&slot), slot.siblings.before);
    slot
}

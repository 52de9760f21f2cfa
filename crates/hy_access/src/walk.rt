// The walk over all live accesses that says whether a range may be used.
ghost use Rattle.std.specs.Prelude.{◌↔◌, ◌≡◌, IsTrue, Some};
ghost use Rattle.hy_access.specs.Accesses.{Meets};
ghost use Rattle.hy_access.specs.Forest.{order, slot_of_id, parent_at};
ghost use Rattle.hy_links.specs.Linked.{newest_first};
ghost use Rattle.hy_access.specs.Clear.{MeetsSlot, Forbids, ForbidsAt, Clear};

use crate::slots::{Slot, place};
use crate::{AccId, Range, Way};
use slab::Slab;

// Whether an access meets a range, by its own or by its header range.
fn meets(slot: &Slot, range: &Range) -> bool
    ensures { IsTrue result ↔ MeetsSlot range.now slot.now }
{
    if range.meets(&slot.own) {
        return true;
    }
    match &slot.header {
        Some(header) => range.meets(header),
        None => false,
    }
}

// Whether this access conflicts with a use of the range.
fn forbids(slot: &Slot, range: &Range, way: Way) -> bool
    ensures { IsTrue result ↔ Forbids way range.now slot.now }
{
    match way {
        Way::Read => match slot.way {
            Way::Read => false,
            Way::Write => meets(slot, range),
        },
        Way::Write => meets(slot, range),
    }
}

// Whether this is the next of the access through which the range is used, and its ancestors.
fn is_next(up: Option<u32>, index: u32) -> bool
    ensures { IsTrue result ↔ (up ≡ Some index) }
{
    match up {
        Some(next) => next == index,
        None => false,
    }
}

/// Whether no live access conflicts with the use, except the one through which the range is used, and its ancestors. It goes
/// over all that are live, from the newest back, and so meets each child before its parent.
pub fn is_clear(
    slots: &Slab<Slot>,
    newest: Option<u32>,
    range: &Range,
    through: Option<AccId>,
    way: Way,
) -> bool
    ensures { IsTrue result ↔ Clear (ForbidsAt slots.now way range.now) (parent_at slots.now) (slot_of_id through) (newest_first order slots.now newest) }
{
    let mut at = newest;
    let mut up = place(through);
    for _ in 0..slots.len() {
        let Some(index) = at else {
            return true;
        };
        let Some(slot) = slots.get(index as usize) else {
            return true;
        };
        if is_next(up, index) {
            up = place(slot.parent);
        } else if forbids(slot, range, way) {
            return false;
        }
        at = slot.links.before;
    }
    true
}

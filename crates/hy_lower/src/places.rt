// Places of a body: how they are reached.
ghost use Rattle.std.specs.Prelude.{◌≡◌, ◌++◌, ◌∷◌, [], map, suc, IfOk, OnOk, slice_get};
ghost use Rattle.hy_core.specs.Denotes.{place_of, step_of};
ghost use Rattle.hy_lower.specs.Denotes.{frame};
ghost use Rattle.hy_core.specs.Statements.{is_counted};
ghost use Rattle.hy_lower.specs.Frames.{home_of, indexes, on_the_way, word_of};
ghost use Rattle.hy_lower.specs.Places.{closes, element_at, element_size, line_for, opens, own, part_after, part_at, place, form_at};
ghost use Rattle.hy_lower.specs.Segments.{shown_as};
ghost use Rattle.hy_lower.specs.Places.{place_at, place_size, reached, rest, size_at, slot_now, type_of, type_step};

use crate::body::{Body, Home, Line};
use crate::numbers::{element_of, part_of, parts_of, plus, shown_as, size_of, words_before};
use hy_base::NoMemory;
use hy_core::{CorePlace, CoreStep};
use hy_object::{Instr, Place, Shown, Way};
use hy_types::TyId;
use sqlite_items::Items;

/// Words of the own frame.
pub(crate) fn own(word: u32) -> Place
    ensures { result ≡ own word }
{
    Place {
        base: 0,
        offset: word,
    }
}

/// Where a local stands.
pub(crate) fn home_of(body: &Body, local: u32) -> Home
    ensures { result ≡ home_of (frame body.now) local }
{
    body.homes
        .as_slice()
        .get(local as usize)
        .copied()
        .unwrap_or(Home::Words(0))
}

/// The first word of a local that stands in words.
pub(crate) fn word_of(body: &Body, local: u32) -> u32
    ensures { result ≡ word_of (frame body.now) local }
{
    match home_of(body, local) {
        Home::Words(word) => word,
        Home::Slot {
            slot: _,
            first: _,
            count: _,
        } => 0,
    }
}

/// The place of a local that stands there.
pub(crate) fn place_at(home: Home) -> Result<Place, NoMemory>
    ensures { IfOk result (λ x. x ≡ place_at home) }
{
    match home {
        Home::Words(word) => Ok(own(word)),
        Home::Slot {
            slot,
            first: _,
            count: _,
        } => within(slot),
    }
}

// The first words of the access in a slot.
fn within(slot: u32) -> Result<Place, NoMemory>
    ensures { IfOk result (λ x. x ≡ place (suc slot) 0) }
{
    let base = plus(slot, 1)?;
    Ok(Place { base, offset: 0 })
}

// The slot of the next access.
fn slot_now(line: Line) -> u32
    ensures { result ≡ slot_now line.next line.left line.last }
{
    if line.left == 0 { line.last } else { line.next }
}

// The line after it.
fn rest(line: Line) -> Result<Line, NoMemory>
    ensures { IfOk result (λ x. x ≡ rest line) }
{
    if line.left == 0 {
        return Ok(line);
    }
    let next = plus(line.next, 1)?;
    Ok(Line {
        next,
        left: line.left - 1,
        last: line.last,
    })
}

// TYPES

fn part_at(body: &Body, t: Option<TyId>, part: u32) -> Option<TyId>
    ensures { result ≡ part_at (frame body.now) t part }
{
    match t {
        None => None,
        Some(t) => part_of(body.types, t, part),
    }
}

fn element_at(body: &Body, t: Option<TyId>) -> Option<TyId>
    ensures { result ≡ element_at (frame body.now) t }
{
    match t {
        None => None,
        Some(t) => element_of(body.types, t),
    }
}

fn size_at(body: &Body, t: Option<TyId>) -> u32
    ensures { result ≡ size_at (frame body.now) t }
{
    match t {
        None => 0,
        Some(t) => size_of(body.sizes, t),
    }
}

/// What a value of the type is printed as.
pub(crate) fn shown_at(body: &Body, t: Option<TyId>) -> Shown
    ensures { result ≡ shown_as (form_at (frame body.now) t) }
{
    match t {
        None => Shown::Int,
        Some(t) => shown_as(body.types, t),
    }
}

// The type after one step.
fn type_step(body: &Body, t: Option<TyId>, step: CoreStep) -> Option<TyId>
    ensures { result ≡ type_step (frame body.now) t (step_of step) }
{
    match step {
        CoreStep::Part(part) => part_at(body, t, part),
        CoreStep::Index(_, _) => element_at(body, t),
    }
}

// The type of a local.
fn local_type(body: &Body, local: u32) -> Option<TyId>
    ensures { result ≡ slice_get body.now.locals local }
{
    body.locals.as_slice().get(local as usize).copied()
}

/// The type of what stands at a place.
pub(crate) fn type_of(body: &Body, place: &CorePlace) -> Option<TyId>
    ensures { result ≡ type_of (frame body.now) (place_of place.now) }
{
    let mut t = local_type(body, place.local);
    let mut left = place.steps.as_slice();
    while let Some((step, more)) = left.split_first() {
        t = type_step(body, t, *step);
        left = more;
    }
    t
}

/// The words of what stands at a place.
pub(crate) fn place_size(body: &Body, place: &CorePlace) -> u32
    ensures { result ≡ place_size (frame body.now) (place_of place.now) }
{
    size_at(body, type_of(body, place))
}

/// The words of an element of the array that stands at a place.
pub(crate) fn element_size(body: &Body, place: &CorePlace) -> u32
    ensures { result ≡ element_size (frame body.now) (place_of place.now) }
{
    size_at(body, element_at(body, type_of(body, place)))
}

/// The number of index steps.
pub(crate) fn indexes(steps: &[CoreStep]) -> Result<u32, NoMemory>
    ensures { IfOk result (λ n. n ≡ indexes (map step_of steps.now)) }
{
    let mut count = 0u32;
    let mut left = steps;
    while let Some((step, more)) = left.split_first() {
        if let CoreStep::Index(_, _) = step {
            count = plus(count, 1)?;
        }
        left = more;
    }
    Ok(count)
}

/// Whether a place does not end in an index step.
pub(crate) fn is_counted(steps: &[CoreStep]) -> bool
    ensures { result ≡ is_counted (map step_of steps.now) }
{
    let mut left = steps;
    while let Some((step, more)) = left.split_first() {
        if more.is_empty() {
            return is_part(*step);
        }
        left = more;
    }
    true
}

fn is_part(step: CoreStep) -> bool
    ensures { result ≡ is_counted (step_of step ∷ []) }
{
    match step {
        CoreStep::Part(_) => true,
        CoreStep::Index(_, _) => false,
    }
}

/// The number of accesses that a `Lend` of the place opens on the way to it.
pub(crate) fn on_the_way(steps: &[CoreStep]) -> Result<u32, NoMemory>
    ensures { IfOk result (λ n. n ≡ on_the_way (map step_of steps.now)) }
{
    let count = indexes(steps)?;
    if is_counted(steps) {
        Ok(count)
    } else {
        Ok(count.saturating_sub(1))
    }
}

// OPENING AND CLOSING

// The place of a part.
fn part_after(body: &Body, t: Option<TyId>, part: u32, at: Place) -> Result<Place, NoMemory>
    ensures { IfOk result (λ x. x ≡ part_after (frame body.now) t part at) }
{
    let before = match t {
        None => 0,
        Some(t) => words_before(body.sizes, parts_of(body.types, t), part)?,
    };
    let offset = plus(at.offset, before)?;
    Ok(Place {
        base: at.base,
        offset,
    })
}

/// The slots for the accesses that a statement opens itself.
pub(crate) fn line_for(body: &Body, place: &CorePlace) -> Result<Line, NoMemory>
    ensures { IfOk result (λ line. line ≡ line_for (frame body.now) (place_of place.now)) }
{
    let left = indexes(place.steps.as_slice())?;
    Ok(Line {
        next: body.slot,
        left,
        last: 0,
    })
}

/// Opens the accesses on the way to a place, and gives where it then is.
pub(crate) fn open(
    body: &Body,
    way: Way,
    line: Line,
    place: &CorePlace,
    code: &mut Items<Instr>,
) -> Result<Place, NoMemory>
    ensures code { OnOk result (code.new ≡ code.old ++ opens (frame body.now) way line (place_of place.now)) }
    ensures place { IfOk result (λ x. x ≡ reached (frame body.now) line (place_of place.now)) }
{
    let mut t = local_type(body, place.local);
    let mut at = place_at(home_of(body, place.local))?;
    let mut line = line;
    let mut left = place.steps.as_slice();
    while let Some((step, more)) = left.split_first() {
        match step {
            CoreStep::Part(part) => {
                at = part_after(body, t, *part, at)?;
                t = part_at(body, t, *part);
            }
            CoreStep::Index(local, span) => {
                let slot = slot_now(line);
                let element = element_at(body, t);
                let instr = Instr::Elem {
                    slot,
                    array: at,
                    index: word_of(body, *local),
                    width: size_at(body, element),
                    way,
                    span: *span,
                };
                code.push(instr)?;
                at = within(slot)?;
                t = element;
                line = rest(line)?;
            }
        }
        left = more;
    }
    Ok(at)
}

/// Closes the accesses in so many slots from one on, the last first.
pub(crate) fn close(first: u32, count: u32, code: &mut Items<Instr>) -> Result<(), NoMemory>
    ensures { OnOk result (code.new ≡ code.old ++ closes first count) }
{
    let mut left = count;
    while left > 0 {
        left -= 1;
        let slot = plus(first, left)?;
        code.push(Instr::Close { slot })?;
    }
    Ok(())
}

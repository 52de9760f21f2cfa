// The segments of statements.
ghost use Rattle.std.specs.Prelude.{◌≡◌, ◌+◌, ◌++◌, map, IfOk, OnOk};
ghost use Rattle.std.specs.Option.{option_map};
ghost use Rattle.hy_core.specs.Denotes.{op_of, place_of};
ghost use Rattle.hy_lower.specs.Denotes.{frame};
ghost use Rattle.hy_lower.specs.Frames.{slot_of};
ghost use Rattle.hy_lower.specs.Frames.{indexes};
ghost use Rattle.hy_lower.specs.Places.{at, closes, line_for, opens};
ghost use Rattle.hy_lower.specs.Segments.{built, call, close, computes, constant, copy, count, drop, first_form, first_slot, last};
ghost use Rattle.hy_lower.specs.Segments.{free_array, frees, lend, lend_to, loads, leave, move, moves, new_array, pop, project};
ghost use Rattle.hy_lower.specs.Segments.{push, read, scalar, set, shown_as, span_at, stores, swap, take, test, way_of, write};

use crate::arrays::arrays_in;
use crate::body::{Body, Home, Line};
use crate::numbers::plus;
use crate::places::{
    close, element_size, home_of, indexes, is_counted, line_for, on_the_way, open, own, place_at,
    place_size, shown_at, type_of,
};
use hy_base::NoMemory;
use hy_core::{CoreOp, CorePlace};
use hy_object::{Instr, Place, Shown, Way};
use sqlite_items::Items;

// Opens a place for as long as a statement lasts.
fn open_own(
    body: &Body,
    way: Way,
    place: &CorePlace,
    code: &mut Items<Instr>,
) -> Result<Place, NoMemory>
    ensures code { OnOk result (code.new ≡ code.old ++ opens (frame body.now) way (line_for (frame body.now) (place_of place.now)) (place_of place.now)) }
    ensures place { IfOk result (λ x. x ≡ at (frame body.now) (place_of place.now)) }
{
    let line = line_for(body, place)?;
    open(body, way, line, place, code)
}

// Closes it.
fn close_own(body: &Body, place: &CorePlace, code: &mut Items<Instr>) -> Result<(), NoMemory>
    ensures { OnOk result (code.new ≡ code.old ++ closes body.now.slot (indexes (place_of place.now).steps)) }
{
    let count = indexes(place.steps.as_slice())?;
    close(body.slot, count, code)
}

// VALUES

/// Copies what stands at a place to own words from one on.
pub(crate) fn read(
    body: &Body,
    place: &CorePlace,
    word: u32,
    code: &mut Items<Instr>,
) -> Result<(), NoMemory>
    ensures { OnOk result (code.new ≡ code.old ++ read (frame body.now) (place_of place.now) word) }
{
    let from = open_own(body, Way::Read, place, code)?;
    let words = place_size(body, place);
    code.push(Instr::Copy {
        to: own(word),
        from,
        words,
    })?;
    close_own(body, place, code)
}

/// Moves it there.
pub(crate) fn take(
    body: &Body,
    place: &CorePlace,
    word: u32,
    code: &mut Items<Instr>,
) -> Result<(), NoMemory>
    ensures { OnOk result (code.new ≡ code.old ++ take (frame body.now) (place_of place.now) word) }
{
    let from = open_own(body, Way::Write, place, code)?;
    let words = place_size(body, place);
    code.push(Instr::Move {
        to: own(word),
        from,
        words,
    })?;
    close_own(body, place, code)
}

/// Moves own words to a place.
pub(crate) fn write(
    body: &Body,
    place: &CorePlace,
    word: u32,
    code: &mut Items<Instr>,
) -> Result<(), NoMemory>
    ensures { OnOk result (code.new ≡ code.old ++ write (frame body.now) (place_of place.now) word) }
{
    let to = open_own(body, Way::Write, place, code)?;
    let words = place_size(body, place);
    code.push(Instr::Move {
        to,
        from: own(word),
        words,
    })?;
    close_own(body, place, code)
}

/// Copies the truth value of a local to the first scratch word.
pub(crate) fn test(body: &Body, local: u32, code: &mut Items<Instr>) -> Result<(), NoMemory>
    ensures { OnOk result (code.new ≡ code.old ++ test (frame body.now) local) }
{
    let from = place_at(home_of(body, local))?;
    code.push(Instr::Copy {
        to: own(body.scratch),
        from,
        words: 1,
    })?;
    Ok(())
}

// Copies words to own words from one on, one after another.
fn loads(
    body: &Body,
    word: u32,
    places: &[CorePlace],
    code: &mut Items<Instr>,
) -> Result<(), NoMemory>
    ensures { OnOk result (code.new ≡ code.old ++ loads (frame body.now) word (map place_of places.now)) }
{
    let mut next = word;
    let mut left = places;
    while let Some((place, more)) = left.split_first() {
        read(body, place, next, code)?;
        next = plus(next, 1)?;
        left = more;
    }
    Ok(())
}

// Moves values to own words from one on, one after another.
fn moves(
    body: &Body,
    word: u32,
    places: &[CorePlace],
    code: &mut Items<Instr>,
) -> Result<(), NoMemory>
    ensures { OnOk result (code.new ≡ code.old ++ moves (frame body.now) word (map place_of places.now)) }
{
    let mut next = word;
    let mut left = places;
    while let Some((place, more)) = left.split_first() {
        take(body, place, next, code)?;
        next = plus(next, place_size(body, place))?;
        left = more;
    }
    Ok(())
}

// Stores the scratch words, where there is a place for them.
fn stores(body: &Body, to: &Option<CorePlace>, code: &mut Items<Instr>) -> Result<(), NoMemory>
    ensures { OnOk result (code.new ≡ code.old ++ stores (frame body.now) (option_map place_of to.now)) }
{
    match to {
        None => Ok(()),
        Some(place) => write(body, place, body.scratch, code),
    }
}

// OPERATIONS

fn span_at(spans: &[u32], at: usize) -> u32
    ensures { result ≡ span_at spans.now at }
{
    spans.get(at).copied().unwrap_or(0)
}

// What the first operand is printed as.
fn shown(body: &Body, from: &[CorePlace]) -> Shown
    ensures { result ≡ shown_as (first_form (frame body.now) (map place_of from.now)) }
{
    match from.split_first() {
        None => Shown::Int,
        Some((place, _)) => shown_at(body, type_of(body, place)),
    }
}

// The operation on scratch words.
fn computes(
    body: &Body,
    op: CoreOp,
    from: &[CorePlace],
    spans: &[u32],
    code: &mut Items<Instr>,
) -> Result<(), NoMemory>
    ensures { OnOk result (code.new ≡ code.old ++ computes (frame body.now) (op_of op) (map place_of from.now) spans.now) }
{
    let to = body.scratch;
    let a = to;
    let b = plus(to, 1)?;
    let span = span_at(spans, 0);
    let instr = match op {
        CoreOp::Add => Instr::Add { to, a, b, span },
        CoreOp::Sub => Instr::Sub { to, a, b, span },
        CoreOp::Mul => Instr::Mul { to, a, b, span },
        CoreOp::Div => Instr::Div { to, a, b, span },
        CoreOp::Rem => Instr::Rem { to, a, b, span },
        CoreOp::Neg => Instr::Neg { to, a, span },
        CoreOp::Convert(_) => {
            code.push(Instr::Const { to: b, value: 0 })?;
            Instr::Add { to, a, b, span }
        }
        CoreOp::Eq => Instr::Eq { to, a, b },
        CoreOp::Lt => Instr::Lt { to, a, b },
        CoreOp::Le => Instr::Le { to, a, b },
        CoreOp::Not => Instr::Not { to, a },
        CoreOp::Print => Instr::Print {
            word: a,
            shown: shown(body, from),
        },
        CoreOp::Read => Instr::Read { to, span },
        CoreOp::Check => Instr::Check { word: a, span },
        CoreOp::NewArray
        | CoreOp::Push
        | CoreOp::Pop
        | CoreOp::Swap
        | CoreOp::Count
        | CoreOp::FreeArray => return Ok(()),
    };
    code.push(instr)?;
    Ok(())
}

// The operation on operands that are copied to scratch words, and its store.
fn scalar(
    body: &Body,
    op: CoreOp,
    to: &Option<CorePlace>,
    from: &[CorePlace],
    spans: &[u32],
    code: &mut Items<Instr>,
) -> Result<(), NoMemory>
    ensures { OnOk result (code.new ≡ code.old ++ scalar (frame body.now) (op_of op) (option_map place_of to.now) (map place_of from.now) spans.now) }
{
    loads(body, body.scratch, from, code)?;
    computes(body, op, from, spans, code)?;
    stores(body, to, code)
}

// ARRAYS

fn new_array(body: &Body, to: &Option<CorePlace>, code: &mut Items<Instr>) -> Result<(), NoMemory>
    ensures { OnOk result (code.new ≡ code.old ++ new_array (frame body.now) (option_map place_of to.now)) }
{
    match to {
        None => Ok(()),
        Some(place) => {
            let array = open_own(body, Way::Write, place, code)?;
            code.push(Instr::NewArray { array })?;
            close_own(body, place, code)
        }
    }
}

fn push(body: &Body, from: &[CorePlace], code: &mut Items<Instr>) -> Result<(), NoMemory>
    ensures { OnOk result (code.new ≡ code.old ++ push (frame body.now) (map place_of from.now)) }
{
    match from.split_first() {
        None => Ok(()),
        Some((place, more)) => {
            moves(body, body.scratch, more, code)?;
            let array = open_own(body, Way::Write, place, code)?;
            let width = element_size(body, place);
            code.push(Instr::Grow { array, width })?;
            code.push(Instr::Push {
                array,
                word: body.scratch,
                width,
            })?;
            close_own(body, place, code)
        }
    }
}

fn pop(
    body: &Body,
    to: &Option<CorePlace>,
    from: &[CorePlace],
    spans: &[u32],
    code: &mut Items<Instr>,
) -> Result<(), NoMemory>
    ensures { OnOk result (code.new ≡ code.old ++ pop (frame body.now) (option_map place_of to.now) (map place_of from.now) spans.now) }
{
    match from.split_first() {
        None => Ok(()),
        Some((place, _)) => {
            let array = open_own(body, Way::Write, place, code)?;
            let width = element_size(body, place);
            code.push(Instr::Pop {
                array,
                word: body.scratch,
                width,
                span: span_at(spans, 0),
            })?;
            close_own(body, place, code)?;
            stores(body, to, code)
        }
    }
}

fn swap(
    body: &Body,
    from: &[CorePlace],
    spans: &[u32],
    code: &mut Items<Instr>,
) -> Result<(), NoMemory>
    ensures { OnOk result (code.new ≡ code.old ++ swap (frame body.now) (map place_of from.now) spans.now) }
{
    match from.split_first() {
        None => Ok(()),
        Some((place, more)) => {
            loads(body, body.scratch, more, code)?;
            let array = open_own(body, Way::Write, place, code)?;
            let j = plus(body.scratch, 1)?;
            code.push(Instr::Swap {
                array,
                i: body.scratch,
                j,
                width: element_size(body, place),
                span_i: span_at(spans, 0),
                span_j: span_at(spans, 1),
            })?;
            close_own(body, place, code)
        }
    }
}

fn count(
    body: &Body,
    to: &Option<CorePlace>,
    from: &[CorePlace],
    code: &mut Items<Instr>,
) -> Result<(), NoMemory>
    ensures { OnOk result (code.new ≡ code.old ++ count (frame body.now) (option_map place_of to.now) (map place_of from.now)) }
{
    match from.split_first() {
        None => Ok(()),
        Some((place, _)) => {
            let array = open_own(body, Way::Read, place, code)?;
            code.push(Instr::Count {
                to: body.scratch,
                array,
            })?;
            close_own(body, place, code)?;
            stores(body, to, code)
        }
    }
}

fn free_array(body: &Body, from: &[CorePlace], code: &mut Items<Instr>) -> Result<(), NoMemory>
    ensures { OnOk result (code.new ≡ code.old ++ free_array (frame body.now) (map place_of from.now)) }
{
    match from.split_first() {
        None => Ok(()),
        Some((place, _)) => {
            let array = open_own(body, Way::Write, place, code)?;
            code.push(Instr::FreeArray { array })?;
            close_own(body, place, code)
        }
    }
}

/// The segment of a built-in operation.
pub(crate) fn built(
    body: &Body,
    op: CoreOp,
    to: &Option<CorePlace>,
    from: &[CorePlace],
    spans: &[u32],
    code: &mut Items<Instr>,
) -> Result<(), NoMemory>
    ensures { OnOk result (code.new ≡ code.old ++ built (frame body.now) (op_of op) (option_map place_of to.now) (map place_of from.now) spans.now) }
{
    match op {
        CoreOp::NewArray => new_array(body, to, code),
        CoreOp::Push => push(body, from, code),
        CoreOp::Pop => pop(body, to, from, spans, code),
        CoreOp::Swap => swap(body, from, spans, code),
        CoreOp::Count => count(body, to, from, code),
        CoreOp::FreeArray => free_array(body, from, code),
        CoreOp::Add
        | CoreOp::Sub
        | CoreOp::Mul
        | CoreOp::Div
        | CoreOp::Rem
        | CoreOp::Neg
        | CoreOp::Convert(_)
        | CoreOp::Eq
        | CoreOp::Lt
        | CoreOp::Le
        | CoreOp::Not
        | CoreOp::Print
        | CoreOp::Read
        | CoreOp::Check => scalar(body, op, to, from, spans, code),
    }
}

// VALUES

/// The segment of a `Set`.
pub(crate) fn set(
    body: &Body,
    to: &CorePlace,
    value: i64,
    code: &mut Items<Instr>,
) -> Result<(), NoMemory>
    ensures { OnOk result (code.new ≡ code.old ++ set (frame body.now) (place_of to.now) value) }
{
    if place_size(body, to) > 0 {
        code.push(Instr::Const {
            to: body.scratch,
            value,
        })?;
    }
    write(body, to, body.scratch, code)
}

/// The segment of a `Move`.
pub(crate) fn move_to(
    body: &Body,
    to: &CorePlace,
    from: &CorePlace,
    code: &mut Items<Instr>,
) -> Result<(), NoMemory>
    ensures { OnOk result (code.new ≡ code.old ++ move (frame body.now) (place_of to.now) (place_of from.now)) }
{
    take(body, from, body.scratch, code)?;
    write(body, to, body.scratch, code)
}

/// The segment of a `Copy`.
pub(crate) fn copy(
    body: &Body,
    to: &CorePlace,
    from: &CorePlace,
    code: &mut Items<Instr>,
) -> Result<(), NoMemory>
    ensures { OnOk result (code.new ≡ code.old ++ copy (frame body.now) (place_of to.now) (place_of from.now)) }
{
    read(body, from, body.scratch, code)?;
    write(body, to, body.scratch, code)
}

// Frees the arrays at these words of a place.
fn frees(at: Place, offsets: &[u32], code: &mut Items<Instr>) -> Result<(), NoMemory>
    ensures { OnOk result (code.new ≡ code.old ++ frees at offsets.now) }
{
    let mut left = offsets;
    while let Some((before, more)) = left.split_first() {
        let offset = plus(at.offset, *before)?;
        code.push(Instr::FreeArray {
            array: Place {
                base: at.base,
                offset,
            },
        })?;
        left = more;
    }
    Ok(())
}

/// The segment of a `Drop`.
pub(crate) fn drop_place(
    body: &Body,
    place: &CorePlace,
    code: &mut Items<Instr>,
) -> Result<(), NoMemory>
    ensures { OnOk result (code.new ≡ code.old ++ drop (frame body.now) (place_of place.now)) }
{
    let offsets = arrays_in(body.alloc, body.types, body.sizes, type_of(body, place))?;
    let at = open_own(body, Way::Write, place, code)?;
    frees(at, offsets.as_slice(), code)?;
    close_own(body, place, code)
}

// LENDS

// The access to the words of a place that does not end in an index step.
fn last(
    counted: bool,
    slot: u32,
    place: Place,
    words: u32,
    way: Way,
    code: &mut Items<Instr>,
) -> Result<(), NoMemory>
    ensures { OnOk result (code.new ≡ code.old ++ last counted slot place words way) }
{
    if counted {
        code.push(Instr::Lend {
            slot,
            place,
            words,
            way,
        })?;
    }
    Ok(())
}

fn way_of(write: bool) -> Way
    ensures { result ≡ way_of write }
{
    if write { Way::Write } else { Way::Read }
}

/// The segment of a `Lend`.
pub(crate) fn lend(
    body: &Body,
    to: u32,
    place: &CorePlace,
    write: bool,
    code: &mut Items<Instr>,
) -> Result<(), NoMemory>
    ensures { OnOk result (code.new ≡ code.old ++ lend (frame body.now) to (place_of place.now) write) }
{
    let way = way_of(write);
    match home_of(body, to) {
        Home::Words(_) => Ok(()),
        Home::Slot {
            slot,
            first,
            count: _,
        } => {
            let left = on_the_way(place.steps.as_slice())?;
            let line = Line {
                next: first,
                left,
                last: slot,
            };
            let at = open(body, way, line, place, code)?;
            let words = place_size(body, place);
            last(
                is_counted(place.steps.as_slice()),
                slot,
                at,
                words,
                way,
                code,
            )
        }
    }
}

/// The segment of a `Close`.
pub(crate) fn close_local(body: &Body, local: u32, code: &mut Items<Instr>) -> Result<(), NoMemory>
    ensures { OnOk result (code.new ≡ code.old ++ close (frame body.now) local) }
{
    match home_of(body, local) {
        Home::Words(_) => Ok(()),
        Home::Slot { slot, first, count } => {
            code.push(Instr::Close { slot })?;
            close(first, count, code)
        }
    }
}

/// The slot of a local that stands in one.
pub(crate) fn slot_of(body: &Body, local: u32) -> u32
    ensures { result ≡ slot_of (frame body.now) local }
{
    match home_of(body, local) {
        Home::Words(_) => 0,
        Home::Slot {
            slot,
            first: _,
            count: _,
        } => slot,
    }
}

// CALLS

// The slot of the first local that is handed over.
fn first_slot(body: &Body, lent: &[u32]) -> u32
    ensures { result ≡ first_slot (frame body.now) lent.now }
{
    match lent.split_first() {
        None => 0,
        Some((local, _)) => slot_of(body, *local),
    }
}

/// The segment of a `Call`.
pub(crate) fn call(
    body: &Body,
    fun: u32,
    lent: &[u32],
    owned: &[CorePlace],
    to: &CorePlace,
    code: &mut Items<Instr>,
) -> Result<(), NoMemory>
    ensures { OnOk result (code.new ≡ code.old ++ call (frame body.now) fun lent.now (map place_of owned.now) (place_of to.now)) }
{
    moves(body, body.scratch, owned, code)?;
    let slot = first_slot(body, lent);
    code.push(Instr::Call {
        fun,
        slot,
        word: body.scratch,
    })?;
    write(body, to, body.scratch, code)
}

/// The segment of a `Project`.
pub(crate) fn project(
    body: &Body,
    fun: u32,
    lent: &[u32],
    owned: &[CorePlace],
    to: u32,
    code: &mut Items<Instr>,
) -> Result<(), NoMemory>
    ensures { OnOk result (code.new ≡ code.old ++ project (frame body.now) fun lent.now (map place_of owned.now) to) }
{
    moves(body, body.scratch, owned, code)?;
    let slot = first_slot(body, lent);
    let into = slot_of(body, to);
    code.push(Instr::Project {
        fun,
        slot,
        word: body.scratch,
        into,
    })?;
    Ok(())
}

/// The segment of a `Leave`.
pub(crate) fn leave(body: &Body, from: &CorePlace, code: &mut Items<Instr>) -> Result<(), NoMemory>
    ensures { OnOk result (code.new ≡ code.old ++ leave (frame body.now) (place_of from.now)) }
{
    take(body, from, body.scratch, code)?;
    code.push(Instr::Return { word: body.scratch })?;
    Ok(())
}

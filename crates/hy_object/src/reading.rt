// From bytes to the object that they spell.
ghost use Rattle.std.specs.Prelude.{◌≡◌, ℕ, []};
ghost use Rattle.hy_object.specs.declared.reading.Stop.TheVariants.{NoMemory};
ghost use Rattle.hy_object.specs.declared.object.Object.{Object};
ghost use Rattle.hy_object.specs.Places.{Decodes, Spells, Gives, IsBadAt, Refuses};
ghost use Rattle.hy_object.specs.Reading.{Finds};
ghost use Rattle.hy_object.specs.Formats.{Reads, Ends, Number, Then, Mark, read_mark, read_span, read_number, read_code, many, one_span, one_instr};
ghost use Rattle.hy_object.specs.Formats.{one_fun, header_format, fun_format, most};

use crate::bounds::{Bounds, may_stand};
use crate::form::instruction;
use crate::instr::Instr;
use crate::number::count;
use crate::object::{Fun, MAGIC, Object, ObjectFault, VERSION};
use hy_base::Span;
use sqlite_items::Items;
use std::alloc::{AllocError, Global};

/// Why reading ended.
#[derive(Clone, Copy)]
pub enum Stop {
    /// At a field or instruction that cannot stand there: how many bytes were left before it.
    At(usize),
    NoMemory,
}

impl From<AllocError> for Stop {
    ghost from_gives = { λ _ e. e ≡ NoMemory };

    fn from(_: AllocError) -> Stop {
        Stop::NoMemory
    }
}

/// What stands before a function's code.
#[derive(Clone, Copy)]
pub struct Header {
    pub accesses: u32,
    pub owned: u32,
    pub result: u32,
    pub words: u32,
    pub slots: u32,
    /// How many instructions the code has.
    pub places: u32,
}

/// The object whose bytes these are, or where they are bad.
pub fn decode(alloc: Global, bytes: &[u8]) -> Result<Object, ObjectFault>
    // The object has these bytes, or they are bad at that place.
    ensures exact { Decodes bytes.now result }
    // Where they are an object's, it is that one.
    ensures only { (object : Object) → Spells bytes.now object → Gives object result }
    // Where they are bad, it is at that place.
    ensures place { (place : ℕ) → IsBadAt bytes.now place → Refuses place result }
{
    match object(alloc, bytes) {
        Ok(object) => Ok(object),
        Err(Stop::At(left)) => Err(ObjectFault::Bad((bytes.len() - left) as u64)),
        Err(Stop::NoMemory) => Err(ObjectFault::NoMemory),
    }
}

/// The object that the bytes spell, or where they stop to do so.
fn object(alloc: Global, bytes: &[u8]) -> Result<Object, Stop>
    ensures { Ends bytes.now result }
{
    let rest = mark(bytes, &MAGIC)?;
    let rest = mark(rest, &VERSION)?;
    let (span_count, rest) = number(rest, 0, u32::MAX)?;
    let (spans, rest) = read_spans(alloc, span_count, rest)?;
    let (fun_count, rest) = number(rest, 1, u32::MAX)?;
    let (funs, rest) = read_funs(alloc, span_count, fun_count, rest)?;
    if !rest.is_empty() {
        return Err(Stop::At(rest.len()));
    }
    Ok(Object { spans, funs })
}

fn mark<'a>(bytes: &'a [u8], mark: &[u8]) -> Result<&'a [u8], Stop>
    ensures { Reads (λ x. tt) (λ x. x.now) (Then (Mark mark.now)) bytes.now result }
{
    bytes.strip_prefix(mark).ok_or(Stop::At(bytes.len()))
}

fn number(bytes: &[u8], low: u32, high: u32) -> Result<(u32, &[u8]), Stop>
    ensures { Reads (λ x. x.0) (λ x. x.1.now) (Then (Number low high)) bytes.now result }
{
    number_in(bytes, low, high).ok_or(Stop::At(bytes.len()))
}

fn number_in(bytes: &[u8], low: u32, high: u32) -> Option<(u32, &[u8])>
    ensures { Finds (λ x. (x.0, x.1.now)) result (read_number low high bytes.now) }
{
    let (n, rest) = count(bytes)?;
    if n < low || n > high {
        return None;
    }
    Some((n, rest))
}

fn read_spans(alloc: Global, size: u32, bytes: &[u8]) -> Result<(Items<Span>, &[u8]), Stop>
    ensures { Reads (λ x. x.0) (λ x. x.1.now) (many one_span size []) bytes.now result }
{
    let mut spans = Items::new(alloc);
    let mut rest = bytes;
    for _ in 0..size {
        let Some((span, behind)) = read_span(rest) else {
            return Err(Stop::At(rest.len()));
        };
        spans.push(span)?;
        rest = behind;
    }
    Ok((spans, rest))
}

/// A start and a length, whose sum is a position too.
fn read_span(bytes: &[u8]) -> Option<(Span, &[u8])>
    ensures { Finds (λ x. (x.0, x.1.now)) result (read_span bytes.now) }
{
    let (from, rest) = count(bytes)?;
    let (size, rest) = count(rest)?;
    let to = from.checked_add(size)?;
    Some((Span { from, to }, rest))
}

fn read_funs(
    alloc: Global,
    span_count: u32,
    size: u32,
    bytes: &[u8],
) -> Result<(Items<Fun>, &[u8]), Stop>
    ensures { Reads (λ x. x.0) (λ x. x.1.now) (many (one_fun span_count size) size []) bytes.now result }
{
    let mut funs = Items::new(alloc);
    let mut rest = bytes;
    for _ in 0..size {
        let (fun, behind) = read_fun(alloc, span_count, size, most(&funs), rest)?;
        funs.push(fun)?;
        rest = behind;
    }
    Ok((funs, rest))
}

/// How many accesses, owned words and result words a function may have after these: none where it is `main`.
fn most(funs: &Items<Fun>) -> u32
    ensures { result ≡ most funs.now }
{
    if funs.is_empty() { 0 } else { u32::MAX }
}

/// A function that may have at most that many accesses, owned words and result words.
fn read_fun(
    alloc: Global,
    span_count: u32,
    fun_count: u32,
    most: u32,
    bytes: &[u8],
) -> Result<(Fun, &[u8]), Stop>
    ensures { Reads (λ x. x.0) (λ x. x.1.now) (fun_format span_count fun_count most) bytes.now result }
{
    let (header, rest) = read_header(most, bytes)?;
    let Header {
        accesses,
        owned,
        result: outcome,
        words,
        slots,
        places,
    } = header;
    let bounds = Bounds {
        spans: span_count,
        funs: fun_count,
        result: outcome,
        words,
        slots,
        places,
    };
    let (code, rest) = read_code(alloc, &bounds, rest)?;
    let fun = Fun {
        accesses,
        owned,
        result: outcome,
        words,
        slots,
        code,
    };
    Ok((fun, rest))
}

fn read_header(most: u32, bytes: &[u8]) -> Result<(Header, &[u8]), Stop>
    ensures { Reads (λ x. x.0) (λ x. x.1.now) (header_format most) bytes.now result }
{
    let (accesses, rest) = number(bytes, 0, most)?;
    let (owned, rest) = number(rest, 0, most)?;
    let (outcome, rest) = number(rest, 0, most)?;
    let (words, rest) = number(rest, owned, u32::MAX)?;
    let (slots, rest) = number(rest, accesses, u32::MAX)?;
    let (places, rest) = number(rest, 1, u32::MAX)?;
    let header = Header {
        accesses,
        owned,
        result: outcome,
        words,
        slots,
        places,
    };
    Ok((header, rest))
}

fn read_code<'a>(
    alloc: Global,
    bounds: &Bounds,
    bytes: &'a [u8],
) -> Result<(Items<Instr>, &'a [u8]), Stop>
    ensures { Reads (λ x. x.0) (λ x. x.1.now) (many (one_instr bounds.now) bounds.now.places []) bytes.now result }
{
    let mut code = Items::new(alloc);
    let mut rest = bytes;
    for i in 0..bounds.places {
        let Some((instr, after)) = read_instr(bounds, bounds.places - i - 1, rest) else {
            return Err(Stop::At(rest.len()));
        };
        code.push(instr)?;
        rest = after;
    }
    Ok((code, rest))
}

/// An instruction that may stand there, with so many after it.
fn read_instr<'a>(bounds: &Bounds, behind: u32, bytes: &'a [u8]) -> Option<(Instr, &'a [u8])>
    ensures { Finds (λ x. (x.0, x.1.now)) result (read_code bounds.now behind bytes.now) }
{
    let (instr, rest) = instruction(bytes)?;
    if !bounds.allows(instr) || !may_stand(instr, behind) {
        return None;
    }
    Some((instr, rest))
}

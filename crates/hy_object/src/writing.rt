// From an object to its bytes.
ghost use Rattle.std.specs.Prelude.{◌≡◌, ◌≤◌, ◌<◌, ◌^◌, ◌-◌, ◌++◌, ◌∷◌, ℕ, All, flat_map, length, IfOk, OnOk};
ghost use Rattle.hy_object.specs.Numbers.{count_bytes, value_bytes, signed_bytes};
ghost use Rattle.hy_object.specs.Operands.{instr_bytes, way_number, shown_number};
ghost use Rattle.hy_object.specs.Bytes.{bytes_of, span_bytes, fun_bytes};
ghost use Rattle.hy_object.specs.Grammar.{IsInGrammar, IsCount, IsSpan};

use crate::instr::{Instr, Shown, Way};
use crate::number::low_group;
use crate::object::{Fun, MAGIC, Object, VERSION};
use hy_base::{NoMemory, Span};
use std::alloc::Global;

/// The one spelling of an object, as `docs/OBJECT.md` has it.
pub fn encode(alloc: Global, object: &Object) -> Result<Vec<u8>, NoMemory>
    requires { IsInGrammar object.now }
    ensures { IfOk result (λ bytes. bytes.items ≡ bytes_of object.now) }
{
    let mut out = Vec::from_slice(alloc, &MAGIC)?;
    out.extend_from_slice(&VERSION)?;
    put_count(&mut out, object.spans.len() as u32)?;
    put_spans(&mut out, object.spans.as_slice())?;
    put_count(&mut out, object.funs.len() as u32)?;
    put_funs(&mut out, object.funs.as_slice())?;
    Ok(out)
}

fn put_spans(out: &mut Vec<u8>, spans: &[Span]) -> Result<(), NoMemory>
    requires { All IsSpan spans.now }
    ensures { OnOk result (out.new.items ≡ out.old.items ++ flat_map span_bytes spans.now) }
{
    for span in spans {
        put_count(out, span.from)?;
        put_count(out, span.to - span.from)?;
    }
    Ok(())
}

fn put_funs(out: &mut Vec<u8>, funs: &[Fun]) -> Result<(), NoMemory>
    requires { All (λ fun. IsCount (length fun.code)) funs.now }
    ensures { OnOk result (out.new.items ≡ out.old.items ++ flat_map fun_bytes funs.now) }
{
    for fun in funs {
        put_fun(out, fun)?;
    }
    Ok(())
}

fn put_fun(out: &mut Vec<u8>, fun: &Fun) -> Result<(), NoMemory>
    requires { IsCount (length fun.now.code) }
    ensures { OnOk result (out.new.items ≡ out.old.items ++ fun_bytes fun.now) }
{
    let sizes = [fun.accesses, fun.owned, fun.result, fun.words, fun.slots];
    put_counts(out, &sizes)?;
    put_count(out, fun.code.len() as u32)?;
    put_code(out, fun.code.as_slice())?;
    Ok(())
}

fn put_code(out: &mut Vec<u8>, code: &[Instr]) -> Result<(), NoMemory>
    ensures { OnOk result (out.new.items ≡ out.old.items ++ flat_map instr_bytes code.now) }
{
    for instr in code {
        put_instr(out, *instr)?;
    }
    Ok(())
}

fn put_instr(out: &mut Vec<u8>, instr: Instr) -> Result<(), NoMemory>
    ensures { OnOk result (out.new.items ≡ out.old.items ++ instr_bytes instr) }
{
    match instr {
        Instr::Const { to, value } => {
            put(out, 1, &[to])?;
            put_value(out, value)
        }
        Instr::Copy { to, from, words } => put(
            out,
            2,
            &[to.base, to.offset, from.base, from.offset, words],
        ),
        Instr::Move { to, from, words } => put(
            out,
            3,
            &[to.base, to.offset, from.base, from.offset, words],
        ),
        Instr::Add { to, a, b, span } => put(out, 4, &[to, a, b, span]),
        Instr::Sub { to, a, b, span } => put(out, 5, &[to, a, b, span]),
        Instr::Mul { to, a, b, span } => put(out, 6, &[to, a, b, span]),
        Instr::Div { to, a, b, span } => put(out, 7, &[to, a, b, span]),
        Instr::Rem { to, a, b, span } => put(out, 8, &[to, a, b, span]),
        Instr::Neg { to, a, span } => put(out, 9, &[to, a, span]),
        Instr::Eq { to, a, b } => put(out, 10, &[to, a, b]),
        Instr::Lt { to, a, b } => put(out, 11, &[to, a, b]),
        Instr::Le { to, a, b } => put(out, 12, &[to, a, b]),
        Instr::Not { to, a } => put(out, 13, &[to, a]),
        Instr::Jump { target } => put(out, 14, &[target]),
        Instr::JumpIf { word, target } => put(out, 15, &[word, target]),
        Instr::JumpUnless { word, target } => put(out, 16, &[word, target]),
        Instr::Call { fun, slot, word } => put(out, 17, &[fun, slot, word]),
        Instr::Return { word } => put(out, 18, &[word]),
        Instr::Project {
            fun,
            slot,
            word,
            into,
        } => put(out, 19, &[fun, slot, word, into]),
        Instr::Yield { slot } => put(out, 20, &[slot]),
        Instr::Slide { slot } => put(out, 21, &[slot]),
        Instr::Lend {
            slot,
            place,
            words,
            way,
        } => put(
            out,
            22,
            &[slot, place.base, place.offset, words, way_number(way)],
        ),
        Instr::Elem {
            slot,
            array,
            index,
            width,
            way,
            span,
        } => put(
            out,
            23,
            &[
                slot,
                array.base,
                array.offset,
                index,
                width,
                way_number(way),
                span,
            ],
        ),
        Instr::Close { slot } => put(out, 24, &[slot]),
        Instr::NewArray { array } => put(out, 25, &[array.base, array.offset]),
        Instr::Grow { array, width } => put(out, 26, &[array.base, array.offset, width]),
        Instr::Push { array, word, width } => put(
            out,
            27,
            &[array.base, array.offset, word, width],
        ),
        Instr::Pop {
            array,
            word,
            width,
            span,
        } => put(out, 28, &[array.base, array.offset, word, width, span]),
        Instr::Swap {
            array,
            i,
            j,
            width,
            span_i,
            span_j,
        } => put(
            out,
            29,
            &[array.base, array.offset, i, j, width, span_i, span_j],
        ),
        Instr::Count { to, array } => put(out, 30, &[to, array.base, array.offset]),
        Instr::FreeArray { array } => put(out, 31, &[array.base, array.offset]),
        Instr::Print { word, shown } => put(out, 32, &[word, shown_number(shown)]),
        Instr::Read { to, span } => put(out, 33, &[to, span]),
        Instr::Check { word, span } => put(out, 34, &[word, span]),
    }
}

fn way_number(way: Way) -> u32
    ensures { result ≡ way_number way }
{
    match way {
        Way::Read => 0,
        Way::Write => 1,
    }
}

fn shown_number(shown: Shown) -> u32
    ensures { result ≡ shown_number shown }
{
    match shown {
        Shown::Int => 0,
        Shown::Bool => 1,
    }
}

/// The number of an instruction, and its fields.
fn put(out: &mut Vec<u8>, number: u8, row: &[u32]) -> Result<(), NoMemory>
    ensures { OnOk result (out.new.items ≡ out.old.items ++ (number ∷ flat_map count_bytes row.now)) }
{
    out.push(number)?;
    put_counts(out, row)
}

fn put_counts(out: &mut Vec<u8>, row: &[u32]) -> Result<(), NoMemory>
    ensures { OnOk result (out.new.items ≡ out.old.items ++ flat_map count_bytes row.now) }
{
    for n in row {
        put_count(out, *n)?;
    }
    Ok(())
}

/// A number below 2^32 in its shortest form: groups of seven bits, the lowest first.
fn put_count(out: &mut Vec<u8>, n: u32) -> Result<(), NoMemory>
    ensures { OnOk result (out.new.items ≡ out.old.items ++ count_bytes n) }
{
    let mut rest = n;
    while rest >= 128 {
        out.push(128 + (rest % 128) as u8)?;
        rest /= 128;
    }
    out.push(rest as u8)?;
    Ok(())
}

/// A number of 64 bits in its shortest form.
fn put_value(out: &mut Vec<u8>, value: i64) -> Result<(), NoMemory>
    ensures { OnOk result (out.new.items ≡ out.old.items ++ value_bytes value) }
{
    if value < 0 {
        put_signed(out, true, (-(value + 1)) as u64)?;
        return Ok(());
    }
    put_signed(out, false, value as u64)?;
    Ok(())
}

/// The groups of a value of that sign: of itself, or of one less than its negation. The last group has the sign in its
/// highest bit.
fn put_signed(out: &mut Vec<u8>, negative: bool, n: u64) -> Result<(), NoMemory>
    ensures { OnOk result (out.new.items ≡ out.old.items ++ signed_bytes negative n) }
{
    let mut rest = n;
    while rest >= 64 {
        out.push(128 + low_group(negative, (rest % 128) as u8))?;
        rest /= 128;
    }
    out.push(low_group(negative, rest as u8))?;
    Ok(())
}

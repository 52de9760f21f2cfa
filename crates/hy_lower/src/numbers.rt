// Numbers below 2^32, and types and their sizes.
ghost use Rattle.std.specs.Prelude.{◌≡◌, ◌+◌, ◌∷◌, ◌++◌, [], max, IfOk, OnOk};
ghost use Rattle.hy_core.specs.Control.{element_type, form, part_type, parts_of, product_form};
ghost use Rattle.hy_types.specs.Types.{declared};
ghost use Rattle.hy_lower.specs.Segments.{shown_as};
ghost use Rattle.hy_lower.specs.Frames.{size_of, words_before, words_of};

use hy_base::NoMemory;
use hy_object::Shown;
use hy_types::{Ty, TyId, TyTable};

/// A sum; one of 2^32 or more counts as out of memory.
pub(crate) fn plus(a: u32, b: u32) -> Result<u32, NoMemory>
    ensures { IfOk result (λ n. n ≡ a + b) }
{
    match a.checked_add(b) {
        Some(n) => Ok(n),
        None => Err(NoMemory),
    }
}

/// The length of a list; one of 2^32 or more counts as out of memory.
pub(crate) fn count(n: usize) -> Result<u32, NoMemory>
    ensures { IfOk result (λ m. m ≡ n) }
{
    match u32::try_from(n) {
        Ok(m) => Ok(m),
        Err(_) => Err(NoMemory),
    }
}

/// The words of a type.
pub(crate) fn size_of(sizes: &[u32], t: TyId) -> u32
    ensures { result ≡ size_of sizes.now t }
{
    sizes.get(t.at as usize).copied().unwrap_or(0)
}

/// The words of these types together.
pub(crate) fn words_of(sizes: &[u32], types: &[TyId]) -> Result<u32, NoMemory>
    ensures { IfOk result (λ n. n ≡ words_of sizes.now types.now) }
{
    let mut sum = 0u32;
    let mut left = types;
    while let Some((t, rest)) = left.split_first() {
        sum = plus(sum, size_of(sizes, *t))?;
        left = rest;
    }
    Ok(sum)
}

/// The words of the first so many of these types.
pub(crate) fn words_before(sizes: &[u32], types: &[TyId], count: u32) -> Result<u32, NoMemory>
    ensures { IfOk result (λ n. n ≡ words_before sizes.now types.now count) }
{
    let mut sum = 0u32;
    let mut left = types;
    let mut more = count;
    while let Some((t, rest)) = left.split_first() {
        if more == 0 {
            break;
        }
        sum = plus(sum, size_of(sizes, *t))?;
        left = rest;
        more -= 1;
    }
    Ok(sum)
}

/// The parts of a type.
pub(crate) fn parts_of(types: &TyTable, t: TyId) -> &[TyId]
    ensures { result.now ≡ parts_of (form types.now t) }
{
    if !types.has(t) {
        return &[];
    }
    match types.get(t) {
        Ty::Tuple(parts) => parts.as_slice(),
        Ty::Product(declaration) => declared_parts(types, *declaration),
        Ty::Int | Ty::Sized(_) | Ty::Bool | Ty::Array(_) | Ty::Param(_) => &[],
    }
}

// The parts that a product was declared with, or none.
fn declared_parts(types: &TyTable, declaration: u32) -> &[TyId]
    ensures { result.now ≡ parts_of (product_form declaration (declared types.now declaration)) }
{
    if types.is_declared(declaration) {
        types.parts(declaration).as_slice()
    } else {
        &[]
    }
}

/// The type of a part.
pub(crate) fn part_of(types: &TyTable, t: TyId, part: u32) -> Option<TyId>
    ensures { result ≡ part_type (form types.now t) part }
{
    parts_of(types, t).get(part as usize).copied()
}

/// The type of the elements of an array.
pub(crate) fn element_of(types: &TyTable, t: TyId) -> Option<TyId>
    ensures { result ≡ element_type (form types.now t) }
{
    if !types.has(t) {
        return None;
    }
    match types.get(t) {
        Ty::Array(element) => Some(*element),
        Ty::Product(_) | Ty::Tuple(_) | Ty::Int | Ty::Sized(_) | Ty::Bool | Ty::Param(_) => None,
    }
}

/// What a value of a type is printed as.
pub(crate) fn shown_as(types: &TyTable, t: TyId) -> Shown
    ensures { result ≡ shown_as (form types.now t) }
{
    if !types.has(t) {
        return Shown::Int;
    }
    match types.get(t) {
        Ty::Bool => Shown::Bool,
        Ty::Product(_) | Ty::Tuple(_) | Ty::Int | Ty::Sized(_) | Ty::Array(_) | Ty::Param(_) =>
            Shown::Int,
    }
}

// Objects of cores.
ghost use Rattle.std.specs.Prelude.{◌≡◌, ℕ, length, map, IfOk};
ghost use Rattle.hy_core.specs.Denotes.{checked_of, fun_of, stmts_of};
ghost use Rattle.hy_lower.specs.Code.{Lowered, body_code, fun_from, result_size};
ghost use Rattle.hy_lower.specs.Code as code;
ghost use Rattle.hy_lower.specs.Denotes.{frame};
ghost use Rattle.hy_lower.specs.Frames.{AreSizes};
ghost use Rattle.hy_types.specs.Types.{HasId};
ghost use Rattle.hy_types.specs.Words.{EachDeclared, HasWords};

use crate::body::Body;
use crate::homes::body_of;
use crate::lengths::length_all;
use crate::needs::{depth_all, scratch_all};
use crate::numbers::{count, plus, size_of, words_of};
use crate::statements::{Targets, code_all};
use hy_base::NoMemory;
use hy_core::{Checked, CoreFun, CoreStmt};
use hy_object::{Fun, Instr, Object};
use hy_types::{TyId, TyTable};
use sqlite_items::Items;
use std::alloc::Global;

/// The object of a checked core: its functions, in order, each body the segments of its statements (`docs/LOWERING.md`). Each
/// product that the types of the core name was declared. A number of words, slots or instructions of 2^32 or more counts as out
/// of memory.
pub fn lower(alloc: Global, checked: &Checked) -> Result<Object, NoMemory>
    requires { EachDeclared (checked_of checked.now).types }
    ensures { IfOk result (λ object. Lowered (checked_of checked.now) object) }
{
    let sizes = sizes(alloc, &checked.core.types)?;
    let spans = Items::from_slice(alloc, checked.core.spans.as_slice())?;
    let funs = funs(
        alloc,
        &checked.core.types,
        sizes.as_slice(),
        checked.core.funs.as_slice(),
    )?;
    Ok(Object { spans, funs })
}

// The words of each type, by its number.
fn sizes(alloc: Global, types: &TyTable) -> Result<Items<u32>, NoMemory>
    requires { EachDeclared types.now }
    ensures sizes { IfOk result (λ sizes. AreSizes types.now sizes) }
    ensures each { IfOk result (λ sizes. length sizes ≡ length types.now.types) }
{
    let mut sizes = Items::new(alloc);
    let mut next = TyId { at: 0 };
    while types.has(next) {
        sizes.push(size_in(types, next))?;
        next = TyId {
            at: plus(next.at, 1)?,
        };
    }
    Ok(sizes)
}

// The words of a type of the table; 0 where it has none.
fn size_in(types: &TyTable, id: TyId) -> u32
    requires known { HasId types.now id }
    requires declared { EachDeclared types.now }
    ensures { (words : ℕ) → HasWords types.now id words → result ≡ words }
{
    match types.words(id) {
        Some(words) => words,
        None => 0,
    }
}

fn funs(
    alloc: Global,
    types: &TyTable,
    sizes: &[u32],
    funs: &[CoreFun],
) -> Result<Items<Fun>, NoMemory>
    ensures { IfOk result (λ made. made ≡ map (code.fun_of types.now sizes.now) (map fun_of funs.now)) }
{
    let mut made = Items::new(alloc);
    let mut left = funs;
    while let Some((fun, more)) = left.split_first() {
        made.push(lower_fun(alloc, types, sizes, fun)?)?;
        left = more;
    }
    Ok(made)
}

// What a function hands out; a ramp hands out nothing at its end.
fn result_size(sizes: &[u32], fun: &CoreFun) -> u32
    ensures { result ≡ result_size sizes.now (fun_of fun.now) }
{
    match fun.yields {
        Some(_) => 0,
        None => size_of(sizes, fun.result),
    }
}

fn body_code(alloc: Global, body: &Body, stmts: &[CoreStmt]) -> Result<Items<Instr>, NoMemory>
    ensures { IfOk result (λ made. made ≡ body_code (frame body.now) (stmts_of stmts.now)) }
{
    let mut made = Items::new(alloc);
    code_all(body, 0, Targets { after: 0, again: 0 }, stmts, &mut made)?;
    let target = length_all(body, stmts)?;
    made.push(Instr::Jump { target })?;
    Ok(made)
}

fn lower_fun(alloc: Global, types: &TyTable, sizes: &[u32], fun: &CoreFun) -> Result<Fun, NoMemory>
    ensures { IfOk result (λ made. made ≡ code.fun_of types.now sizes.now (fun_of fun.now)) }
{
    let body = body_of(alloc, types, sizes, fun)?;
    let accesses = count(fun.lent.len())?;
    let owned = words_of(sizes, fun.owned.as_slice())?;
    fun_from(
        alloc,
        &body,
        accesses,
        owned,
        result_size(sizes, fun),
        fun.body.as_slice(),
    )
}

fn fun_from(
    alloc: Global,
    body: &Body,
    accesses: u32,
    owned: u32,
    result_words: u32,
    stmts: &[CoreStmt],
) -> Result<Fun, NoMemory>
    ensures { IfOk result (λ made. made ≡ fun_from (frame body.now) accesses owned result_words (stmts_of stmts.now)) }
{
    let words = plus(body.scratch, scratch_all(body, 0, stmts)?)?;
    let slots = plus(body.slot, depth_all(0, stmts)?)?;
    let code = body_code(alloc, body, stmts)?;
    Ok(Fun {
        accesses,
        owned,
        result: result_words,
        words,
        slots,
        code,
    })
}

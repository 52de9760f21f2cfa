// Where the locals of a body stand.
ghost use Rattle.std.specs.Prelude.{◌≡◌, ◌++◌, cond, map, IfOk, OnOk};
ghost use Rattle.hy_core.specs.Denotes.{fun_of, parameter_of};
ghost use Rattle.hy_core.specs.Plain.{types_of};
ghost use Rattle.hy_lower.specs.Denotes.{frame};
ghost use Rattle.hy_lower.specs.Frames.{Words, first_free, frame_of, homes_from, inner_slot, is_reference, locals_of, member, missing, order_of};
ghost use Rattle.hy_lower.specs.Frames.{place_in, slot_home, slots_of, times, width, words_from};

use crate::body::{Body, Home, Slots};
use crate::gather::{filled_all, handed_all, inner_all};
use crate::numbers::{count, plus, size_of};
use hy_base::NoMemory;
use hy_core::{CoreFun, CoreParameter};
use hy_types::{TyId, TyTable};
use sqlite_items::Items;
use std::alloc::Global;

// LISTS OF LOCALS

fn member(local: u32, locals: &[u32]) -> bool
    ensures { result ≡ member local locals.now }
{
    let mut left = locals;
    while let Some((other, more)) = left.split_first() {
        if *other == local {
            return true;
        }
        left = more;
    }
    false
}

fn place_in(local: u32, locals: &[u32]) -> Result<u32, NoMemory>
    ensures { IfOk result (λ n. n ≡ place_in local locals.now) }
{
    let mut at = 0u32;
    let mut left = locals;
    while let Some((other, more)) = left.split_first() {
        if *other == local {
            break;
        }
        at = plus(at, 1)?;
        left = more;
    }
    Ok(at)
}

fn times(local: u32, locals: &[u32]) -> Result<u32, NoMemory>
    ensures { IfOk result (λ n. n ≡ times local locals.now) }
{
    let mut sum = 0u32;
    let mut left = locals;
    while let Some((other, more)) = left.split_first() {
        if *other == local {
            sum = plus(sum, 1)?;
        }
        left = more;
    }
    Ok(sum)
}

// The locals that are handed over, and then the others that are filled.
fn order_of(alloc: Global, handed: &[u32], filled: &[u32]) -> Result<Items<u32>, NoMemory>
    ensures { IfOk result (λ order. order ≡ order_of handed.now filled.now) }
{
    let mut order = Items::from_slice(alloc, handed)?;
    let mut left = filled;
    while let Some((local, more)) = left.split_first() {
        if !member(*local, handed) {
            order.push(*local)?;
        }
        left = more;
    }
    Ok(order)
}

fn slots_of(alloc: Global, fun: &CoreFun) -> Result<Slots, NoMemory>
    ensures { IfOk result (λ s. s ≡ slots_of (fun_of fun.now)) }
{
    let lent = count(fun.lent.len())?;
    let stmts = fun.body.as_slice();
    let mut handed = Items::new(alloc);
    handed_all(stmts, &mut handed)?;
    let mut filled = Items::new(alloc);
    filled_all(stmts, &mut filled)?;
    let mut inner = Items::new(alloc);
    inner_all(stmts, &mut inner)?;
    let order = order_of(alloc, handed.as_slice(), filled.as_slice())?;
    Ok(Slots {
        lent,
        filled,
        order,
        inner,
    })
}

// HOMES

fn inner_slot(slots: &Slots) -> Result<u32, NoMemory>
    ensures { IfOk result (λ n. n ≡ inner_slot slots.now) }
{
    plus(slots.lent, count(slots.order.len())?)
}

fn first_free(slots: &Slots) -> Result<u32, NoMemory>
    ensures { IfOk result (λ n. n ≡ first_free slots.now) }
{
    plus(inner_slot(slots)?, count(slots.inner.len())?)
}

fn is_reference(slots: &Slots, local: u32) -> bool
    ensures { result ≡ is_reference slots.now local }
{
    local < slots.lent || member(local, slots.filled.as_slice())
}

fn slot_home(slots: &Slots, local: u32) -> Result<Home, NoMemory>
    ensures { IfOk result (λ home. home ≡ slot_home slots.now local) }
{
    if local < slots.lent {
        return Ok(Home::Slot {
            slot: local,
            first: 0,
            count: 0,
        });
    }
    let slot = plus(slots.lent, place_in(local, slots.order.as_slice())?)?;
    let inner = slots.inner.as_slice();
    let first = plus(inner_slot(slots)?, place_in(local, inner)?)?;
    Ok(Home::Slot {
        slot,
        first,
        count: times(local, inner)?,
    })
}

fn home(slots: &Slots, local: u32, word: u32) -> Result<Home, NoMemory>
    ensures { IfOk result (λ home. home ≡ cond (is_reference slots.now local) (slot_home slots.now local) (Words word)) }
{
    if is_reference(slots, local) {
        slot_home(slots, local)
    } else {
        Ok(Home::Words(word))
    }
}

fn width(slots: &Slots, sizes: &[u32], local: u32, t: TyId) -> u32
    ensures { result ≡ width slots.now sizes.now local t }
{
    if is_reference(slots, local) {
        0
    } else {
        size_of(sizes, t)
    }
}

// Appends the homes of locals, and gives the first word after them.
fn append_homes(
    slots: &Slots,
    sizes: &[u32],
    locals: &[TyId],
    out: &mut Items<Home>,
) -> Result<u32, NoMemory>
    ensures homes { OnOk result (out.new ≡ out.old ++ homes_from slots.now sizes.now 0 0 locals.now) }
    ensures words { IfOk result (λ n. n ≡ words_from slots.now sizes.now 0 locals.now) }
{
    let mut local = 0u32;
    let mut word = 0u32;
    let mut left = locals;
    while let Some((t, more)) = left.split_first() {
        out.push(home(slots, local, word)?)?;
        word = plus(word, width(slots, sizes, local, *t))?;
        local = plus(local, 1)?;
        left = more;
    }
    Ok(word)
}

// FRAMES

fn append_types(out: &mut Items<TyId>, types: &[TyId]) -> Result<(), NoMemory>
    ensures { OnOk result (out.new ≡ out.old ++ types.now) }
{
    let mut left = types;
    while let Some((t, more)) = left.split_first() {
        out.push(*t)?;
        left = more;
    }
    Ok(())
}

fn append_lent(out: &mut Items<TyId>, lent: &[CoreParameter]) -> Result<(), NoMemory>
    ensures { OnOk result (out.new ≡ out.old ++ types_of (map parameter_of lent.now)) }
{
    let mut left = lent;
    while let Some((parameter, more)) = left.split_first() {
        out.push(parameter.ty)?;
        left = more;
    }
    Ok(())
}

fn locals_of(alloc: Global, fun: &CoreFun) -> Result<Items<TyId>, NoMemory>
    ensures { IfOk result (λ locals. locals ≡ locals_of (fun_of fun.now)) }
{
    let mut locals = Items::new(alloc);
    append_lent(&mut locals, fun.lent.as_slice())?;
    append_types(&mut locals, fun.owned.as_slice())?;
    append_types(&mut locals, fun.locals.as_slice())?;
    Ok(locals)
}

/// The body of a function, with the homes of its locals.
pub(crate) fn body_of<'a>(
    alloc: Global,
    types: &'a TyTable,
    sizes: &'a [u32],
    fun: &CoreFun,
) -> Result<Body<'a>, NoMemory>
    ensures { IfOk result (λ b. frame b ≡ frame_of types.now sizes.now (fun_of fun.now)) }
{
    let slots = slots_of(alloc, fun)?;
    let locals = locals_of(alloc, fun)?;
    let mut placed = Items::new(alloc);
    let scratch = append_homes(&slots, sizes, locals.as_slice(), &mut placed)?;
    let slot = first_free(&slots)?;
    Ok(Body {
        alloc,
        types,
        sizes,
        locals,
        homes: placed,
        scratch,
        slot,
    })
}

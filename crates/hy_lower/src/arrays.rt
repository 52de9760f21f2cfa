// Where the arrays of a type stand in the words of its values.
ghost use Rattle.std.specs.Prelude.{◌≡◌, ◌++◌, Some, IfOk, OnOk};
ghost use Rattle.hy_lower.specs.Arrays.{arrays_below, arrays_in, arrays_of_parts};

use crate::numbers::{count, element_of, parts_of, plus, size_of};
use hy_base::NoMemory;
use hy_types::{TyId, TyTable};
use sqlite_items::Items;
use std::alloc::Global;

/// The words at which the arrays of a type stand, in order.
pub(crate) fn arrays_in(
    alloc: Global,
    types: &TyTable,
    sizes: &[u32],
    t: Option<TyId>,
) -> Result<Items<u32>, NoMemory>
    ensures { IfOk result (λ found. found ≡ arrays_in types.now sizes.now t) }
{
    match t {
        None => Ok(Items::new(alloc)),
        Some(t) => arrays_of(alloc, types, sizes, t),
    }
}

fn arrays_of(alloc: Global, types: &TyTable, sizes: &[u32], t: TyId) -> Result<Items<u32>, NoMemory>
    ensures { IfOk result (λ found. found ≡ arrays_in types.now sizes.now (Some t)) }
{
    let depth = plus(count(sizes.len())?, 1)?;
    let mut found = Items::new(alloc);
    arrays_below(types, sizes, depth, 0, t, &mut found)?;
    Ok(found)
}

#[cycle(arrays)]
fn arrays_below(
    types: &TyTable,
    sizes: &[u32],
    depth: u32,
    offset: u32,
    t: TyId,
    found: &mut Items<u32>,
) -> Result<(), NoMemory>
    ensures { OnOk result (found.new ≡ found.old ++ arrays_below types.now sizes.now depth offset t) }
{
    if depth == 0 || size_of(sizes, t) == 0 {
        return Ok(());
    }
    match element_of(types, t) {
        Some(_) => {
            found.push(offset)?;
            Ok(())
        }
        None => arrays_of_parts(types, sizes, depth - 1, offset, parts_of(types, t), found),
    }
}

#[cycle(arrays)]
fn arrays_of_parts(
    types: &TyTable,
    sizes: &[u32],
    depth: u32,
    offset: u32,
    parts: &[TyId],
    found: &mut Items<u32>,
) -> Result<(), NoMemory>
    ensures { OnOk result (found.new ≡ found.old ++ arrays_of_parts (arrays_below types.now sizes.now depth) sizes.now offset parts.now) }
{
    let mut at = offset;
    let mut left = parts;
    while let Some((t, more)) = left.split_first() {
        arrays_below(types, sizes, depth, at, *t, found)?;
        at = plus(at, size_of(sizes, *t))?;
        left = more;
    }
    Ok(())
}

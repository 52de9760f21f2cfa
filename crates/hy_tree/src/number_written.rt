// Numbers for the nodes of written types.
ghost use Rattle.hy_tree.specs.Denotes.{type_kind_of, type_of, types_of};
ghost use Rattle.hy_tree.specs.Numbering.{IsNumberedFrom, IsKindNumberedFrom};
ghost use Rattle.hy_tree.specs.Numbers as numbers;
ghost use Rattle.hy_tree.specs.Numbers.{count_type, count_types};

use crate::numbering::{copy_name, take};
use crate::written::{TypeExp, TypeKind};
use hy_base::NoMemory;
use sqlite_items::{Boxed, Items};
use std::alloc::Global;

/// The same type, with its nodes numbered from `next` on.
#[cycle(types)]
pub fn number_type(alloc: Global, next: &mut u32, written: &TypeExp) -> Result<TypeExp, NoMemory>
    ensures { IsNumberedFrom type_of count_type numbers.number_type next.old written.now result next.new }
{
    let node = take(next)?;
    let kind = number_type_kind(alloc, next, &written.kind)?;
    Ok(TypeExp {
        kind,
        span: written.span,
        node,
    })
}

#[cycle(types)]
#[tactic(auto, using(crate::proofs::Equations::type_variants, crate::proofs::Counts::type_lists))]
fn number_type_kind(alloc: Global, next: &mut u32, kind: &TypeKind) -> Result<TypeKind, NoMemory>
    ensures { IsKindNumberedFrom type_kind_of count_type numbers.number_type next.old kind.now result next.new }
{
    match kind {
        TypeKind::Name(name) => Ok(TypeKind::Name(copy_name(alloc, name)?)),
        TypeKind::SelfType(token) => Ok(TypeKind::SelfType(*token)),
        TypeKind::Array(element) => {
            let element = number_type(alloc, next, element.get())?;
            Ok(TypeKind::Array(Boxed::new(alloc, element)?))
        }
        TypeKind::Tuple(parts) => Ok(TypeKind::Tuple(number_types(alloc, next, parts.as_slice())?)),
    }
}

#[cycle(types)]
#[tactic(auto, using(crate::proofs::Counts::type_lists))]
fn number_types(
    alloc: Global,
    next: &mut u32,
    parts: &[TypeExp],
) -> Result<Items<TypeExp>, NoMemory>
    ensures { IsNumberedFrom types_of count_types numbers.number_types next.old parts.now result next.new }
{
    let mut made = Items::new(alloc);
    for part in parts {
        made.push(number_type(alloc, next, part)?)?;
    }
    Ok(made)
}

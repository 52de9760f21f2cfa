// Written types.
ghost use Rattle.std.specs.Prelude.{◌≡◌, [], IfOk, IfSome, Option};
ghost use Rattle.std.specs.Option.{option_map, unwrap_or};
ghost use Rattle.hy_tree.specs.Denotes.{type_of, types_of};
ghost use Rattle.hy_types.specs.Types as Y;
ghost use Rattle.hy_types.specs.Types.{PlainType, HasIds, Extends, mentioned, type_of_row};
ghost use Rattle.hy_types.specs.declared.kinds.TyId.{TyId};
ghost use Rattle.hy_signatures.specs.Declarations as declarations;
ghost use Rattle.hy_signatures.specs.Declarations.{type_meant, written_type, written_types};
ghost use Rattle.hy_signatures.specs.Numbered.{IsNumber, AreNumbers};
ghost use Rattle.hy_signatures.specs.PlainTypes.{unit};
ghost use Rattle.hy_signatures.specs.Shown.{source_shown};

use crate::named::type_named;
use crate::source::Source;
use crate::types::Types;
use hy_base::NoMemory;
use hy_tree::{TypeExp, TypeKind};
use hy_types::{Ty, TyId, TyList};
use std::alloc::Global;

/// The number of a written type.
#[cycle(written)]
#[tactic(auto, using(hy_tree::proofs::Equations::type_variants))]
pub fn number_written(
    alloc: Global,
    source: &Source,
    types: &mut Types,
    written: &TypeExp,
) -> Result<TyId, NoMemory>
    ensures number { IfOk result (λ id. IsNumber types.new (written_type (source_shown source.now) (type_of written.now)) id) }
    ensures stays { Extends types.old types.new }
{
    match &written.kind {
        TypeKind::Name(_) => types.number_named(type_named(source.meaning(written.node))),
        TypeKind::SelfType(_) => types.number_named(type_named(source.meaning(written.node))),
        TypeKind::Array(element) => {
            let element = number_written(alloc, source, types, element.get())?;
            types.number(Ty::Array(element))
        }
        TypeKind::Tuple(parts) => {
            let parts = number_all(alloc, source, types, parts.as_slice())?;
            types.number(Ty::Tuple(parts))
        }
    }
}

#[cycle(written)]
fn number_all(
    alloc: Global,
    source: &Source,
    types: &mut Types,
    parts: &[TypeExp],
) -> Result<TyList, NoMemory>
    ensures numbers { IfOk result (λ ids. AreNumbers types.new (written_types (source_shown source.now) (types_of parts.now)) ids) }
    ensures stays { Extends types.old types.new }
{
    let mut ids = Vec::new(alloc);
    for part in parts {
        ids.push(number_written(alloc, source, types, part)?)?;
    }
    Ok(TyList::from_vec(ids))
}

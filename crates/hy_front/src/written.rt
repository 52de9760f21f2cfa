// Written types.
ghost use Rattle.std.specs.Prelude.{◌≡◌};
ghost use Rattle.std.specs.Option.{option_map};
ghost use Rattle.hy_tree.specs.Denotes.{type_of, types_of};
ghost use Rattle.hy_front.specs.Noted.{after};
ghost use Rattle.hy_front.specs.Unbuilt.{in_type, in_types, in_written};

use crate::least::meet;
use hy_base::BrokenRule;
use hy_tree::{TypeExp, TypeKind};

/// Looks at a type.
#[cycle(written)]
#[tactic(auto, using(hy_tree::proofs::Equations::type_variants))]
pub fn look_at_type(first: Option<BrokenRule>, written: &TypeExp) -> Option<BrokenRule>
    ensures { result ≡ after (in_type (type_of written.now)) first }
{
    let first = meet(first, written.span);
    match &written.kind {
        TypeKind::Name(_name) => first,
        TypeKind::SelfType(_token) => first,
        TypeKind::Array(element) => look_at_type(first, element.get()),
        TypeKind::Tuple(parts) => look_at_types(first, parts.as_slice()),
    }
}

#[cycle(written)]
fn look_at_types(first: Option<BrokenRule>, parts: &[TypeExp]) -> Option<BrokenRule>
    ensures { result ≡ after (in_types (types_of parts.now)) first }
{
    let mut first = first;
    for part in parts {
        first = look_at_type(first, part);
    }
    first
}

/// Looks at a type that may be left out.
pub fn look_at_written(first: Option<BrokenRule>, written: &Option<TypeExp>) -> Option<BrokenRule>
    ensures { result ≡ after (in_written (option_map type_of written.now)) first }
{
    match written {
        Some(written) => look_at_type(first, written),
        None => first,
    }
}

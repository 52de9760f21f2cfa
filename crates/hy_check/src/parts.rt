// Types of several parts.
ghost use Rattle.std.specs.Prelude.{◌≡◌, IfOk, IfSome, map};
ghost use Rattle.std.specs.Option.{option_map};
ghost use Rattle.hy_types.specs.Types.{Table, HasId, HasIds, type_of};
ghost use Rattle.hy_signatures.specs.WantedShown.{wanted_shown, type_shown, IsWanted};
ghost use Rattle.hy_check.specs.Typing as typing;
ghost use Rattle.hy_check.specs.Typing.{Around, typed};
ghost use Rattle.hy_check.specs.ValuesShown.{HaveValues, exprs_in};

use crate::value::Part;
use hy_base::NoMemory;
use hy_signatures::types::Types;
use hy_signatures::wanted::Wanted;
use hy_types::TyId;
use std::alloc::Global;

/// The types of parts, where each has one.
pub fn all_there(alloc: Global, parts: &[Part]) -> Result<Option<Vec<TyId>>, NoMemory>
    ensures types { IfOk result (λ ids. (table : Table) (around : Around) → HaveValues table around parts.now
        → option_map (λ ids. map (type_of table) ids.items) ids ≡ typing.all_there (map (typed around) (exprs_in parts.now))) }
    ensures known { IfOk result (λ ids. (table : Table) (around : Around) → HaveValues table around parts.now
        → IfSome ids (λ ids. HasIds table ids.items)) }
{
    let mut ids = Vec::new(alloc);
    for part in parts {
        let Some(v) = part.value else {
            return Ok(None);
        };
        ids.push(v.id)?;
    }
    Ok(Some(ids))
}

/// Whether each part has a wanted type.
pub fn all_fit(types: &Types, wanted: Wanted, parts: &[Part]) -> bool
    requires wanted { IsWanted types.now wanted }
    requires parts { (around : Around) × HaveValues types.now around parts.now }
    ensures { (around : Around) → HaveValues types.now around parts.now
        → result ≡ typing.all_fit (wanted_shown types.now wanted) (map (typed around) (exprs_in parts.now)) }
{
    for part in parts {
        let Some(v) = part.value else {
            return false;
        };
        if !types.fits(wanted, v.id) {
            return false;
        }
    }
    true
}

/// The type of the first part, where all others have it too.
pub fn common(types: &Types, parts: &[Part]) -> Option<TyId>
    requires { (around : Around) × HaveValues types.now around parts.now }
    ensures common { (around : Around) → HaveValues types.now around parts.now
        → type_shown types.now result ≡ typing.common (map (typed around) (exprs_in parts.now)) }
    ensures known { IfSome result (λ id. HasId types.now id) }
{
    let Some((first, more)) = parts.split_first() else {
        return None;
    };
    let Some(v) = first.value else {
        return None;
    };
    if all_fit(types, Wanted::Exactly(v.id), more) {
        return Some(v.id);
    }
    None
}

// The tables of a source: what can be called, members of types, and members of traits.
ghost use Rattle.std.specs.Prelude.{IfOk, OnOk};
ghost use Rattle.hy_types.specs.Types.{Extends};
ghost use Rattle.hy_signatures.specs.Shown.{source_shown};
ghost use Rattle.hy_signatures.specs.TablesShown.{AreTables};

use crate::callables::{Callables, callables_of};
use crate::owners::{Owners, owners_of};
use crate::source::Source;
use crate::traits::{Traits, traits_of};
use crate::types::Types;
use hy_base::NoMemory;
use std::alloc::Global;

/// What the declarations of a source say, by node and by name.
#[derive(Drop)]
pub struct Tables<'a> {
    /// What can be called, by the node of its declaration.
    pub callables: Callables<'a>,
    /// The members of each type that a name stands for.
    pub owners: Owners<'a>,
    /// The members of each trait.
    pub traits: Traits<'a>,
}

/// The tables of a source.
pub fn tables_of<'a>(
    alloc: Global,
    source: &Source<'a>,
    types: &mut Types,
) -> Result<Tables<'a>, NoMemory>
    ensures tables { IfOk result (λ tables. AreTables types.new (source_shown source.now) tables) }
    ensures stays { OnOk result (Extends types.old types.new) }
{
    let callables = callables_of(alloc, source, types)?;
    let owners = owners_of(alloc, source, types)?;
    let traits = traits_of(alloc, source, types)?;
    Ok(Tables {
        callables,
        owners,
        traits,
    })
}

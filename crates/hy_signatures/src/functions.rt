// Signatures of what names of the file call.
ghost use Rattle.std.specs.Option.{option_map};
ghost use Rattle.std.specs.Prelude.{IfOk};
ghost use Rattle.hy_types.specs.Types.{Table};
ghost use Rattle.hy_signatures.specs.CallablesShown.{AreCallables};
ghost use Rattle.hy_signatures.specs.Declarations as declarations;
ghost use Rattle.hy_signatures.specs.Declarations.{callable_at};
ghost use Rattle.hy_signatures.specs.Signatures.{function_of};
ghost use Rattle.hy_signatures.specs.SignaturesShown.{IsPerhaps};

use crate::callables::Callables;
use crate::signatures::{Receiver, Signature, declared_signature};
use hy_base::NoMemory;
use std::alloc::Global;

/// The signature of the function or subscript of the file that is declared at a node.
pub fn function_at(
    alloc: Global,
    callables: &Callables,
    node: u32,
) -> Result<Option<Signature>, NoMemory>
    requires { (table : Table) × (source : declarations.Source) × AreCallables table source callables.now }
    ensures { IfOk result (λ s. (table : Table) (source : declarations.Source) → AreCallables table source callables.now
        → IsPerhaps table (option_map (function_of source) (callable_at node source.decls)) s) }
{
    match callables.at(node) {
        Some(row) => {
            let s = declared_signature(alloc, Receiver::Nothing, row)?;
            Ok(Some(s))
        }
        None => Ok(None),
    }
}

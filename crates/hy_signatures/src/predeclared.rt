// Signatures of what the language declares.
ghost use Rattle.std.specs.Prelude.{◌≡◌, [], ◌∷◌, List, IfOk, map};
ghost use Rattle.hy_types.specs.Types.{Table, Bool, Int, Product, HasId, type_of};
ghost use Rattle.hy_signatures.specs.Declarations.{Field};
ghost use Rattle.hy_signatures.specs.MembersShown.{HasFields};
ghost use Rattle.hy_signatures.specs.Numbered.{IsNumber};
ghost use Rattle.hy_tree.specs.declared.predeclared.TheConstants as number;
ghost use Rattle.hy_signatures.specs.declared.signatures.Convention.TheVariants as convention;
ghost use Rattle.hy_signatures.specs.PlainTypes.{unit};
ghost use Rattle.hy_signatures.specs.Signatures as signatures;
ghost use Rattle.hy_signatures.specs.Signatures.{parameter, predeclared};
ghost use Rattle.hy_signatures.specs.SignaturesShown.{IsSignature, field_parameter};

use crate::members::FieldType;
use crate::signatures::{
    Callee, Convention, Parameter, Receiver, Signature, predeclared_signature,
};
use crate::types::Types;
use crate::wanted::Wanted;
use hy_base::NoMemory;
use hy_tree::Mode;
use hy_tree::predeclared::{PRECONDITION, PRINT, READ};
use hy_types::TyId;
use std::alloc::Global;

/// One parameter that is only read.
pub(crate) fn one_read(alloc: Global, wanted: Wanted) -> Result<Vec<Parameter>, NoMemory>
    ensures { IfOk result (λ params. params.items ≡ record { wanted = wanted; convention = convention.Reads } ∷ []) }
{
    let mut params = Vec::new(alloc);
    params.push(Parameter {
        wanted,
        convention: Convention::Reads,
    })?;
    Ok(params)
}

/// `print(_:)`, which takes an integer or a truth value.
pub fn print_signature(alloc: Global, types: &Types) -> Result<Signature, NoMemory>
    ensures { IfOk result (λ s. IsSignature types.now (predeclared (signatures.Predeclared number.PRINT) signatures.NoReceiver
        (parameter signatures.AnIntegerOrBool signatures.Reads ∷ []) unit) s) }
{
    let params = one_read(alloc, Wanted::IntegerOrTruth)?;
    let callee = Callee::Predeclared(PRINT);
    let s = predeclared_signature(alloc, callee, Receiver::Nothing, params, types.unit())?;
    Ok(s)
}

/// `read()`, which gives an `Int`.
pub fn read_signature(alloc: Global, types: &Types) -> Result<Signature, NoMemory>
    ensures { IfOk result (λ s. IsSignature types.now (predeclared (signatures.Predeclared number.READ) signatures.NoReceiver [] Int) s) }
{
    let params = Vec::new(alloc);
    let callee = Callee::Predeclared(READ);
    let s = predeclared_signature(alloc, callee, Receiver::Nothing, params, types.int())?;
    Ok(s)
}

/// `precondition(_:)`, which takes a truth value.
pub fn precondition_signature(alloc: Global, types: &Types) -> Result<Signature, NoMemory>
    ensures { IfOk result (λ s. IsSignature types.now (predeclared (signatures.Predeclared number.PRECONDITION) signatures.NoReceiver
        (parameter (signatures.Exactly Bool) signatures.Reads ∷ []) unit) s) }
{
    let params = one_read(alloc, Wanted::Exactly(types.truth()))?;
    let callee = Callee::Predeclared(PRECONDITION);
    let s = predeclared_signature(alloc, callee, Receiver::Nothing, params, types.unit())?;
    Ok(s)
}

/// `K(e)`, which gives an integer as a value of another integer type.
pub fn conversion_signature(alloc: Global, types: &Types, to: TyId) -> Result<Signature, NoMemory>
    requires { HasId types.now to }
    ensures { IfOk result (λ s. IsSignature types.now (predeclared (signatures.Conversion (type_of types.now to)) signatures.NoReceiver
        (parameter signatures.AnInteger signatures.Reads ∷ []) (type_of types.now to)) s) }
{
    let params = one_read(alloc, Wanted::Integer)?;
    let callee = Callee::Conversion(to);
    let s = predeclared_signature(alloc, callee, Receiver::Nothing, params, to)?;
    Ok(s)
}

/// A parameter for each field, to which its value is moved.
fn field_parameters(alloc: Global, fields: &[FieldType]) -> Result<Vec<Parameter>, NoMemory>
    ensures { IfOk result (λ params. params.items ≡ map field_parameter fields.now) }
{
    let mut params = Vec::new(alloc);
    for field in fields {
        params.push(Parameter {
            wanted: Wanted::Exactly(field.number),
            convention: Convention::By(Mode::Sink),
        })?;
    }
    Ok(params)
}

/// `P(x: .., y: ..)`, which builds the product at a node, of these fields and with this number.
pub fn initialiser_signature(
    alloc: Global,
    node: u32,
    fields: &[FieldType],
    product: TyId,
) -> Result<Signature, NoMemory>
    ensures { IfOk result (λ s. (table : Table) (list : List Field) → HasFields table list fields.now → IsNumber table (Product node) product
        → IsSignature table (signatures.initialiser node list) s) }
{
    let params = field_parameters(alloc, fields)?;
    let callee = Callee::Initialiser(node);
    let s = predeclared_signature(alloc, callee, Receiver::Nothing, params, product)?;
    Ok(s)
}

// Signatures of the members of arrays, of `copy()` and of elements.
ghost use Rattle.std.specs.Prelude.{◌≡◌, [], ◌∷◌, List, IfOk};
ghost use Rattle.hy_tree.specs.declared.operator.Mode.TheVariants as mode;
ghost use Rattle.hy_tree.specs.declared.predeclared.TheConstants as number;
ghost use Rattle.hy_types.specs.Types.{Table, Int, HasId, PlainType, type_of};
ghost use Rattle.hy_signatures.specs.Numbered.{IsNumber};
ghost use Rattle.hy_signatures.specs.PlainTypes.{unit};
ghost use Rattle.hy_signatures.specs.Signatures as signatures;
ghost use Rattle.hy_signatures.specs.Signatures.{an_index, changing, copying, element_of, parameter, predeclared};
ghost use Rattle.hy_signatures.specs.SignaturesShown.{IsPerhaps, IsSignature, ParametersAre};
ghost use Rattle.hy_signatures.specs.declared.signatures.Convention.TheVariants as convention;
ghost use Rattle.hy_signatures.specs.declared.wanted.Wanted.TheVariants as wanted;

use crate::predeclared::one_read;
use crate::signatures::{
    Callee, Convention, Parameter, Receiver, Signature, one_mode, predeclared_signature,
};
use crate::types::Types;
use crate::wanted::Wanted;
use hy_base::NoMemory;
use hy_tree::Mode;
use hy_tree::predeclared::{APPEND, COPY, COUNT, REMOVE_LAST, SWAP_AT};
use hy_types::TyId;
use std::alloc::Global;

/// A predeclared member that changes the array.
fn changing_signature(
    alloc: Global,
    number: u32,
    params: Vec<Parameter>,
    gives: TyId,
) -> Result<Signature, NoMemory>
    ensures { IfOk result (λ s. (table : Table) (wanted : List signatures.Parameter) (type : PlainType) → ParametersAre table wanted params.items
        → IsNumber table type gives → IsSignature table (changing number wanted type) s) }
{
    let callee = Callee::Predeclared(number);
    let mut s = predeclared_signature(alloc, callee, Receiver::Itself, params, gives)?;
    s.variants = one_mode(alloc, Mode::Inout)?;
    Ok(s)
}

/// One parameter of a type, to which a value is moved.
fn one_sink(alloc: Global, id: TyId) -> Result<Vec<Parameter>, NoMemory>
    ensures { IfOk result (λ params. params.items ≡ record { wanted = wanted.Exactly id; convention = convention.By mode.Sink } ∷ []) }
{
    let mut params = Vec::new(alloc);
    params.push(Parameter {
        wanted: Wanted::Exactly(id),
        convention: Convention::By(Mode::Sink),
    })?;
    Ok(params)
}

/// Two parameters of a type, to which values are lent.
fn two_lent(alloc: Global, id: TyId) -> Result<Vec<Parameter>, NoMemory>
    ensures { IfOk result (λ params. params.items ≡ record { wanted = wanted.Exactly id; convention = convention.By mode.Let }
        ∷ record { wanted = wanted.Exactly id; convention = convention.By mode.Let } ∷ []) }
{
    let lent = Parameter {
        wanted: Wanted::Exactly(id),
        convention: Convention::By(Mode::Let),
    };
    let mut params = Vec::new(alloc);
    params.push(lent)?;
    params.push(lent)?;
    Ok(params)
}

/// `append(_:)`, which takes an element.
fn append_signature(alloc: Global, types: &Types, element: TyId) -> Result<Signature, NoMemory>
    requires { HasId types.now element }
    ensures { IfOk result (λ s. IsSignature types.now (changing number.APPEND
        (parameter (signatures.Exactly (type_of types.now element)) (signatures.By mode.Sink) ∷ []) unit) s) }
{
    let params = one_sink(alloc, element)?;
    let s = changing_signature(alloc, APPEND, params, types.unit())?;
    Ok(s)
}

/// `remove_last()`, which gives an element.
fn remove_last_signature(alloc: Global, types: &Types, element: TyId) -> Result<Signature, NoMemory>
    requires { HasId types.now element }
    ensures { IfOk result (λ s. IsSignature types.now (changing number.REMOVE_LAST [] (type_of types.now element)) s) }
{
    let params = Vec::new(alloc);
    let s = changing_signature(alloc, REMOVE_LAST, params, element)?;
    Ok(s)
}

/// `swap_at(_:_:)`, which takes two indices.
fn swap_at_signature(alloc: Global, types: &Types) -> Result<Signature, NoMemory>
    ensures { IfOk result (λ s. IsSignature types.now (changing number.SWAP_AT (an_index ∷ an_index ∷ []) unit) s) }
{
    let params = two_lent(alloc, types.int())?;
    let s = changing_signature(alloc, SWAP_AT, params, types.unit())?;
    Ok(s)
}

/// A member of arrays that is called by a full name.
pub fn array_member(
    alloc: Global,
    types: &Types,
    element: TyId,
    name: &[u8],
) -> Result<Option<Signature>, NoMemory>
    requires { HasId types.now element }
    ensures { IfOk result (λ s. IsPerhaps types.now (signatures.array_member (type_of types.now element) name.now) s) }
{
    if name == b"append(_:)".as_slice() {
        let s = append_signature(alloc, types, element)?;
        return Ok(Some(s));
    }
    if name == b"remove_last()".as_slice() {
        let s = remove_last_signature(alloc, types, element)?;
        return Ok(Some(s));
    }
    if name == b"swap_at(_:_:)".as_slice() {
        let s = swap_at_signature(alloc, types)?;
        return Ok(Some(s));
    }
    Ok(None)
}

/// `copy()`, which gives a value of the type that it is called on.
pub fn copy_signature(alloc: Global, types: &Types, id: TyId) -> Result<Signature, NoMemory>
    requires { HasId types.now id }
    ensures { IfOk result (λ s. IsSignature types.now (copying (type_of types.now id)) s) }
{
    let params = Vec::new(alloc);
    let callee = Callee::Predeclared(COPY);
    let s = predeclared_signature(alloc, callee, Receiver::Read, params, id)?;
    Ok(s)
}

/// `count`, which gives an `Int`.
pub fn count_signature(alloc: Global, types: &Types) -> Result<Signature, NoMemory>
    ensures { IfOk result (λ s. IsSignature types.now (predeclared (signatures.Predeclared number.COUNT) signatures.ReadReceiver [] Int) s) }
{
    let params = Vec::new(alloc);
    let callee = Callee::Predeclared(COUNT);
    let s = predeclared_signature(alloc, callee, Receiver::Read, params, types.int())?;
    Ok(s)
}

/// An element of an array, by its index.
pub fn element_signature(alloc: Global, types: &Types, element: TyId) -> Result<Signature, NoMemory>
    requires { HasId types.now element }
    ensures { IfOk result (λ s. IsSignature types.now (element_of (type_of types.now element)) s) }
{
    let params = one_read(alloc, Wanted::Exactly(types.int()))?;
    let callee = Callee::Element;
    let mut s = predeclared_signature(alloc, callee, Receiver::OfElement, params, element)?;
    s.is_subscript = true;
    Ok(s)
}

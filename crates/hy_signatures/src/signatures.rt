// What is called, with its parameters.
ghost use Rattle.std.specs.Prelude.{◌≡◌, ◌&&◌, [], ◌∷◌, List, not, map, IfOk};
ghost use Rattle.hy_tree.specs.Denotes.{callable_of, variant_of};
ghost use Rattle.hy_tree.specs.Parts.{is_bundle};
ghost use Rattle.hy_types.specs.Types.{Table, HasId, PlainType, type_of};
ghost use Rattle.hy_signatures.specs.Numbered.{IsNumber};
ghost use Rattle.hy_signatures.specs.CallablesShown.{HasTypes};
ghost use Rattle.hy_signatures.specs.Declarations as declarations;
ghost use Rattle.hy_signatures.specs.Signatures as signatures;
ghost use Rattle.hy_signatures.specs.Signatures.{modes_of, parameters_of};
ghost use Rattle.hy_signatures.specs.SignaturesShown.{ParametersAre, IsSignature, callee_shown, receiver_shown};

use crate::callables::CallableTypes;
use crate::wanted::Wanted;
use hy_base::NoMemory;
use hy_tree::{Callable, CallableKind, Mode, Variant};
use hy_types::TyId;
use std::alloc::Global;

/// How a call takes an argument: it only reads it, or by a convention.
#[derive(Clone, Copy)]
pub enum Convention {
    Reads,
    By(Mode),
}

/// A parameter of what is called.
#[derive(Clone, Copy)]
pub struct Parameter {
    pub wanted: Wanted,
    pub convention: Convention,
}

/// What a call is called on: nothing; a value that is only read; `self`; or the array that has the element.
#[derive(Clone, Copy)]
pub enum Receiver {
    Nothing,
    Read,
    Itself,
    OfElement,
}

/// What is called.
#[derive(Clone, Copy)]
pub enum Callee {
    /// A function, method or subscript, by the node of its declaration.
    Declared(u32),
    /// The requirement at a node, of the type parameter at this place.
    Required(u32, u32),
    /// A predeclared function or member, by its number.
    Predeclared(u32),
    /// The memberwise initialiser of the product at a node.
    Initialiser(u32),
    /// A conversion to an integer type.
    Conversion(TyId),
    /// An element of an array, which is no call.
    Element,
}

/// What is called, before its arguments are looked at.
#[derive(Drop)]
pub struct Signature {
    pub callee: Callee,
    /// How many type parameters it has.
    pub generics: usize,
    /// The type for the first type parameter, where it is known beforehand: `Self` of a requirement.
    pub known: Option<TyId>,
    pub receiver: Receiver,
    /// The variants that are declared.
    pub variants: Vec<Mode>,
    pub params: Vec<Parameter>,
    pub result: TyId,
    /// Whether it gives a place.
    pub is_subscript: bool,
    /// Whether its `inout` variant returns nothing.
    pub is_bundle: bool,
}

/// The parameters of what is declared.
pub fn declared_parameters(alloc: Global, row: &CallableTypes) -> Result<Vec<Parameter>, NoMemory>
    requires { (table : Table) × (source : declarations.Source) × HasTypes table source (callable_of row.now.callable.now) row.now }
    ensures { IfOk result (λ made. (table : Table) (source : declarations.Source) → HasTypes table source (callable_of row.now.callable.now) row.now
        → ParametersAre table (parameters_of source (callable_of row.now.callable.now).params) made.items) }
{
    let params = row.callable.params.as_slice();
    let numbers = row.params.as_slice();
    let mut made = Vec::new(alloc);
    for k in 0..params.len() {
        let p = &params[k];
        made.push(Parameter {
            wanted: Wanted::Exactly(numbers[k]),
            convention: Convention::By(p.mode),
        })?;
    }
    Ok(made)
}

/// The variants that are declared.
fn modes(alloc: Global, variants: &[Variant]) -> Result<Vec<Mode>, NoMemory>
    ensures { IfOk result (λ modes. modes.items ≡ modes_of (map variant_of variants.now)) }
{
    let mut modes = Vec::new(alloc);
    for v in variants {
        modes.push(v.mode)?;
    }
    Ok(modes)
}

fn is_subscript_kind(kind: CallableKind) -> bool
    ensures { result ≡ signatures.is_subscript_kind kind }
{
    match kind {
        CallableKind::Subscript => true,
        CallableKind::Function | CallableKind::Deinit | CallableKind::Requirement => false,
    }
}

/// Whether it is a method bundle, whose `inout` variant returns nothing.
fn is_method_bundle(c: &Callable) -> bool
    ensures { result ≡ (is_bundle (callable_of c.now) && not (signatures.is_subscript_kind c.now.kind)) }
{
    c.is_bundle() && !is_subscript_kind(c.kind)
}

/// The signature of what is declared.
pub fn declared_signature(
    alloc: Global,
    receiver: Receiver,
    row: &CallableTypes,
) -> Result<Signature, NoMemory>
    requires { (table : Table) × (source : declarations.Source) × HasTypes table source (callable_of row.now.callable.now) row.now }
    ensures { IfOk result (λ s. (table : Table) (source : declarations.Source) → HasTypes table source (callable_of row.now.callable.now) row.now
        → IsSignature table (signatures.declared source (receiver_shown receiver) (callable_of row.now.callable.now)) s) }
{
    let c = row.callable;
    let params = declared_parameters(alloc, row)?;
    let variants = modes(alloc, c.variants.as_slice())?;
    Ok(Signature {
        callee: Callee::Declared(c.node),
        generics: c.generics.as_slice().len(),
        known: None,
        receiver,
        variants,
        params,
        result: row.result,
        is_subscript: is_subscript_kind(c.kind),
        is_bundle: is_method_bundle(c),
    })
}

/// One variant.
pub(crate) fn one_mode(alloc: Global, mode: Mode) -> Result<Vec<Mode>, NoMemory>
    ensures { IfOk result (λ modes. modes.items ≡ mode ∷ []) }
{
    let mut modes = Vec::new(alloc);
    modes.push(mode)?;
    Ok(modes)
}

/// The convention of a requirement.
fn effect_of(effect: Option<Mode>) -> Mode
    ensures { result ≡ signatures.effect_of effect }
{
    match effect {
        Some(effect) => effect,
        None => Mode::Let,
    }
}

/// The signature of a requirement, of the type parameter at a place, which has this number.
pub fn required_signature(
    alloc: Global,
    id: TyId,
    place: u32,
    row: &CallableTypes,
) -> Result<Signature, NoMemory>
    requires { (table : Table) × (source : declarations.Source) × HasTypes table source (callable_of row.now.callable.now) row.now }
    ensures { IfOk result (λ s. (table : Table) (source : declarations.Source) → HasTypes table source (callable_of row.now.callable.now) row.now
        → HasId table id → IsSignature table (signatures.required source (type_of table id) place (callable_of row.now.callable.now)) s) }
{
    let c = row.callable;
    let params = declared_parameters(alloc, row)?;
    let variants = one_mode(alloc, effect_of(c.effect))?;
    Ok(Signature {
        callee: Callee::Required(c.node, place),
        generics: 0,
        known: Some(id),
        receiver: Receiver::Itself,
        variants,
        params,
        result: row.result,
        is_subscript: is_subscript_kind(c.kind),
        is_bundle: is_method_bundle(c),
    })
}

/// The signature of what the language declares.
pub fn predeclared_signature(
    alloc: Global,
    callee: Callee,
    receiver: Receiver,
    params: Vec<Parameter>,
    gives: TyId,
) -> Result<Signature, NoMemory>
    ensures { IfOk result (λ s. (table : Table) (wanted : List signatures.Parameter) (type : PlainType) → ParametersAre table wanted params.items
        → IsNumber table type gives → IsSignature table (signatures.predeclared (callee_shown table callee) (receiver_shown receiver) wanted type) s) }
{
    let variants = one_mode(alloc, Mode::Let)?;
    Ok(Signature {
        callee,
        generics: 0,
        known: None,
        receiver,
        variants,
        params,
        result: gives,
        is_subscript: false,
        is_bundle: false,
    })
}

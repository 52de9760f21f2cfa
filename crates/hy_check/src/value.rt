// Values: the types of expressions, and whether they are places.
ghost use Rattle.std.specs.Prelude.{◌≡◌, false, IfSome};
ghost use Rattle.hy_tree.specs.Denotes.{expr_of};
ghost use Rattle.hy_types.specs.Types.{Table, HasId};
ghost use Rattle.hy_signatures.specs.WantedShown.{type_shown};
ghost use Rattle.hy_check.specs.Typing as typing;
ghost use Rattle.hy_check.specs.Typing.{Around, valued};
ghost use Rattle.hy_check.specs.ValuesShown.{perhaps_shown, IsKnown};

use hy_base::Span;
use hy_tree::{Expr, ExprKind};
use hy_types::TyId;

/// A value: the number of its type, and whether it is a place or an owned result.
#[derive(Clone, Copy)]
pub struct Value {
    pub id: TyId,
    pub is_place: bool,
}

/// A part of an expression or a statement, with its value, where it has a type.
#[derive(Clone, Copy)]
pub struct Part<'t> {
    pub e: &'t Expr,
    pub value: Option<Value>,
}

/// The type of a value, where there is one.
pub fn type_in(value: Option<Value>) -> Option<TyId>
    ensures type_in { (table : Table) → type_shown table result ≡ typing.type_in (perhaps_shown table value) }
    ensures known { (table : Table) → IsKnown table value → IfSome result (λ id. HasId table id) }
{
    match value {
        Some(v) => Some(v.id),
        None => None,
    }
}

/// Whether a value is a place.
pub fn is_place(value: Option<Value>) -> bool
    ensures { (table : Table) → result ≡ typing.is_place_value (perhaps_shown table value) }
{
    match value {
        Some(v) => v.is_place,
        None => false,
    }
}

/// An owned result of a type, where there is one.
pub fn owned(id: Option<TyId>) -> Option<Value>
    ensures owned { (table : Table) → perhaps_shown table result ≡ typing.owned_type (type_shown table id) }
    ensures known { (table : Table) → IfSome id (λ id. HasId table id) → IsKnown table result }
{
    match id {
        Some(id) => Some(Value {
            id,
            is_place: false,
        }),
        None => None,
    }
}

/// A place of a type, where there is one.
pub fn place(id: Option<TyId>) -> Option<Value>
    ensures place { (table : Table) → perhaps_shown table result ≡ typing.place_type (type_shown table id) }
    ensures known { (table : Table) → IfSome id (λ id. HasId table id) → IsKnown table result }
{
    match id {
        Some(id) => Some(Value { id, is_place: true }),
        None => None,
    }
}

/// The span of an expression in a refusal: a place leaves its `&` out.
#[tactic(auto, using(hy_tree::proofs::Equations::expr_variants))]
pub fn span_shown(e: &Expr, value: Option<Value>) -> Span
    ensures { (table : Table) (around : Around) → perhaps_shown table value ≡ valued around false (expr_of e.now)
        → result ≡ typing.shown around (expr_of e.now) }
{
    match &e.kind {
        ExprKind::Marked(operand) => {
            if is_place(value) {
                operand.get().span
            } else {
                e.span
            }
        }
        ExprKind::Chain(_, _) => e.span,
        ExprKind::Unary(_, _) => e.span,
        ExprKind::Postfix(_, _) => e.span,
        ExprKind::Number(_) => e.span,
        ExprKind::Bool(_) => e.span,
        ExprKind::Name(_) => e.span,
        ExprKind::SelfValue(_) => e.span,
        ExprKind::EmptyArray(_) => e.span,
        ExprKind::Tuple(_) => e.span,
        ExprKind::Array(_) => e.span,
        ExprKind::If(_, _) => e.span,
    }
}

// Wanted types, and operators.
ghost use Rattle.std.specs.Prelude.{◌≡◌, Some, IfSome};
ghost use Rattle.hy_types.specs.Types.{HasId, Sized, type_of};
ghost use Rattle.hy_signatures.specs.PlainTypes as plain;
ghost use Rattle.hy_signatures.specs.Operators as operators;
ghost use Rattle.hy_signatures.specs.WantedShown.{wanted_shown, type_shown, IsWanted};

use crate::types::Types;
use hy_base::Num;
use hy_tree::{Operator, UnaryOperator};
use hy_types::{Ty, TyId};

/// The types that are wanted of an expression.
#[derive(Clone, Copy)]
pub enum Wanted {
    Exactly(TyId),
    Integer,
    Signed,
    IntegerOrTruth,
}

fn is_signed_num(num: Num) -> bool
    ensures { result ≡ plain.is_signed (Sized num) }
{
    match num {
        Num::I8 => true,
        Num::I16 => true,
        Num::I32 => true,
        Num::U8 => false,
        Num::U16 => false,
        Num::U32 => false,
        Num::U64 => false,
    }
}

impl Types {
    /// Whether two numbers are of one type: each type has one number alone, as `get` promises.
    pub fn same(&self, one: TyId, other: TyId) -> bool
        requires one { HasId self.now one }
        requires other { HasId self.now other }
        ensures { result ≡ plain.same_type (type_of self.now one) (type_of self.now other) }
    {
        self.get(one);
        one == other
    }

    pub fn is_integer(&self, id: TyId) -> bool
        requires { HasId self.now id }
        ensures { result ≡ plain.is_integer (type_of self.now id) }
    {
        match self.get(id) {
            Ty::Int | Ty::Sized(_) => true,
            Ty::Bool | Ty::Tuple(_) | Ty::Product(_) | Ty::Array(_) | Ty::Param(_) => false,
        }
    }

    pub fn is_signed(&self, id: TyId) -> bool
        requires { HasId self.now id }
        ensures { result ≡ plain.is_signed (type_of self.now id) }
    {
        match self.get(id) {
            Ty::Int => true,
            Ty::Sized(num) => is_signed_num(*num),
            Ty::Bool | Ty::Tuple(_) | Ty::Product(_) | Ty::Array(_) | Ty::Param(_) => false,
        }
    }

    pub fn is_truth(&self, id: TyId) -> bool
        requires { HasId self.now id }
        ensures { result ≡ plain.is_bool (type_of self.now id) }
    {
        match self.get(id) {
            Ty::Bool => true,
            Ty::Int | Ty::Sized(_) | Ty::Tuple(_) | Ty::Product(_) | Ty::Array(_) | Ty::Param(_) =>
                false,
        }
    }

    /// Whether a type is a wanted one.
    pub fn fits(&self, wanted: Wanted, given: TyId) -> bool
        requires wanted { IsWanted self.now wanted }
        requires given { HasId self.now given }
        ensures { result ≡ operators.fits (wanted_shown self.now wanted) (type_of self.now given) }
    {
        match wanted {
            Wanted::Exactly(id) => self.same(id, given),
            Wanted::Integer => self.is_integer(given),
            Wanted::Signed => self.is_signed(given),
            Wanted::IntegerOrTruth => self.is_integer(given) || self.is_truth(given),
        }
    }

    /// The type, where it is a wanted one.
    pub fn only(&self, wanted: Wanted, given: Option<TyId>) -> Option<TyId>
        requires wanted { IsWanted self.now wanted }
        requires given { IfSome given (λ id. HasId self.now id) }
        ensures only { type_shown self.now result ≡ operators.only (wanted_shown self.now wanted) (type_shown self.now given) }
        ensures known { IfSome result (λ id. HasId self.now id) }
    {
        match given {
            Some(id) => {
                if self.fits(wanted, id) {
                    Some(id)
                } else {
                    None
                }
            }
            None => None,
        }
    }

    /// What an operator wants of its left operand.
    pub fn left_wanted(&self, operator: Operator) -> Wanted
        ensures wanted { wanted_shown self.now result ≡ operators.left_wanted operator }
        ensures known { IsWanted self.now result }
    {
        match operator {
            Operator::Or | Operator::And => Wanted::Exactly(self.truth()),
            Operator::Equal | Operator::NotEqual => Wanted::IntegerOrTruth,
            Operator::Less | Operator::LessEqual => Wanted::Integer,
            Operator::Greater | Operator::GreaterEqual => Wanted::Integer,
            Operator::Arithmetic(_) => Wanted::Integer,
        }
    }

    /// What an operator gives, whose left operand has this type.
    fn operated(&self, operator: Operator, left: TyId) -> TyId
        requires { HasId self.now left }
        ensures gives { type_of self.now result ≡ operators.operated operator (type_of self.now left) }
        ensures known { HasId self.now result }
    {
        match operator {
            Operator::Arithmetic(_) => left,
            Operator::Or | Operator::And | Operator::Equal | Operator::NotEqual => self.truth(),
            Operator::Less | Operator::LessEqual => self.truth(),
            Operator::Greater | Operator::GreaterEqual => self.truth(),
        }
    }

    /// What an operator gives, where its left operand is a wanted one, and the right one has its type.
    pub fn joined(
        &self,
        operator: Operator,
        left: Option<TyId>,
        right: Option<TyId>,
    ) -> Option<TyId>
        requires left { IfSome left (λ id. HasId self.now id) }
        requires right { IfSome right (λ id. HasId self.now id) }
        ensures joined { type_shown self.now result ≡ operators.joined operator (type_shown self.now left) (type_shown self.now right) }
        ensures known { IfSome result (λ id. HasId self.now id) }
    {
        let Some(left) = left else {
            return None;
        };
        let Some(right) = right else {
            return None;
        };
        if self.fits(self.left_wanted(operator), left) && self.same(left, right) {
            return Some(self.operated(operator, left));
        }
        None
    }

    /// What an operator wants of its operand.
    pub fn unary_wanted(&self, operator: UnaryOperator) -> Wanted
        ensures wanted { wanted_shown self.now result ≡ operators.unary_wanted operator }
        ensures known { IsWanted self.now result }
    {
        match operator {
            UnaryOperator::Negate => Wanted::Signed,
            UnaryOperator::Not => Wanted::Exactly(self.truth()),
        }
    }
}

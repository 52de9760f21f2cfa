// What a type is, with other types in it by their numbers.
use crate::list::TyList;
use hy_base::Num;
use std::alloc::AllocError;

/// A type of a table, by the place of its first use in it, from 0.
#[derive(Clone, Copy, PartialEq, Eq, Hash, Debug, Drop)]
pub struct TyId {
    pub at: u32,
}

/// A type, whose parts are types of the same table (`docs/TYPES.md`).
#[derive(PartialEq, Eq, Hash, Debug, Drop)]
pub enum Ty {
    /// A signed number of 64 bits.
    Int,
    /// A number of this sized integer type.
    Sized(Num),
    /// A truth value.
    Bool,
    /// A tuple of these parts, in order.
    Tuple(TyList),
    /// The product with this declaration. Its parts are declared apart from it.
    Product(u32),
    /// An array of such elements.
    Array(TyId),
    /// The type parameter of this place, from 0.
    Param(u32),
}

impl Clone for Ty {
    ghost use Rattle.std.specs.Prelude.{◌≡◌};

    ghost is_clone = { λ ty copy. copy ≡ ty };

    fn clone(&self) -> Result<Ty, AllocError> {
        match self {
            Ty::Int => Ok(Ty::Int),
            Ty::Sized(num) => Ok(Ty::Sized(*num)),
            Ty::Bool => Ok(Ty::Bool),
            Ty::Tuple(parts) => {
                let parts = parts.clone()?;
                Ok(Ty::Tuple(parts))
            }
            Ty::Product(declaration) => Ok(Ty::Product(*declaration)),
            Ty::Array(element) => Ok(Ty::Array(*element)),
            Ty::Param(place) => Ok(Ty::Param(*place)),
        }
    }
}

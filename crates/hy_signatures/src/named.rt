// Types that a name stands for.
ghost use Rattle.std.specs.Prelude.{◌≡◌, [], IfOk, MatchOption, false};
ghost use Rattle.std.specs.Option.{option_map, unwrap_or};
ghost use Rattle.hy_types.specs.Types as Y;
ghost use Rattle.hy_types.specs.Types.{HasId, Extends, type_of};
ghost use Rattle.hy_signatures.specs.Declarations as declarations;
ghost use Rattle.hy_signatures.specs.Declarations.{type_meant};
ghost use Rattle.hy_signatures.specs.NamedShown.{named_shown};
ghost use Rattle.hy_signatures.specs.Numbered.{IsNumber};
ghost use Rattle.hy_signatures.specs.PlainTypes.{unit, same_type};
ghost use Rattle.hy_signatures.specs.declared.named.Named.{Named};

use crate::types::Types;
use hy_base::{NoMemory, Num};
use hy_tree::Meant;
use hy_tree::predeclared::{BOOL, INT, INT8, INT16, INT32, UINT8, UINT16, UINT32, UINT64};
use hy_types::{Ty, TyId};

/// A type that a name stands for. `Unit` is the type that is taken where it stands for none.
#[derive(Clone, Copy, PartialEq, Eq, Hash, Debug)]
pub enum Named {
    Int,
    Bool,
    Sized(Num),
    Unit,
    Product(u32),
    Param(u32),
}

/// The sized integer type that a predeclared name stands for.
fn sized_type(number: u32) -> Option<Num>
    ensures { option_map Y.Sized result ≡ declarations.sized_type number }
{
    match number {
        INT8 => Some(Num::I8),
        INT16 => Some(Num::I16),
        INT32 => Some(Num::I32),
        UINT8 => Some(Num::U8),
        UINT16 => Some(Num::U16),
        UINT32 => Some(Num::U32),
        UINT64 => Some(Num::U64),
        _ => None,
    }
}

/// The type that a predeclared name stands for.
pub fn built_type(number: u32) -> Option<Named>
    ensures { option_map named_shown result ≡ declarations.built_type number }
{
    if number == INT {
        return Some(Named::Int);
    }
    if number == BOOL {
        return Some(Named::Bool);
    }
    match sized_type(number) {
        Some(num) => Some(Named::Sized(num)),
        None => None,
    }
}

/// The type that a name stands for, or that of the empty tuple.
pub fn type_named(meant: Meant) -> Named
    ensures { named_shown result ≡ unwrap_or (type_meant meant) unit }
{
    match meant {
        Meant::Product(node) => Named::Product(node),
        Meant::Param(place) => Named::Param(place),
        Meant::Built(built) => built_type(built).unwrap_or(Named::Unit),
        Meant::Nothing => Named::Unit,
        Meant::Local(_) => Named::Unit,
        Meant::SelfField(_) => Named::Unit,
        Meant::Fun(_) => Named::Unit,
        Meant::Sub(_) => Named::Unit,
        Meant::Trait(_) => Named::Unit,
    }
}

impl Types {
    /// The number of a type that a name stands for.
    pub fn number_named(&mut self, named: Named) -> Result<TyId, NoMemory>
        ensures number { IfOk result (λ id. IsNumber self.new (named_shown named) id) }
        ensures stays { Extends self.old self.new }
    {
        match named {
            Named::Int => Ok(self.int()),
            Named::Bool => Ok(self.truth()),
            Named::Sized(num) => self.number(Ty::Sized(num)),
            Named::Unit => Ok(self.unit()),
            Named::Product(node) => self.number(Ty::Product(node)),
            Named::Param(place) => self.number(Ty::Param(place)),
        }
    }

    /// The type of a number, where a name may stand for it.
    pub fn as_named(&self, id: TyId) -> Option<Named>
        requires { HasId self.now id }
        ensures { MatchOption result ((named : Named) → same_type (type_of self.now id) (named_shown named) ≡ false)
            (λ named. type_of self.now id ≡ named_shown named) }
    {
        match self.get(id) {
            Ty::Int => Some(Named::Int),
            Ty::Bool => Some(Named::Bool),
            Ty::Sized(num) => Some(Named::Sized(*num)),
            Ty::Product(node) => Some(Named::Product(*node)),
            Ty::Param(place) => Some(Named::Param(*place)),
            Ty::Array(_) => None,
            Ty::Tuple(parts) => {
                if parts.as_slice().is_empty() {
                    Some(Named::Unit)
                } else {
                    None
                }
            }
        }
    }
}

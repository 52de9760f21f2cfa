// Tests of what the calls of a table ask for.
ghost use Rattle.std.specs.Prelude.{◌≡◌, length};
ghost use Rattle.std.specs.Bool.{Decides};
ghost use Rattle.hy_types.specs.Types.{Table, AllBelow, HasId, HasIds, mentioned, type_of, plain_types};
ghost use Rattle.hy_types.specs.Words.{EachDeclared};
ghost use Rattle.hy_types.specs.Matching.{ParametersBelow, AllParametersBelow};

use crate::kinds::{Ty, TyId};
use crate::table::TyTable;

impl TyTable {
    /// Whether the number is one of the table's.
    pub fn has(&self, id: TyId) -> bool
        ensures { Decides result (HasId self.now id) }
    {
        (id.at as usize) < self.rows().len()
    }

    /// Whether all these numbers are the table's.
    pub fn has_all(&self, ids: &[TyId]) -> bool
        ensures { Decides result (HasIds self.now ids.now) }
    {
        for id in ids {
            if !self.has(*id) {
                return false;
            }
        }
        true
    }

    /// Whether all numbers in a type that is to be put into the table are the table's.
    pub fn has_parts(&self, ty: &Ty) -> bool
        ensures { Decides result (HasIds self.now (mentioned ty.now)) }
    {
        match ty {
            Ty::Tuple(parts) => self.has_all(parts.as_slice()),
            Ty::Array(element) => self.has(*element),
            Ty::Int | Ty::Sized(_) | Ty::Bool | Ty::Product(_) | Ty::Param(_) => true,
        }
    }

    /// Whether each product among the types was declared.
    pub fn all_declared(&self) -> bool
        ensures { Decides result (EachDeclared self.now) }
    {
        for row in self.rows() {
            if let Ty::Product(declaration) = row {
                if !self.is_declared(*declaration) {
                    return false;
                }
            }
        }
        true
    }

    /// Whether each parameter in a type is one of the first `count`.
    #[cycle(below)]
    pub fn is_below(&self, id: TyId, count: u32) -> bool
        requires { HasId self.now id }
        ensures { Decides result (ParametersBelow count (type_of self.now id)) }
    {
        match self.get(id) {
            Ty::Int | Ty::Sized(_) | Ty::Bool | Ty::Product(_) => true,
            Ty::Param(place) => *place < count,
            Ty::Array(element) => self.is_below(*element, count),
            Ty::Tuple(parts) => self.all_below(parts.as_slice(), count),
        }
    }

    // Whether each parameter in these types is.
    #[cycle(below)]
    fn all_below(&self, ids: &[TyId], count: u32) -> bool
        requires { HasIds self.now ids.now }
        ensures { Decides result (AllParametersBelow count (plain_types (type_of self.now) ids.now)) }
    {
        for id in ids {
            if !self.is_below(*id, count) {
                return false;
            }
        }
        true
    }
}

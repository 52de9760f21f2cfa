// Type parameters that the arguments of a call determine.
ghost use Rattle.std.specs.Prelude.{◌≡◌, map};
ghost use Rattle.hy_types.specs.Types.{HasId, HasIds, plain_types, type_of};
ghost use Rattle.hy_signatures.specs.PlainTypes as plain;
ghost use Rattle.hy_signatures.specs.Signatures as signatures;
ghost use Rattle.hy_signatures.specs.SignaturesShown.{AreWanted, parameter_shown};
ghost use Rattle.hy_signatures.specs.WantedShown.{wanted_shown, IsWanted};

use crate::signatures::Parameter;
use crate::types::Types;
use crate::wanted::Wanted;
use hy_types::{Ty, TyId};

impl Types {
    /// Whether a type speaks of a type parameter.
    #[cycle(mentioning)]
    fn mentions(&self, place: u32, id: TyId) -> bool
        requires { HasId self.now id }
        ensures { result ≡ plain.mentions place (type_of self.now id) }
    {
        match self.get(id) {
            Ty::Int | Ty::Sized(_) | Ty::Bool | Ty::Product(_) => false,
            Ty::Param(other) => *other == place,
            Ty::Array(element) => self.mentions(place, *element),
            Ty::Tuple(parts) => self.mentioned_in(place, parts.as_slice()),
        }
    }

    #[cycle(mentioning)]
    fn mentioned_in(&self, place: u32, ids: &[TyId]) -> bool
        requires { HasIds self.now ids.now }
        ensures { result ≡ plain.mentioned_in place (plain_types (type_of self.now) ids.now) }
    {
        for id in ids {
            if self.mentions(place, *id) {
                return true;
            }
        }
        false
    }

    /// Whether a wanted type speaks of a type parameter.
    fn wants(&self, place: u32, wanted: Wanted) -> bool
        requires { IsWanted self.now wanted }
        ensures { result ≡ signatures.wants place (wanted_shown self.now wanted) }
    {
        match wanted {
            Wanted::Exactly(id) => self.mentions(place, id),
            Wanted::Integer => false,
            Wanted::Signed => false,
            Wanted::IntegerOrTruth => false,
        }
    }

    /// Whether a type parameter stands in the type of some parameter.
    fn is_wanted(&self, place: u32, params: &[Parameter]) -> bool
        requires { AreWanted self.now params.now }
        ensures { result ≡ signatures.is_wanted place (map (parameter_shown self.now) params.now) }
    {
        for p in params {
            if self.wants(place, p.wanted) {
                return true;
            }
        }
        false
    }

    /// Whether each of the first so many type parameters stands in the type of some parameter.
    pub fn are_determined(&self, generics: u32, params: &[Parameter]) -> bool
        requires { AreWanted self.now params.now }
        ensures { result ≡ signatures.are_determined generics (map (parameter_shown self.now) params.now) }
    {
        for place in 0..generics {
            if !self.is_wanted(place, params) {
                return false;
            }
        }
        true
    }
}

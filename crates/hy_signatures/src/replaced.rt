// Types with what was found in place of their parameters.
ghost use Rattle.std.specs.Prelude.{◌≡◌, IfOk};
ghost use Rattle.hy_types.specs.Types.{HasId, HasIds, Extends, plain_types, type_of};
ghost use Rattle.hy_signatures.specs.Numbered.{IsNumber, AreNumbers};
ghost use Rattle.hy_signatures.specs.PlainTypes.{replaced, replaced_all};
ghost use Rattle.hy_signatures.specs.SolutionShown.{AreFound, found_shown};

use crate::solutions::Solution;
use crate::types::Types;
use hy_base::NoMemory;
use hy_types::{Ty, TyId, TyList};
use std::alloc::Global;

impl Types {
    /// The number of a type with what was found in place of its parameters.
    #[cycle(replacing)]
    pub fn replace(&mut self, alloc: Global, found: &Solution, id: TyId) -> Result<TyId, NoMemory>
        requires known { HasId self.old id }
        requires found { AreFound self.old found.now }
        ensures number { IfOk result (λ made. IsNumber self.new (replaced (found_shown self.old found.now) (type_of self.old id)) made) }
        ensures stays { Extends self.old self.new }
    {
        match self.get(id) {
            Ty::Int | Ty::Sized(_) | Ty::Bool | Ty::Product(_) => Ok(id),
            Ty::Param(place) => match found.at(*place) {
                Some(made) => Ok(made),
                None => Ok(id),
            },
            Ty::Array(element) => {
                let element = *element;
                let made = self.replace(alloc, found, element)?;
                self.number(Ty::Array(made))
            }
            Ty::Tuple(parts) => {
                let parts = parts.clone()?;
                let made = self.replace_all(alloc, found, parts.as_slice())?;
                self.number(Ty::Tuple(made))
            }
        }
    }

    #[cycle(replacing)]
    fn replace_all(
        &mut self,
        alloc: Global,
        found: &Solution,
        ids: &[TyId],
    ) -> Result<TyList, NoMemory>
        requires known { HasIds self.old ids.now }
        requires found { AreFound self.old found.now }
        ensures numbers { IfOk result (λ made. AreNumbers self.new (replaced_all (found_shown self.old found.now) (plain_types
            (type_of self.old) ids.now)) made) }
        ensures stays { Extends self.old self.new }
    {
        let mut made = Vec::new(alloc);
        for id in ids {
            made.push(self.replace(alloc, found, *id)?)?;
        }
        Ok(TyList::from_vec(made))
    }
}

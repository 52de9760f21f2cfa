// Types in place of parameters.
ghost use Rattle.std.specs.Prelude.{◌≡◌, IfOk, length};
ghost use Rattle.hy_types.specs.Types.{Table, HasId, HasIds, Extends, type_of, plain_types};
ghost use Rattle.hy_types.specs.Matching.{ParametersBelow, AllParametersBelow, Replaces, ReplacesAll};

use crate::kinds::{Ty, TyId};
use crate::list::TyList;
use crate::table::TyTable;
use hy_base::NoMemory;

impl TyTable {
    /// The type with `args` in place of its parameters. Types that this needs are put last, also where it is refused.
    #[cycle(replacing)]
    pub fn replace(&mut self, ty: TyId, args: &TyList) -> Result<TyId, NoMemory>
        requires known { HasId self.old ty }
        requires args { HasIds self.old args.now }
        requires places { ParametersBelow (length args.now) (type_of self.old ty) }
        ensures replaced { IfOk result (λ id. Replaces self.old args.now ty self.new id) }
        ensures known { IfOk result (λ id. HasId self.new id) }
        ensures stays { Extends self.old self.new }
    {
        match self.get(ty) {
            Ty::Int | Ty::Sized(_) | Ty::Bool | Ty::Product(_) => Ok(ty),
            Ty::Param(place) => Ok(args.as_slice()[*place as usize]),
            Ty::Array(element) => {
                let element = *element;
                let replaced = self.replace(element, args)?;
                let id = self.intern(Ty::Array(replaced))?;
                Ok(id)
            }
            Ty::Tuple(parts) => {
                let parts = parts.clone()?;
                let replaced = self.replace_all(parts.as_slice(), args)?;
                let id = self.intern(Ty::Tuple(replaced))?;
                Ok(id)
            }
        }
    }

    // The same for each of a list of types.
    #[cycle(replacing)]
    fn replace_all(&mut self, types: &[TyId], args: &TyList) -> Result<TyList, NoMemory>
        requires known { HasIds self.old types.now }
        requires args { HasIds self.old args.now }
        requires places { AllParametersBelow (length args.now) (plain_types (type_of self.old) types.now) }
        ensures replaced { IfOk result (λ ids. ReplacesAll self.old args.now types.now self.new ids) }
        ensures known { IfOk result (λ ids. HasIds self.new ids) }
        ensures stays { Extends self.old self.new }
    {
        let mut replaced = Vec::new(self.allocator());
        for part in types {
            let id = self.replace(*part, args)?;
            replaced.push(id)?;
        }
        Ok(TyList::from_vec(replaced))
    }
}

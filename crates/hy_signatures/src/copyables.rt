// Copyable types.
ghost use Rattle.std.specs.Prelude.{◌≡◌, ◌<◌, ◌+◌, [], List, Bool, IfOk, OnOk, length};
ghost use Rattle.hy_tree.specs.Tree as T;
ghost use Rattle.hy_tree.specs.declared.declaration.TypeParam.{TypeParam};
ghost use Rattle.hy_types.specs.Types.{Table, HasId, AllBelow, PlainType, mentioned, plain_types, type_of, type_of_row};
ghost use Rattle.hy_signatures.specs.CopyablesShown.{TellCopyable};
ghost use Rattle.hy_signatures.specs.Declarations as declarations;
ghost use Rattle.hy_signatures.specs.Declarations.{are_copyable, bounds_at};
ghost use Rattle.hy_signatures.specs.OwnersShown.{OwnerIs, AreOwners, owner_at};
ghost use Rattle.hy_signatures.specs.Shown.{source_shown};

use crate::named::Named;
use crate::owners::{Owners, lists_copyable};
use crate::source::Source;
use crate::types::Types;
use hy_base::NoMemory;
use hy_tree::TypeParam;
use hy_types::{Ty, TyId};
use std::alloc::Global;

impl Owners<'_> {
    /// Whether a type that a name stands for declares `Copyable`.
    pub fn declares_copyable(&self, named: Named) -> bool
        ensures { (table : Table) (source : declarations.Source) (members : List T.Member) (copyable : Bool)
            → OwnerIs table source members copyable (owner_at self.now named) → result ≡ copyable }
    {
        match self.rows.get(&named) {
            Some(owner) => owner.copyable,
            None => false,
        }
    }
}

/// Whether a bound of a type parameter says that it is copyable.
fn is_bound_copyable(source: &Source, generics: &[TypeParam], place: u32) -> bool
    ensures { result ≡ declarations.lists_copyable (source_shown source.now) (bounds_at place generics.now) }
{
    match generics.get(place as usize) {
        Some(p) => lists_copyable(source, p.bounds.as_slice()),
        None => false,
    }
}

/// Whether each of these types is copyable.
fn all_copyable(flags: &[bool], parts: &[TyId]) -> bool
    requires { AllBelow (length flags.now) parts.now }
    ensures { (table : Table) (source : declarations.Source) (generics : List TypeParam) → TellCopyable table source generics flags.now
        → result ≡ are_copyable source generics (plain_types (type_of table) parts.now) }
{
    for part in parts {
        if !flags[part.at as usize] {
            return false;
        }
    }
    true
}

/// Whether each of the first types of a source is copyable, in a function with some type parameters.
#[derive(Drop)]
pub struct Copyables {
    flags: Vec<bool>,
}

impl Copyables {
    /// Of no type.
    pub fn new(alloc: Global) -> Copyables
        ensures { result.flags.items ≡ [] }
    {
        Copyables {
            flags: Vec::new(alloc),
        }
    }

    /// Whether a type is copyable, whose parts are among the first types.
    fn flag(&self, source: &Source, owners: &Owners, generics: &[TypeParam], ty: &Ty) -> bool
        requires { AllBelow (length self.now.flags.items) (mentioned ty.now) }
        ensures { (table : Table) → AreOwners table (source_shown source.now) owners.now
            → TellCopyable table (source_shown source.now) generics.now self.now.flags.items
            → result ≡ declarations.is_copyable (source_shown source.now) generics.now (type_of_row table ty.now) }
    {
        match ty {
            Ty::Int | Ty::Sized(_) | Ty::Bool => true,
            Ty::Tuple(parts) => all_copyable(self.flags.as_slice(), parts.as_slice()),
            Ty::Product(node) => owners.declares_copyable(Named::Product(*node)),
            Ty::Array(element) => self.flags[element.at as usize],
            Ty::Param(place) => is_bound_copyable(source, generics, *place),
        }
    }

    /// Looks at one type more.
    fn tell_next(
        &mut self,
        source: &Source,
        owners: &Owners,
        types: &Types,
        generics: &[TypeParam],
    ) -> Result<(), NoMemory>
        requires there { length self.old.flags.items < length types.now.types }
        ensures tells { OnOk result (AreOwners types.now (source_shown source.now) owners.now
            → TellCopyable types.now (source_shown source.now) generics.now self.old.flags.items
            → TellCopyable types.now (source_shown source.now) generics.now self.new.flags.items) }
        ensures longer { OnOk result (length self.new.flags.items ≡ length self.old.flags.items + 1) }
    {
        let Ok(at) = u32::try_from(self.flags.len()) else {
            return Err(NoMemory);
        };
        let id = TyId { at };
        let flag = self.flag(source, owners, generics, types.get(id));
        self.flags.push(flag)?;
        Ok(())
    }

    /// Whether a type is copyable. Each type is looked at once, after those before it.
    pub fn is_copyable(
        &mut self,
        source: &Source,
        owners: &Owners,
        types: &Types,
        generics: &[TypeParam],
        id: TyId,
    ) -> Result<bool, NoMemory>
        requires { HasId types.now id }
        ensures is { IfOk result (λ is. AreOwners types.now (source_shown source.now) owners.now
            → TellCopyable types.now (source_shown source.now) generics.now self.old.flags.items
            → is ≡ declarations.is_copyable (source_shown source.now) generics.now (type_of types.now id)) }
        ensures tells { OnOk result (AreOwners types.now (source_shown source.now) owners.now
            → TellCopyable types.now (source_shown source.now) generics.now self.old.flags.items
            → TellCopyable types.now (source_shown source.now) generics.now self.new.flags.items) }
    {
        while self.flags.len() <= id.at as usize {
            self.tell_next(source, owners, types, generics)?;
        }
        Ok(self.flags[id.at as usize])
    }
}

// Members of types and traits by name.
ghost use Rattle.std.specs.Prelude.{◌≡◌, [], ◌∷◌, List, MatchOption};
ghost use Rattle.std.specs.Option.{option_copied};
ghost use Rattle.hy_tree.specs.Tree as T;
ghost use Rattle.hy_tree.specs.declared.declaration.CallableKind.TheVariants as kind;
ghost use Rattle.hy_types.specs.Types.{Table, HasId, type_of};
ghost use Rattle.hy_signatures.specs.Declarations as declarations;
ghost use Rattle.hy_signatures.specs.Declarations.{callable_named, fields_among, members_of, members_of_trait, requirement_named};
ghost use Rattle.hy_signatures.specs.MembersShown.{MembersAre, HasFields, IsFound};
ghost use Rattle.hy_signatures.specs.NamedShown.{named_shown};
ghost use Rattle.hy_signatures.specs.OwnersShown.{AreOwners};
ghost use Rattle.hy_signatures.specs.Shown.{source_shown};
ghost use Rattle.hy_signatures.specs.TraitsShown.{AreTraits};

use crate::callables::CallableTypes;
use crate::members::{FieldType, Members};
use crate::named::Named;
use crate::owners::Owners;
use crate::source::Source;
use crate::traits::Traits;
use crate::types::Types;
use hy_tree::{Meant, NameUse};
use hy_types::TyId;

impl<'a> Owners<'a> {
    /// The members of a type that a name stands for, where it has some.
    pub fn members_named(&self, named: Named) -> Option<&Members<'a>>
        ensures { (table : Table) (source : declarations.Source) → AreOwners table source self.now
            → MembersAre table source (members_of source (named_shown named)) (option_copied result) }
    {
        match self.rows.get(&named) {
            Some(owner) => Some(&owner.members),
            None => None,
        }
    }

    /// The members of a type, where it has some.
    pub fn members(&self, types: &Types, id: TyId) -> Option<&Members<'a>>
        requires { HasId types.now id }
        ensures { (source : declarations.Source) → AreOwners types.now source self.now
            → MembersAre types.now source (members_of source (type_of types.now id)) (option_copied result) }
    {
        match types.as_named(id) {
            Some(named) => self.members_named(named),
            None => None,
        }
    }
}

/// The fields among members, where there are members.
pub fn fields<'m, 'a>(members: Option<&'m Members<'a>>) -> Option<&'m [FieldType<'a>]>
    ensures { (table : Table) (source : declarations.Source) (list : List T.Member) → MembersAre table source list (option_copied members.entry)
        → MatchOption result (fields_among source list ≡ []) (λ fields. HasFields table (fields_among source list) fields.now) }
{
    match members {
        Some(members) => Some(members.fields.as_slice()),
        None => None,
    }
}

/// The function among members that has a full name.
pub fn function<'m, 'a>(
    members: Option<&'m Members<'a>>,
    name: &[u8],
) -> Option<&'m CallableTypes<'a>>
    ensures { (table : Table) (source : declarations.Source) (list : List T.Member) → MembersAre table source list (option_copied members.entry)
        → IsFound table source (callable_named kind.Function name.now list) (option_copied result) }
{
    match members {
        Some(members) => members.functions.at(name),
        None => None,
    }
}

/// The subscript among members that has a full name.
pub fn subscript<'m, 'a>(
    members: Option<&'m Members<'a>>,
    name: &[u8],
) -> Option<&'m CallableTypes<'a>>
    ensures { (table : Table) (source : declarations.Source) (list : List T.Member) → MembersAre table source list (option_copied members.entry)
        → IsFound table source (callable_named kind.Subscript name.now list) (option_copied result) }
{
    match members {
        Some(members) => members.subscripts.at(name),
        None => None,
    }
}

/// The requirement among members that has a full name.
fn requirement<'m, 'a>(
    members: Option<&'m Members<'a>>,
    name: &[u8],
) -> Option<&'m CallableTypes<'a>>
    ensures { (table : Table) (source : declarations.Source) (list : List T.Member) → MembersAre table source list (option_copied members.entry)
        → IsFound table source (callable_named kind.Requirement name.now list) (option_copied result) }
{
    match members {
        Some(members) => members.requirements.at(name),
        None => None,
    }
}

impl<'a> Traits<'a> {
    /// The members of the trait at a node.
    pub fn members(&self, node: u32) -> Option<&Members<'a>>
        ensures { (table : Table) (source : declarations.Source) → AreTraits table source self.now
            → MembersAre table source (members_of_trait node source.decls) (option_copied result) }
    {
        self.rows.get(&node)
    }
}

/// What the trait that a bound names requires by a full name.
fn required_by<'m, 'a>(
    source: &Source,
    traits: &'m Traits<'a>,
    name: &[u8],
    bound: &NameUse,
) -> Option<&'m CallableTypes<'a>>
    ensures { (table : Table) → AreTraits table (source_shown source.now) traits.now
        → IsFound table (source_shown source.now) (requirement_named (source_shown source.now) name.now (bound.now ∷ [])) (option_copied result) }
{
    match source.meaning(bound.node) {
        Meant::Trait(node) => requirement(traits.members(node), name),
        Meant::Nothing => None,
        Meant::Local(_) => None,
        Meant::SelfField(_) => None,
        Meant::Fun(_) => None,
        Meant::Sub(_) => None,
        Meant::Product(_) => None,
        Meant::Param(_) => None,
        Meant::Built(_) => None,
    }
}

/// What the first of some bounds requires by a full name that requires something by it.
pub fn requirement_of<'m, 'a>(
    source: &Source,
    traits: &'m Traits<'a>,
    name: &[u8],
    bounds: &[NameUse],
) -> Option<&'m CallableTypes<'a>>
    ensures { (table : Table) → AreTraits table (source_shown source.now) traits.now
        → IsFound table (source_shown source.now) (requirement_named (source_shown source.now) name.now bounds.now) (option_copied result) }
{
    for bound in bounds {
        if let Some(row) = required_by(source, traits, name, bound) {
            return Some(row);
        }
    }
    None
}

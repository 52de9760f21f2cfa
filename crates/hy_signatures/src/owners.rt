// The members of each type that a name stands for, and whether it declares `Copyable`.
ghost use Rattle.std.specs.Prelude.{◌≡◌, ◌&&◌, [], IfOk, OnOk, Some, None, List, Bool, cond, false, map};
ghost use Rattle.hy_tree.specs.Denotes.{member_of, decl_of, decl_kind_of};
ghost use Rattle.hy_tree.specs.Tree as T;
ghost use Rattle.hy_types.specs.Types.{Table, Extends};
ghost use Rattle.hy_signatures.specs.Declarations as declarations;
ghost use Rattle.hy_signatures.specs.Declarations.{members_for, members_in, declared_copyable, declares_copyable};
ghost use Rattle.hy_signatures.specs.NamedShown.{named_shown};
ghost use Rattle.hy_signatures.specs.OwnersShown.{IsOwner, OwnerIs, Adds, AreOwners, owner_at, same_named};
ghost use Rattle.hy_signatures.specs.Shown.{source_shown};
ghost use Rattle.hy_signatures.specs.declared.named.Named.{Named};

use crate::members::Members;
use crate::named::{Named, type_named};
use crate::source::Source;
use crate::types::Types;
use hy_base::NoMemory;
use hy_tree::predeclared::COPYABLE;
use hy_tree::{Decl, DeclKind, Meant, Member, NameUse};
use indexmap::IndexMap;
use std::alloc::Global;

/// What is kept of a type.
#[derive(Drop)]
pub struct Owner<'a> {
    pub members: Members<'a>,
    /// Whether the type declares `Copyable`, or a conformance of it does.
    pub copyable: bool,
}

/// What is kept of each type that a name stands for.
#[derive(Drop)]
pub struct Owners<'a> {
    pub(crate) rows: IndexMap<Named, Owner<'a>>,
}

fn is_copyable_trait(meant: Meant) -> bool
    ensures { result ≡ declarations.is_copyable_trait meant }
{
    match meant {
        Meant::Built(number) => number == COPYABLE,
        _ => false,
    }
}

/// Whether `Copyable` is in a list of traits.
pub fn lists_copyable(source: &Source, names: &[NameUse]) -> bool
    ensures { result ≡ declarations.lists_copyable (source_shown source.now) names.now }
{
    for name in names {
        if is_copyable_trait(source.meaning(name.node)) {
            return true;
        }
    }
    false
}

impl<'a> Owner<'a> {
    /// Nothing is kept.
    fn new(alloc: Global) -> Owner<'a>
        ensures { (table : Table) (source : declarations.Source) → IsOwner table source [] false result }
    {
        Owner {
            members: Members::new(alloc),
            copyable: false,
        }
    }
}

impl<'a> Owners<'a> {
    /// Nothing is kept.
    pub fn new(alloc: Global) -> Owners<'a>
        ensures { (named : Named) → owner_at result named ≡ None }
    {
        Owners {
            rows: IndexMap::new(alloc),
        }
    }

    /// Takes out what is kept of a type.
    fn take(&mut self, alloc: Global, named: Named) -> Owner<'a>
        ensures owner { (table : Table) (source : declarations.Source) (members : List T.Member) (copyable : Bool)
            → OwnerIs table source members copyable (owner_at self.old named) → IsOwner table source members copyable result }
        ensures rest { (other : Named) → same_named other named ≡ false → owner_at self.new other ≡ owner_at self.old other }
    {
        match self.rows.swap_remove(&named) {
            Some(owner) => owner,
            None => Owner::new(alloc),
        }
    }

    /// Keeps this of a type.
    fn put(&mut self, named: Named, owner: Owner<'a>) -> Result<(), NoMemory>
        ensures { OnOk result ((other : Named) → owner_at self.new other ≡ cond (same_named other named) (Some owner.entry) (owner_at self.old other)) }
    {
        self.rows.insert(named, owner)?;
        Ok(())
    }

    /// Keeps members and traits of a type, after those that are kept.
    fn add(
        &mut self,
        alloc: Global,
        source: &Source,
        types: &mut Types,
        named: Named,
        traits: &[NameUse],
        members: &'a [Member],
    ) -> Result<(), NoMemory>
        ensures { OnOk result (Adds types.old types.new (source_shown source.now) (λ other. cond (same_named other named) (map member_of members.now) [])
            (λ other. same_named other named && declarations.lists_copyable (source_shown source.now) traits.now) self.old self.new) }
    {
        let mut owner = self.take(alloc, named);
        owner.members.add_all(alloc, source, types, members)?;
        owner.copyable |= lists_copyable(source, traits);
        self.put(named, owner)?;
        Ok(())
    }

    /// Keeps what a declaration adds to a type.
    fn add_decl(
        &mut self,
        alloc: Global,
        source: &Source,
        types: &mut Types,
        decl: &'a DeclKind,
    ) -> Result<(), NoMemory>
        ensures { OnOk result (Adds types.old types.new (source_shown source.now)
            (λ named. members_for (source_shown source.now) (named_shown named) (decl_kind_of decl.now))
            (λ named. declared_copyable (source_shown source.now) (named_shown named) (decl_kind_of decl.now)) self.old self.new) }
    {
        match decl {
            DeclKind::Callable(_) => Ok(()),
            DeclKind::Product(p) => {
                let named = Named::Product(p.node);
                let members = p.members.as_slice();
                self.add(alloc, source, types, named, p.traits.as_slice(), members)?;
                Ok(())
            }
            DeclKind::Trait(_) => Ok(()),
            DeclKind::Conformance(c) => {
                let named = type_named(source.meaning(c.target.node));
                let members = c.members.as_slice();
                self.add(alloc, source, types, named, c.traits.as_slice(), members)?;
                Ok(())
            }
        }
    }

    /// Keeps what some declarations add to types.
    fn add_decls(
        &mut self,
        alloc: Global,
        source: &Source,
        types: &mut Types,
        decls: &'a [Decl],
    ) -> Result<(), NoMemory>
        ensures { OnOk result (Adds types.old types.new (source_shown source.now)
            (λ named. members_in (source_shown source.now) (named_shown named) (map decl_of decls.now))
            (λ named. declares_copyable (source_shown source.now) (named_shown named) (map decl_of decls.now)) self.old self.new) }
    {
        for decl in decls {
            self.add_decl(alloc, source, types, &decl.kind)?;
        }
        Ok(())
    }
}

/// The members of each type of a source, and whether it declares `Copyable`.
pub fn owners_of<'a>(
    alloc: Global,
    source: &Source<'a>,
    types: &mut Types,
) -> Result<Owners<'a>, NoMemory>
    ensures owners { IfOk result (λ owners. AreOwners types.new (source_shown source.now) owners) }
    ensures stays { OnOk result (Extends types.old types.new) }
{
    let mut owners = Owners::new(alloc);
    owners.add_decls(alloc, source, types, source.decls)?;
    Ok(owners)
}

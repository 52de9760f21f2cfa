// The members of each trait.
ghost use Rattle.std.specs.Prelude.{◌≡◌, ◌==◌, ℕ, [], IfOk, OnOk, Some, None, List, cond, false, map};
ghost use Rattle.hy_tree.specs.Denotes.{member_of, decl_of, decl_kind_of};
ghost use Rattle.hy_tree.specs.Tree as T;
ghost use Rattle.hy_types.specs.Types.{Table, Extends};
ghost use Rattle.hy_signatures.specs.Declarations as declarations;
ghost use Rattle.hy_signatures.specs.Declarations.{trait_members, members_of_trait};
ghost use Rattle.hy_signatures.specs.MembersShown.{HasMembers};
ghost use Rattle.hy_signatures.specs.Shown.{source_shown};
ghost use Rattle.hy_signatures.specs.MembersShown.{MembersAre};
ghost use Rattle.hy_signatures.specs.TraitsShown.{AddsTraits, AreTraits, trait_at};

use crate::members::Members;
use crate::source::Source;
use crate::types::Types;
use hy_base::NoMemory;
use hy_tree::{Decl, DeclKind, Member};
use indexmap::IndexMap;
use std::alloc::Global;

/// The members of each trait, by the node of its declaration.
#[derive(Drop)]
pub struct Traits<'a> {
    pub(crate) rows: IndexMap<u32, Members<'a>>,
}

impl<'a> Traits<'a> {
    /// No traits.
    pub fn new(alloc: Global) -> Traits<'a>
        ensures { (node : ℕ) → trait_at result node ≡ None }
    {
        Traits {
            rows: IndexMap::new(alloc),
        }
    }

    /// Takes out the members of the trait at a node.
    fn take(&mut self, alloc: Global, node: u32) -> Members<'a>
        ensures members { (table : Table) (source : declarations.Source) (members : List T.Member)
            → MembersAre table source members (trait_at self.old node) → HasMembers table source members result }
        ensures rest { (other : ℕ) → (node == other) ≡ false → trait_at self.new other ≡ trait_at self.old other }
    {
        match self.rows.swap_remove(&node) {
            Some(members) => members,
            None => Members::new(alloc),
        }
    }

    /// Keeps these members of the trait at a node.
    fn put(&mut self, node: u32, members: Members<'a>) -> Result<(), NoMemory>
        ensures { OnOk result ((other : ℕ) → trait_at self.new other ≡ cond (node == other) (Some members.entry) (trait_at self.old other)) }
    {
        self.rows.insert(node, members)?;
        Ok(())
    }

    /// Keeps members of the trait at a node, after those that are kept.
    fn add(
        &mut self,
        alloc: Global,
        source: &Source,
        types: &mut Types,
        node: u32,
        members: &'a [Member],
    ) -> Result<(), NoMemory>
        ensures { OnOk result (AddsTraits types.old types.new (source_shown source.now) (λ other. cond (node == other) (map member_of members.now) [])
            self.old self.new) }
    {
        let mut kept = self.take(alloc, node);
        kept.add_all(alloc, source, types, members)?;
        self.put(node, kept)?;
        Ok(())
    }

    /// Keeps the members of a trait.
    fn add_decl(
        &mut self,
        alloc: Global,
        source: &Source,
        types: &mut Types,
        decl: &'a DeclKind,
    ) -> Result<(), NoMemory>
        ensures { OnOk result (AddsTraits types.old types.new (source_shown source.now) (λ node. trait_members node (decl_kind_of decl.now))
            self.old self.new) }
    {
        match decl {
            DeclKind::Callable(_) => Ok(()),
            DeclKind::Product(_) => Ok(()),
            DeclKind::Trait(t) => {
                self.add(alloc, source, types, t.node, t.members.as_slice())?;
                Ok(())
            }
            DeclKind::Conformance(_) => Ok(()),
        }
    }

    /// Keeps the members of traits.
    fn add_decls(
        &mut self,
        alloc: Global,
        source: &Source,
        types: &mut Types,
        decls: &'a [Decl],
    ) -> Result<(), NoMemory>
        ensures { OnOk result (AddsTraits types.old types.new (source_shown source.now) (λ node. members_of_trait node (map decl_of decls.now))
            self.old self.new) }
    {
        for decl in decls {
            self.add_decl(alloc, source, types, &decl.kind)?;
        }
        Ok(())
    }
}

/// The members of each trait of a source.
pub fn traits_of<'a>(
    alloc: Global,
    source: &Source<'a>,
    types: &mut Types,
) -> Result<Traits<'a>, NoMemory>
    ensures traits { IfOk result (λ traits. AreTraits types.new (source_shown source.now) traits) }
    ensures stays { OnOk result (Extends types.old types.new) }
{
    let mut traits = Traits::new(alloc);
    traits.add_decls(alloc, source, types, source.decls)?;
    Ok(traits)
}

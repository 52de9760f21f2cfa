// What a walk over phrases knows.
ghost use Rattle.std.specs.Prelude.{◌≡◌, ◌==◌, ℕ, [], Some, cond, IfOk, IfSome, OnOk};
ghost use Rattle.std.specs.Option.{option_map};
ghost use Rattle.hy_tree.specs.Denotes.{type_of};
ghost use Rattle.hy_types.specs.Types.{HasId, HasIds, mentioned, type_of_row};
ghost use Rattle.hy_signatures.specs.Declarations.{written_type};
ghost use Rattle.hy_signatures.specs.Numbered.{IsNumber};
ghost use Rattle.hy_signatures.specs.WantedShown.{type_shown};
ghost use Rattle.hy_check.specs.Facts.{has_type};
ghost use Rattle.hy_check.specs.Known.{Learns};
ghost use Rattle.hy_check.specs.KnownShown.{IsRight, known_of, noted_at};
ghost use Rattle.hy_check.specs.Refusals.{when};

use crate::meet::meet_when;
use hy_base::{BrokenRule, NoMemory, Rule, Span};
use hy_signatures::source::Source;
use hy_signatures::tables::Tables;
use hy_signatures::types::Types;
use hy_signatures::written::number_written;
use hy_tree::{Meant, TypeExp, TypeParam};
use hy_types::{Ty, TyId};
use indexmap::IndexMap;
use std::alloc::Global;

/// What a walk over the bodies of a source knows: the source and its tables, the types so far, what is known around the next phrase,
/// the first of the broken rules so far, and the types of nodes so far.
#[derive(Drop)]
pub struct Checker<'a> {
    pub source: Source<'a>,
    pub tables: Tables<'a>,
    pub types: Types,
    pub generics: &'a [TypeParam],
    /// The type of `self`.
    pub own: Option<TyId>,
    /// The types of variables, parameters and new values, by the nodes that declare them.
    pub locals: IndexMap<u32, Option<TyId>>,
    pub first: Option<BrokenRule>,
    /// The types of nodes.
    pub noted: IndexMap<u32, TyId>,
}

/// Keeps the type of a node.
fn put(noted: &mut IndexMap<u32, TyId>, node: u32, id: TyId) -> Result<(), NoMemory>
    ensures { OnOk result ((other : ℕ) → noted_at noted.new.entries other ≡ cond (node == other) (Some id) (noted_at noted.old.entries other)) }
{
    noted.insert(node, id)?;
    Ok(())
}

impl<'a> Checker<'a> {
    /// The types so far.
    pub fn types(&self) -> &Types
        ensures { result.now ≡ self.now.types }
    {
        &self.types
    }

    /// What the name at a node stands for.
    pub fn meaning(&self, node: u32) -> Meant
        ensures { result ≡ (known_of self.now).around.source.meant node }
    {
        self.source.meaning(node)
    }

    /// The type of `self`, where there is one.
    pub fn own(&self) -> Option<TyId>
        requires { IsRight self.now }
        ensures own { type_shown self.now.types result ≡ (known_of self.now).around.own }
        ensures known { IfSome result (λ id. HasId self.now.types id) }
    {
        self.own
    }

    /// The type of the variable, parameter or new value that is declared at a node, where it has one.
    pub fn local(&self, node: u32) -> Option<TyId>
        requires { IsRight self.now }
        ensures local { type_shown self.now.types result ≡ (known_of self.now).around.locals node }
        ensures known { IfSome result (λ id. HasId self.now.types id) }
    {
        match self.locals.get(&node) {
            Some(id) => *id,
            None => None,
        }
    }

    /// The number of a type, whose parts are among the types so far.
    pub fn number(&mut self, ty: Ty) -> Result<TyId, NoMemory>
        requires right { IsRight self.old }
        requires parts { HasIds self.old.types (mentioned ty) }
        ensures number { IfOk result (λ id. IsNumber self.new.types (type_of_row self.old.types ty) id) }
        ensures right { IsRight self.new }
        ensures learns { Learns (known_of self.old) (known_of self.new) [] [] }
    {
        self.types.number(ty)
    }

    /// The number of a written type.
    pub fn written(&mut self, alloc: Global, written: &TypeExp) -> Result<TyId, NoMemory>
        requires { IsRight self.old }
        ensures number { IfOk result (λ id. IsNumber self.new.types (written_type (known_of self.old).around.source (type_of written.now)) id) }
        ensures right { IsRight self.new }
        ensures learns { Learns (known_of self.old) (known_of self.new) [] [] }
    {
        number_written(alloc, &self.source, &mut self.types, written)
    }

    /// Meets a broken rule, where `broken` says so.
    pub fn meet(&mut self, broken: bool, rule: Rule, span: Span)
        requires { IsRight self.old }
        ensures right { IsRight self.new }
        ensures learns { Learns (known_of self.old) (known_of self.new) (when broken rule span) [] }
        ensures table { self.new.types ≡ self.old.types }
    {
        self.first = meet_when(self.first, broken, rule, span);
    }

    /// Notes the type of a node, where it has one and none is noted.
    pub fn note(&mut self, node: u32, id: Option<TyId>) -> Result<(), NoMemory>
        requires right { IsRight self.old }
        requires known { IfSome id (λ id. HasId self.old.types id) }
        ensures right { OnOk result (IsRight self.new) }
        ensures learns { OnOk result (Learns (known_of self.old) (known_of self.new) [] (has_type node (type_shown self.old.types id))) }
        ensures table { self.new.types ≡ self.old.types }
    {
        let Some(id) = id else {
            return Ok(());
        };
        if self.noted.contains_key(&node) {
            return Ok(());
        }
        put(&mut self.noted, node, id)?;
        Ok(())
    }
}

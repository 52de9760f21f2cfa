// Types of parameters, results, fields and new values of declarations.
ghost use Rattle.std.specs.Prelude.{◌≡◌, [], IfOk, OnOk, flat_map, map};
ghost use Rattle.std.specs.Option.{option_map};
ghost use Rattle.hy_tree.specs.Denotes.{type_of, param_of, callable_of, variant_of, member_of, member_kind_of, decl_of, decl_kind_of};
ghost use Rattle.hy_tree.specs.Tree as T;
ghost use Rattle.hy_signatures.specs.Declarations.{result_type};
ghost use Rattle.hy_signatures.specs.Numbered.{IsNumber};
ghost use Rattle.hy_check.specs.Facts.{param_facts, written_facts, variant_facts, callable_facts, kind_facts, members_facts, decl_facts};
ghost use Rattle.hy_check.specs.Known.{Learns};
ghost use Rattle.hy_check.specs.KnownShown.{IsRight, known_of};

use crate::checker::Checker;
use hy_base::NoMemory;
use hy_tree::{Callable, Decl, DeclKind, Member, MemberKind, Param, TypeExp, Variant};
use hy_types::TyId;
use std::alloc::Global;

impl Checker<'_> {
    /// Notes the type of a parameter.
    fn note_param(&mut self, alloc: Global, p: &Param) -> Result<(), NoMemory>
        requires { IsRight self.old }
        ensures right { OnOk result (IsRight self.new) }
        ensures learns { OnOk result (Learns (known_of self.old) (known_of self.new) [] (param_facts (known_of self.old).around.source (param_of p.now))) }
    {
        let id = self.note_written(alloc, &p.written)?;
        self.note(p.node, Some(id))?;
        Ok(())
    }

    fn note_params(&mut self, alloc: Global, params: &[Param]) -> Result<(), NoMemory>
        requires { IsRight self.old }
        ensures right { OnOk result (IsRight self.new) }
        ensures learns { OnOk result (Learns (known_of self.old) (known_of self.new) []
            (flat_map (param_facts (known_of self.old).around.source) (map param_of params.now))) }
    {
        for p in params {
            self.note_param(alloc, p)?;
        }
        Ok(())
    }

    /// Notes the type of a result, where one is written, and answers its number.
    fn note_result(&mut self, alloc: Global, written: &Option<TypeExp>) -> Result<TyId, NoMemory>
        requires { IsRight self.old }
        ensures number { IfOk result (λ id. IsNumber self.new.types (result_type (known_of self.old).around.source (option_map type_of written.now)) id) }
        ensures right { OnOk result (IsRight self.new) }
        ensures learns { OnOk result (Learns (known_of self.old) (known_of self.new) []
            (written_facts (known_of self.old).around.source (option_map type_of written.now))) }
    {
        match written {
            Some(written) => {
                let id = self.note_written(alloc, written)?;
                Ok(id)
            }
            None => Ok(self.types.unit()),
        }
    }

    /// Notes the type of the new value of a variant, where it has one: `id` is that of what the subscript yields.
    fn note_variant(&mut self, v: &Variant, id: TyId) -> Result<(), NoMemory>
        requires right { IsRight self.old }
        requires number { (c : T.Callable) × IsNumber self.old.types (result_type (known_of self.old).around.source c.result) id }
        ensures right { OnOk result (IsRight self.new) }
        ensures learns { OnOk result ((c : T.Callable) → IsNumber self.old.types (result_type (known_of self.old).around.source c.result) id
            → Learns (known_of self.old) (known_of self.new) [] (variant_facts (known_of self.old).around.source c (variant_of v.now))) }
    {
        match &v.value {
            Some(_) => {
                self.note(v.node, Some(id))?;
                Ok(())
            }
            None => Ok(()),
        }
    }

    fn note_variants(&mut self, variants: &[Variant], id: TyId) -> Result<(), NoMemory>
        requires right { IsRight self.old }
        requires number { (c : T.Callable) × IsNumber self.old.types (result_type (known_of self.old).around.source c.result) id }
        ensures right { OnOk result (IsRight self.new) }
        ensures learns { OnOk result ((c : T.Callable) → IsNumber self.old.types (result_type (known_of self.old).around.source c.result) id
            → Learns (known_of self.old) (known_of self.new) [] (flat_map (variant_facts (known_of self.old).around.source c) (map variant_of variants.now))) }
    {
        for v in variants {
            self.note_variant(v, id)?;
        }
        Ok(())
    }

    /// Notes the types of what can be called.
    fn note_callable(&mut self, alloc: Global, c: &Callable) -> Result<(), NoMemory>
        requires { IsRight self.old }
        ensures right { OnOk result (IsRight self.new) }
        ensures learns { OnOk result (Learns (known_of self.old) (known_of self.new) []
            (callable_facts (known_of self.old).around.source (callable_of c.now))) }
    {
        self.note_params(alloc, c.params.as_slice())?;
        let id = self.note_result(alloc, &c.result)?;
        self.note_variants(c.variants.as_slice(), id)?;
        Ok(())
    }

    fn note_member(&mut self, alloc: Global, member: &Member) -> Result<(), NoMemory>
        requires { IsRight self.old }
        ensures right { OnOk result (IsRight self.new) }
        ensures learns { OnOk result (Learns (known_of self.old) (known_of self.new) []
            (kind_facts (known_of self.old).around.source (member_of member.now).kind)) }
    {
        match &member.kind {
            MemberKind::Field(_, written) => {
                self.note_written(alloc, written)?;
                Ok(())
            }
            MemberKind::MemberwiseInit => Ok(()),
            MemberKind::Callable(c) => {
                self.note_callable(alloc, c)?;
                Ok(())
            }
        }
    }

    fn note_members(&mut self, alloc: Global, members: &[Member]) -> Result<(), NoMemory>
        requires { IsRight self.old }
        ensures right { OnOk result (IsRight self.new) }
        ensures learns { OnOk result (Learns (known_of self.old) (known_of self.new) []
            (members_facts (known_of self.old).around.source (map member_of members.now))) }
    {
        for member in members {
            self.note_member(alloc, member)?;
        }
        Ok(())
    }

    fn note_decl(&mut self, alloc: Global, decl: &DeclKind) -> Result<(), NoMemory>
        requires { IsRight self.old }
        ensures right { OnOk result (IsRight self.new) }
        ensures learns { OnOk result (Learns (known_of self.old) (known_of self.new) []
            (decl_facts (known_of self.old).around.source (decl_kind_of decl.now))) }
    {
        match decl {
            DeclKind::Callable(c) => {
                self.note_callable(alloc, c)?;
                Ok(())
            }
            DeclKind::Product(p) => {
                self.note_members(alloc, p.members.as_slice())?;
                Ok(())
            }
            DeclKind::Trait(t) => {
                self.note_members(alloc, t.members.as_slice())?;
                Ok(())
            }
            DeclKind::Conformance(c) => {
                self.note_members(alloc, c.members.as_slice())?;
                Ok(())
            }
        }
    }

    /// Notes the types of the parameters, results, fields and new values of declarations.
    pub fn note_decls(&mut self, alloc: Global, decls: &[Decl]) -> Result<(), NoMemory>
        requires { IsRight self.old }
        ensures right { OnOk result (IsRight self.new) }
        ensures learns { OnOk result (Learns (known_of self.old) (known_of self.new) []
            (flat_map (λ (decl : T.Decl). decl_facts (known_of self.old).around.source decl.kind) (map decl_of decls.now))) }
    {
        for decl in decls {
            self.note_decl(alloc, &decl.kind)?;
        }
        Ok(())
    }
}

// Types of nodes that are written, and of what declarations declare.
ghost use Rattle.std.specs.Prelude.{◌≡◌, [], ◌∷◌, IfOk, OnOk};
ghost use Rattle.hy_tree.specs.Denotes.{type_of, types_of};
ghost use Rattle.hy_types.specs.Types.{HasIds, mentioned, type_of_row};
ghost use Rattle.hy_signatures.specs.Declarations.{written_type, written_types};
ghost use Rattle.hy_signatures.specs.NamedShown.{named_shown};
ghost use Rattle.hy_signatures.specs.Numbered.{IsNumber, AreNumbers};
ghost use Rattle.hy_check.specs.Facts.{HasType, type_facts, types_facts};
ghost use Rattle.hy_check.specs.Known.{Learns};
ghost use Rattle.hy_check.specs.KnownShown.{IsRight, known_of};

use crate::checker::Checker;
use hy_base::NoMemory;
use hy_signatures::named::{Named, type_named};
use hy_tree::{TypeExp, TypeKind};
use hy_types::{Ty, TyId, TyList};
use std::alloc::Global;

impl Checker<'_> {
    /// Notes that a node has a type, whose parts are among the types so far.
    fn note_type(&mut self, node: u32, ty: Ty) -> Result<TyId, NoMemory>
        requires right { IsRight self.old }
        requires parts { HasIds self.old.types (mentioned ty) }
        ensures number { IfOk result (λ id. IsNumber self.new.types (type_of_row self.old.types ty) id) }
        ensures right { OnOk result (IsRight self.new) }
        ensures learns { OnOk result (Learns (known_of self.old) (known_of self.new) [] (HasType node (type_of_row self.old.types ty) ∷ [])) }
    {
        let id = self.number(ty)?;
        self.note(node, Some(id))?;
        Ok(id)
    }

    /// Notes that a node has a type that a name stands for.
    fn note_named(&mut self, node: u32, named: Named) -> Result<TyId, NoMemory>
        requires { IsRight self.old }
        ensures number { IfOk result (λ id. IsNumber self.new.types (named_shown named) id) }
        ensures right { OnOk result (IsRight self.new) }
        ensures learns { OnOk result (Learns (known_of self.old) (known_of self.new) [] (HasType node (named_shown named) ∷ [])) }
    {
        let id = self.named(named)?;
        self.note(node, Some(id))?;
        Ok(id)
    }

    /// The number of a type that a name stands for.
    fn named(&mut self, named: Named) -> Result<TyId, NoMemory>
        requires { IsRight self.old }
        ensures number { IfOk result (λ id. IsNumber self.new.types (named_shown named) id) }
        ensures right { IsRight self.new }
        ensures learns { Learns (known_of self.old) (known_of self.new) [] [] }
    {
        self.types.number_named(named)
    }

    /// Notes the types of a written type and of its parts, and answers its number.
    #[cycle(noting)]
    #[tactic(auto, using(hy_tree::proofs::Equations::type_variants))]
    pub fn note_written(&mut self, alloc: Global, written: &TypeExp) -> Result<TyId, NoMemory>
        requires { IsRight self.old }
        ensures number { IfOk result (λ id. IsNumber self.new.types (written_type (known_of self.old).around.source (type_of written.now)) id) }
        ensures right { OnOk result (IsRight self.new) }
        ensures learns { OnOk result (Learns (known_of self.old) (known_of self.new) [] (type_facts (known_of self.old).around.source (type_of written.now))) }
    {
        match &written.kind {
            TypeKind::Name(_) => {
                let id = self.note_named(written.node, type_named(self.meaning(written.node)))?;
                Ok(id)
            }
            TypeKind::SelfType(_) => {
                let id = self.note_named(written.node, type_named(self.meaning(written.node)))?;
                Ok(id)
            }
            TypeKind::Array(element) => {
                let element = self.note_written(alloc, element.get())?;
                let id = self.note_type(written.node, Ty::Array(element))?;
                Ok(id)
            }
            TypeKind::Tuple(parts) => {
                let parts = self.note_all_written(alloc, parts.as_slice())?;
                let id = self.note_type(written.node, Ty::Tuple(parts))?;
                Ok(id)
            }
        }
    }

    #[cycle(noting)]
    fn note_all_written(&mut self, alloc: Global, parts: &[TypeExp]) -> Result<TyList, NoMemory>
        requires { IsRight self.old }
        ensures numbers { IfOk result (λ ids. AreNumbers self.new.types (written_types (known_of self.old).around.source (types_of parts.now)) ids) }
        ensures right { OnOk result (IsRight self.new) }
        ensures learns { OnOk result (Learns (known_of self.old) (known_of self.new) [] (types_facts (known_of self.old).around.source (types_of parts.now))) }
    {
        let mut ids = Vec::new(alloc);
        for part in parts {
            ids.push(self.note_written(alloc, part)?)?;
        }
        Ok(TyList::from_vec(ids))
    }
}

// Members of types and of traits: fields with their types, and what is called by its full name.
ghost use Rattle.std.specs.Prelude.{◌≡◌, ◌++◌, ◌∷◌, [], ℕ, List, IfOk, OnOk, Some, None, cond, map};
ghost use Rattle.std.specs.Option.{option_map};
ghost use Rattle.std.specs.Str.{bytes_eq};
ghost use Rattle.hy_tree.specs.Denotes.{type_of, callable_of, member_of};
ghost use Rattle.hy_tree.specs.Names.{or, own_name};
ghost use Rattle.hy_tree.specs.Tree as T;
ghost use Rattle.hy_tree.specs.declared.declaration.CallableKind.{CallableKind};
ghost use Rattle.hy_types.specs.Types.{Table, Extends};
ghost use Rattle.hy_signatures.specs.CallablesShown.{HasTypes};
ghost use Rattle.hy_signatures.specs.Declarations as declarations;
ghost use Rattle.hy_signatures.specs.Declarations.{Field, written_type};
ghost use Rattle.hy_signatures.specs.MembersShown.{HasFields, HasMembers, AreByName, by_name_shown, row_named};
ghost use Rattle.hy_signatures.specs.Shown.{source_shown};

use crate::callables::{CallableTypes, with_types};
use crate::source::Source;
use crate::types::Types;
use crate::written::number_written;
use hy_base::NoMemory;
use hy_scope::{base_of, declared_name};
use hy_tree::{Callable, CallableKind, Member, MemberKind, Name, TypeExp};
use hy_types::TyId;
use indexmap::IndexMap;
use std::alloc::Global;

/// A field: its name, the node of its member, its type as it is written, and the number of that type.
#[derive(Clone, Copy)]
pub struct FieldType<'a> {
    pub name: &'a Name,
    pub node: u32,
    pub written: &'a TypeExp,
    pub number: TyId,
}

/// Keeps a field after others.
fn add_field<'a>(
    alloc: Global,
    source: &Source,
    types: &mut Types,
    fields: &mut Vec<FieldType<'a>>,
    name: &'a Name,
    node: u32,
    written: &'a TypeExp,
) -> Result<(), NoMemory>
    ensures fields { OnOk result ((before : List Field) → HasFields types.old before fields.old.items → HasFields types.new
        (before ++ record {
          name = name.now.text;
          node = node;
          written = type_of written.now;
          type = written_type (source_shown source.now) (type_of written.now);
        } ∷ []) fields.new.items) }
    ensures stays { Extends types.old types.new }
{
    let number = number_written(alloc, source, types, written)?;
    fields.push(FieldType {
        name,
        node,
        written,
        number,
    })?;
    Ok(())
}

/// Members that are called, by full name.
#[derive(Drop)]
pub struct ByName<'a> {
    rows: IndexMap<Vec<u8>, CallableTypes<'a>>,
}

/// The full name of what is declared.
fn full_name_of(alloc: Global, c: &Callable) -> Result<Vec<u8>, NoMemory>
    ensures { IfOk result (λ name. name.items ≡ own_name (callable_of c.now)) }
{
    declared_name(alloc, base_of(&c.name), c.params.as_slice())
}

impl<'a> ByName<'a> {
    /// Nothing is called.
    pub fn new(alloc: Global) -> ByName<'a>
        ensures { (name : List ℕ) → row_named result name ≡ None }
    {
        ByName {
            rows: IndexMap::new(alloc),
        }
    }

    /// What has a full name.
    pub fn at(&self, name: &[u8]) -> Option<&CallableTypes<'a>>
        ensures { option_map (λ row. row.now) result ≡ row_named self.now name.now }
    {
        self.rows.get(name)
    }

    /// Keeps what is called, where nothing is kept for its full name.
    fn add(
        &mut self,
        alloc: Global,
        source: &Source,
        types: &mut Types,
        c: &'a Callable,
    ) -> Result<(), NoMemory>
        ensures members { OnOk result ((wanted : CallableKind) (before : List T.Member) (member : T.Member) → c.now.kind ≡ wanted
            → member.kind ≡ T.MemberCallable (callable_of c.now)
            → AreByName types.old (source_shown source.now) wanted before self.old
            → AreByName types.new (source_shown source.now) wanted (before ++ member ∷ []) self.new) }
        ensures stays { Extends types.old types.new }
    {
        let name = full_name_of(alloc, c)?;
        if self.rows.contains_key(name.as_slice()) {
            return Ok(());
        }
        let row = with_types(alloc, source, types, c)?;
        self.rows.insert(name, row)?;
        Ok(())
    }
}

/// Members of a type or a trait.
#[derive(Drop)]
pub struct Members<'a> {
    pub fields: Vec<FieldType<'a>>,
    pub functions: ByName<'a>,
    pub subscripts: ByName<'a>,
    pub requirements: ByName<'a>,
}

impl<'a> Members<'a> {
    /// No members.
    pub fn new(alloc: Global) -> Members<'a>
        ensures { (table : Table) (source : declarations.Source) → HasMembers table source [] result }
    {
        let functions = ByName::new(alloc);
        let subscripts = ByName::new(alloc);
        let requirements = ByName::new(alloc);
        Members {
            fields: Vec::new(alloc),
            functions,
            subscripts,
            requirements,
        }
    }

    /// Keeps a member that is called.
    fn add_callable(
        &mut self,
        alloc: Global,
        source: &Source,
        types: &mut Types,
        c: &'a Callable,
    ) -> Result<(), NoMemory>
        ensures members { OnOk result ((before : List T.Member) (member : T.Member) → member.kind ≡ T.MemberCallable (callable_of c.now)
            → HasMembers types.old (source_shown source.now) before self.old
            → HasMembers types.new (source_shown source.now) (before ++ member ∷ []) self.new) }
        ensures stays { Extends types.old types.new }
    {
        match c.kind {
            CallableKind::Function => {
                self.functions.add(alloc, source, types, c)?;
                Ok(())
            }
            CallableKind::Subscript => {
                self.subscripts.add(alloc, source, types, c)?;
                Ok(())
            }
            CallableKind::Requirement => {
                self.requirements.add(alloc, source, types, c)?;
                Ok(())
            }
            CallableKind::Deinit => Ok(()),
        }
    }

    /// Keeps a member.
    fn add(
        &mut self,
        alloc: Global,
        source: &Source,
        types: &mut Types,
        member: &'a Member,
    ) -> Result<(), NoMemory>
        ensures members { OnOk result ((before : List T.Member) → HasMembers types.old (source_shown source.now) before self.old
            → HasMembers types.new (source_shown source.now) (before ++ member_of member.now ∷ []) self.new) }
        ensures stays { Extends types.old types.new }
    {
        match &member.kind {
            MemberKind::Field(name, written) => {
                let node = member.node;
                add_field(alloc, source, types, &mut self.fields, name, node, written)?;
                Ok(())
            }
            MemberKind::MemberwiseInit => Ok(()),
            MemberKind::Callable(c) => self.add_callable(alloc, source, types, c),
        }
    }

    /// Keeps some members.
    pub fn add_all(
        &mut self,
        alloc: Global,
        source: &Source,
        types: &mut Types,
        members: &'a [Member],
    ) -> Result<(), NoMemory>
        ensures members { OnOk result ((before : List T.Member) → HasMembers types.old (source_shown source.now) before self.old
            → HasMembers types.new (source_shown source.now) (before ++ map member_of members.now) self.new) }
        ensures stays { OnOk result (Extends types.old types.new) }
    {
        for member in members {
            self.add(alloc, source, types, member)?;
        }
        Ok(())
    }
}

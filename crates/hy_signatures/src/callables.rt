// Functions, methods, subscripts, bodies of `deinit` and requirements, by the nodes of their declarations.
ghost use Rattle.std.specs.Prelude.{◌≡◌, ℕ, IfOk, OnOk, None, map};
ghost use Rattle.std.specs.Option.{option_map};
ghost use Rattle.hy_tree.specs.Denotes.{type_of, param_of, callable_of, member_of, member_kind_of, decl_of, decl_kind_of};
ghost use Rattle.hy_tree.specs.Names.{or};
ghost use Rattle.hy_types.specs.Types.{Extends};
ghost use Rattle.hy_signatures.specs.CallablesShown.{callables_shown, row_at, parameter_types, HasTypes, HaveTypes, Keeps, AreCallables};
ghost use Rattle.hy_signatures.specs.Declarations.{result_type, callable_if, member_if, callable_among, callable_in, callable_at};
ghost use Rattle.hy_signatures.specs.Numbered.{IsNumber, AreNumbers};
ghost use Rattle.hy_signatures.specs.Shown.{source_shown};

use crate::source::Source;
use crate::types::Types;
use crate::written::number_written;
use hy_base::NoMemory;
use hy_tree::{Callable, Decl, DeclKind, Member, MemberKind, Param, TypeExp};
use hy_types::{TyId, TyList};
use indexmap::IndexMap;
use std::alloc::Global;

/// What can be called, with the types of its parameters and of what it gives.
#[derive(Drop)]
pub struct CallableTypes<'a> {
    pub callable: &'a Callable,
    pub params: TyList,
    pub result: TyId,
}

/// What can be called, by the node of its declaration.
#[derive(Drop)]
pub struct Callables<'a> {
    rows: IndexMap<u32, CallableTypes<'a>>,
}

/// The numbers of the types of parameters.
fn number_params(
    alloc: Global,
    source: &Source,
    types: &mut Types,
    params: &[Param],
) -> Result<TyList, NoMemory>
    ensures numbers { IfOk result (λ ids. AreNumbers types.new (parameter_types (source_shown source.now) (map param_of params.now)) ids) }
    ensures stays { Extends types.old types.new }
{
    let mut ids = Vec::new(alloc);
    for p in params {
        ids.push(number_written(alloc, source, types, &p.written)?)?;
    }
    Ok(TyList::from_vec(ids))
}

/// The number of the type that is written, or that of `()`.
pub fn number_result(
    alloc: Global,
    source: &Source,
    types: &mut Types,
    written: &Option<TypeExp>,
) -> Result<TyId, NoMemory>
    ensures number { IfOk result (λ id. IsNumber types.new (result_type (source_shown source.now) (option_map type_of written.now)) id) }
    ensures stays { Extends types.old types.new }
{
    match written {
        Some(written) => number_written(alloc, source, types, written),
        None => Ok(types.unit()),
    }
}

/// What can be called, with its types.
pub fn with_types<'a>(
    alloc: Global,
    source: &Source,
    types: &mut Types,
    c: &'a Callable,
) -> Result<CallableTypes<'a>, NoMemory>
    ensures callable { IfOk result (λ row. row.callable.now ≡ c.now) }
    ensures types { IfOk result (λ row. HasTypes types.new (source_shown source.now) (callable_of c.now) row) }
    ensures stays { Extends types.old types.new }
{
    let params = number_params(alloc, source, types, c.params.as_slice())?;
    let result = number_result(alloc, source, types, &c.result)?;
    Ok(CallableTypes {
        callable: c,
        params,
        result,
    })
}

impl<'a> Callables<'a> {
    /// Nothing is declared.
    pub fn new(alloc: Global) -> Callables<'a>
        ensures { (node : ℕ) → row_at result node ≡ None }
    {
        Callables {
            rows: IndexMap::new(alloc),
        }
    }

    /// What is declared at a node.
    pub fn at(&self, node: u32) -> Option<&CallableTypes<'a>>
        ensures { option_map (λ row. row.now) result ≡ row_at self.now node }
    {
        self.rows.get(&node)
    }

    /// Keeps what can be called, where nothing is kept at its node.
    fn put(
        &mut self,
        alloc: Global,
        source: &Source,
        types: &mut Types,
        c: &'a Callable,
    ) -> Result<(), NoMemory>
        ensures shown { OnOk result ((node : ℕ) → callables_shown self.new node ≡ or (callables_shown self.old node) (callable_if node
            (callable_of c.now))) }
        ensures types { OnOk result (HaveTypes types.old (source_shown source.now) self.old → HaveTypes types.new (source_shown source.now) self.new) }
        ensures stays { Extends types.old types.new }
    {
        if self.rows.contains_key(&c.node) {
            return Ok(());
        }
        let row = with_types(alloc, source, types, c)?;
        self.rows.insert(c.node, row)?;
        Ok(())
    }

    /// Keeps a member that can be called.
    fn put_member(
        &mut self,
        alloc: Global,
        source: &Source,
        types: &mut Types,
        member: &'a MemberKind,
    ) -> Result<(), NoMemory>
        ensures { OnOk result (Keeps types.old types.new (source_shown source.now) self.old self.new (λ node. member_if node (member_kind_of member.now))) }
    {
        match member {
            MemberKind::Field(_, _) => Ok(()),
            MemberKind::MemberwiseInit => Ok(()),
            MemberKind::Callable(c) => {
                self.put(alloc, source, types, c)?;
                Ok(())
            }
        }
    }

    /// Keeps the members that can be called.
    fn put_members(
        &mut self,
        alloc: Global,
        source: &Source,
        types: &mut Types,
        members: &'a [Member],
    ) -> Result<(), NoMemory>
        ensures { OnOk result (Keeps types.old types.new (source_shown source.now) self.old self.new
            (λ node. callable_among node (map member_of members.now))) }
    {
        for member in members {
            self.put_member(alloc, source, types, &member.kind)?;
        }
        Ok(())
    }

    /// Keeps what can be called in a declaration.
    fn put_decl(
        &mut self,
        alloc: Global,
        source: &Source,
        types: &mut Types,
        decl: &'a DeclKind,
    ) -> Result<(), NoMemory>
        ensures { OnOk result (Keeps types.old types.new (source_shown source.now) self.old self.new (λ node. callable_in node (decl_kind_of decl.now))) }
    {
        match decl {
            DeclKind::Callable(c) => {
                self.put(alloc, source, types, c)?;
                Ok(())
            }
            DeclKind::Product(p) => self.put_members(alloc, source, types, p.members.as_slice()),
            DeclKind::Trait(t) => self.put_members(alloc, source, types, t.members.as_slice()),
            DeclKind::Conformance(c) => {
                self.put_members(alloc, source, types, c.members.as_slice())
            }
        }
    }

    /// Keeps what can be called in some declarations.
    fn put_decls(
        &mut self,
        alloc: Global,
        source: &Source,
        types: &mut Types,
        decls: &'a [Decl],
    ) -> Result<(), NoMemory>
        ensures { OnOk result (Keeps types.old types.new (source_shown source.now) self.old self.new (λ node. callable_at node (map decl_of decls.now))) }
    {
        for decl in decls {
            self.put_decl(alloc, source, types, &decl.kind)?;
        }
        Ok(())
    }
}

/// All that can be called in a source.
pub fn callables_of<'a>(
    alloc: Global,
    source: &Source<'a>,
    types: &mut Types,
) -> Result<Callables<'a>, NoMemory>
    ensures callables { IfOk result (λ callables. AreCallables types.new (source_shown source.now) callables) }
    ensures stays { OnOk result (Extends types.old types.new) }
{
    let mut callables = Callables::new(alloc);
    callables.put_decls(alloc, source, types, source.decls)?;
    Ok(callables)
}

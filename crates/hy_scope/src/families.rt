// The members of types.
ghost use Rattle.std.specs.Prelude.{◌≡◌, ◌||◌, IfOk, OnOk, cond, map};
ghost use Rattle.std.specs.Str.{bytes_eq};
ghost use Rattle.hy_tree.specs.Denotes.{callable_of, member_kind_of, member_of};
ghost use Rattle.hy_tree.specs.FileNames as file_names;
ghost use Rattle.hy_tree.specs.FileNames.{no_family, with_member, with_members, with_asked, with_all_asked};
ghost use Rattle.hy_tree.specs.Findings.{twice_member, twice_members, when, Broken};
ghost use Rattle.hy_tree.specs.Names.{no_names, with_name, is_there, base_text};
ghost use Rattle.hy_base.specs.declared.refusal.Rule.TheVariants.{N2};
ghost use Rattle.hy_tree.specs.Tree.{MemberCallable};
ghost use Rattle.hy_tree.specs.declared.meant.Meant.TheVariants as meaning;
ghost use Rattle.hy_scope.specs.Noted.{after};
ghost use Rattle.hy_scope.specs.Shown.{family_of, families_of, names_of, noted};

use crate::declared::is_reserved;
use crate::full_name::declared_name;
use crate::notes::Notes;
use crate::table::Table;
use hy_base::{NoMemory, Rule};
use hy_tree::{Callable, CallableKind, Meant, Member, MemberKind, Name};
use indexmap::IndexMap;
use std::alloc::Global;

/// The members of a type: its fields by name, the base names of its methods and subscripts, and these by full name.
#[derive(Drop)]
pub struct Family {
    pub fields: Table,
    pub bases: Table,
    pub callables: Table,
}

/// The base name of what is called; none is the empty text.
pub fn base_of(name: &Option<Name>) -> &[u8]
    ensures { result.now ≡ base_text name.now }
{
    match name {
        Some(name) => name.text.as_slice(),
        None => b"".as_slice(),
    }
}

/// The name of a member that is called.
fn member_name(alloc: Global, c: &Callable) -> Result<Vec<u8>, NoMemory>
    ensures { IfOk result (λ text. text.items ≡ file_names.member_name (callable_of c.now)) }
{
    if let CallableKind::Deinit = c.kind {
        return Ok(Vec::from_slice(alloc, b"deinit".as_slice())?);
    }
    declared_name(alloc, base_of(&c.name), c.params.as_slice())
}

impl Family {
    /// No members.
    pub fn new(alloc: Global) -> Family
        ensures { family_of result ≡ no_family }
    {
        let fields = Table::new(alloc);
        let bases = Table::new(alloc);
        let callables = Table::new(alloc);
        Family {
            fields,
            bases,
            callables,
        }
    }

    /// A field after the members that are there.
    fn declare_field(
        &mut self,
        alloc: Global,
        notes: &mut Notes,
        name: &Name,
        node: u32,
    ) -> Result<(), NoMemory>
        ensures notes { OnOk result (noted notes.new
            ≡ after (when (is_there (names_of self.old.fields name.now.text) || (is_there (names_of self.old.bases name.now.text) || file_names.is_reserved
            name.now.text)) (Broken N2 name.now.span)) (noted notes.old)) }
        ensures family { OnOk result (family_of self.new ≡ record (family_of self.old) {
          fields = with_name name.now.text (meaning.SelfField node)
              (names_of self.old.fields);
        }) }
    {
        let shares = self.bases.find(name.text.as_slice()).is_some();
        let was = self
            .fields
            .put(alloc, name.text.as_slice(), Meant::SelfField(node))?;
        let twice = was || (shares || is_reserved(name.text.as_slice()));
        notes.when(twice, Rule::N2, name.span);
        Ok(())
    }

    /// A method, subscript or `deinit` after the members that are there.
    fn declare_callable(
        &mut self,
        alloc: Global,
        notes: &mut Notes,
        c: &Callable,
    ) -> Result<(), NoMemory>
        ensures notes { OnOk result (noted notes.new ≡ after (twice_member (family_of self.old) (MemberCallable (callable_of c.now))) (noted notes.old)) }
        ensures family { OnOk result (family_of self.new ≡ with_member (family_of self.old) 0 (MemberCallable (callable_of c.now))) }
    {
        let base = base_of(&c.name);
        let name = member_name(alloc, c)?;
        let is_copy = name.as_slice() == b"copy()".as_slice();
        let shares = self.fields.find(base).is_some();
        let was = self.callables.put(alloc, name.as_slice(), Meant::Nothing)?;
        self.bases.put(alloc, base, Meant::Nothing)?;
        let twice = shares || (was || (is_reserved(base) || is_copy));
        notes.when(twice, Rule::N2, c.name_span());
        Ok(())
    }

    /// A member after those that are there.
    fn declare(&mut self, alloc: Global, notes: &mut Notes, member: &Member) -> Result<(), NoMemory>
        ensures notes { OnOk result (noted notes.new ≡ after (twice_member (family_of self.old) (member_kind_of member.now.kind)) (noted notes.old)) }
        ensures family { OnOk result (family_of self.new ≡ with_member (family_of self.old) member.now.node (member_kind_of member.now.kind)) }
    {
        match &member.kind {
            MemberKind::Field(name, _) => self.declare_field(alloc, notes, name, member.node),
            MemberKind::MemberwiseInit => Ok(()),
            MemberKind::Callable(c) => self.declare_callable(alloc, notes, c),
        }
    }
}

/// The name of a member can be asked for from now on.
fn ask(alloc: Global, asked: &mut Table, member: &MemberKind) -> Result<(), NoMemory>
    ensures { OnOk result (names_of asked.new ≡ with_asked (names_of asked.old) (member_kind_of member.now)) }
{
    let name = match member {
        MemberKind::Field(name, _) => name,
        MemberKind::MemberwiseInit => return Ok(()),
        MemberKind::Callable(c) => match &c.name {
            Some(name) => name,
            None => return Ok(()),
        },
    };
    asked.put(alloc, name.text.as_slice(), Meant::Nothing)?;
    Ok(())
}

/// Members after those that are there.
pub fn declare_members(
    alloc: Global,
    notes: &mut Notes,
    family: &mut Family,
    asked: &mut Table,
    members: &[Member],
) -> Result<(), NoMemory>
    ensures notes { OnOk result (noted notes.new ≡ after (twice_members (family_of family.old) (map member_of members.now)) (noted notes.old)) }
    ensures family { OnOk result (family_of family.new ≡ with_members (family_of family.old) (map member_of members.now)) }
    ensures asked { OnOk result (names_of asked.new ≡ with_all_asked (names_of asked.old) (map member_of members.now)) }
{
    for member in members {
        family.declare(alloc, notes, member)?;
        ask(alloc, asked, &member.kind)?;
    }
    Ok(())
}

/// The members of each type by its name.
#[derive(Drop)]
pub struct Families {
    families: IndexMap<Vec<u8>, Family>,
}

impl Families {
    /// No type has members.
    pub fn new(alloc: Global) -> Families
        ensures { families_of result ≡ (λ owner. no_family) }
    {
        Families {
            families: IndexMap::new(alloc),
        }
    }

    /// The fields of a type, or `none` where it has no members.
    pub fn fields<'a>(&'a self, owner: &[u8], none: &'a Table) -> &'a Table
        requires { names_of none.now ≡ no_names }
        ensures { names_of result.now ≡ (families_of self.now owner.now).fields }
    {
        match self.families.get(owner) {
            Some(family) => &family.fields,
            None => none,
        }
    }

    /// Takes the members of a type out.
    pub fn take(&mut self, alloc: Global, owner: &[u8]) -> Result<Family, NoMemory>
        ensures family { IfOk result (λ family. family_of family ≡ families_of self.old owner.now) }
        ensures rest { OnOk result (families_of self.new ≡ (λ name. cond (bytes_eq name owner.now) no_family (families_of self.old name))) }
    {
        let copy = Vec::from_slice(alloc, owner)?;
        let old = self.families.insert(copy, Family::new(alloc))?;
        match old {
            Some(family) => Ok(family),
            None => Ok(Family::new(alloc)),
        }
    }

    /// Puts the members of a type in place of those that it has.
    pub fn put(&mut self, alloc: Global, owner: &[u8], family: Family) -> Result<(), NoMemory>
        ensures { OnOk result (families_of self.new ≡ (λ name. cond (bytes_eq name owner.now) (family_of family) (families_of self.old name))) }
    {
        let copy = Vec::from_slice(alloc, owner)?;
        self.families.insert(copy, family)?;
        Ok(())
    }
}

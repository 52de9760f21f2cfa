// The names of a file.
ghost use Rattle.std.specs.Prelude.{◌≡◌, IfOk, OnOk, map};
ghost use Rattle.hy_tree.specs.Denotes.{callable_of, conform_of, decl_kind_of, decl_of, member_of, product_of, trait_of};
ghost use Rattle.hy_tree.specs.FileNames as file_names;
ghost use Rattle.hy_tree.specs.FileNames.{meaning_of, no_family, with_all_asked, with_decl, with_decls, with_family, with_integers};
ghost use Rattle.hy_tree.specs.Findings.{twice_decl, twice_decls, twice_members, twice_type, twice_callable};
ghost use Rattle.hy_tree.specs.Names.{no_names, with_name};
ghost use Rattle.hy_tree.specs.Tree.{DeclCallable, DeclProduct, DeclTrait, DeclConform};
ghost use Rattle.hy_tree.specs.declared.meant.Meant.TheVariants as meaning;
ghost use Rattle.hy_scope.specs.Noted.{after};
ghost use Rattle.hy_scope.specs.Shown.{file_of, families_of, names_of, noted};

use crate::declared::is_reserved;
use crate::families::{Families, Family, base_of, declare_members};
use crate::full_name::declared_name;
use crate::notes::Notes;
use crate::table::Table;
use hy_base::{NoMemory, Rule};
use hy_tree::predeclared::{
    APPEND, BOOL, COPY, COPYABLE, COUNT, DEINITIALIZABLE, INT, INT8, INT16, INT32, MOVABLE,
    PRECONDITION, PRINT, READ, REMOVE_LAST, SWAP_AT, UINT8, UINT16, UINT32, UINT64,
};
use hy_tree::{
    Callable, CallableKind, Conform, Decl, DeclKind, Meant, Member, Name, Product, TraitDef,
};
use std::alloc::Global;

/// The names of a file, the predeclared ones among them. Functions and subscripts are in `callables` by full name, and in
/// `bases` by base name; `members` has the names of members of all types and traits.
#[derive(Drop)]
pub struct File {
    pub types: Table,
    pub traits: Table,
    pub callables: Table,
    pub bases: Table,
    pub members: Table,
    pub families: Families,
}

/// A predeclared name goes into a table.
fn predeclare(alloc: Global, table: &mut Table, name: &[u8], number: u32) -> Result<(), NoMemory>
    ensures { OnOk result (names_of table.new ≡ with_name name.now (meaning.Built number) (names_of table.old)) }
{
    table.put(alloc, name, Meant::Built(number))?;
    Ok(())
}

fn predeclare_integers(alloc: Global, table: &mut Table) -> Result<(), NoMemory>
    ensures { OnOk result (names_of table.new ≡ with_integers (names_of table.old)) }
{
    predeclare(alloc, table, b"Int8".as_slice(), INT8)?;
    predeclare(alloc, table, b"Int16".as_slice(), INT16)?;
    predeclare(alloc, table, b"Int32".as_slice(), INT32)?;
    predeclare(alloc, table, b"UInt8".as_slice(), UINT8)?;
    predeclare(alloc, table, b"UInt16".as_slice(), UINT16)?;
    predeclare(alloc, table, b"UInt32".as_slice(), UINT32)?;
    predeclare(alloc, table, b"UInt64".as_slice(), UINT64)?;
    predeclare(alloc, table, b"Int".as_slice(), INT)?;
    Ok(())
}

fn predeclared_types(alloc: Global) -> Result<Table, NoMemory>
    ensures { IfOk result (λ table. names_of table ≡ file_names.predeclared.types) }
{
    let mut table = Table::new(alloc);
    predeclare_integers(alloc, &mut table)?;
    predeclare(alloc, &mut table, b"Bool".as_slice(), BOOL)?;
    Ok(table)
}

fn predeclared_traits(alloc: Global) -> Result<Table, NoMemory>
    ensures { IfOk result (λ table. names_of table ≡ file_names.predeclared.traits) }
{
    let mut table = Table::new(alloc);
    predeclare(alloc, &mut table, b"Copyable".as_slice(), COPYABLE)?;
    predeclare(alloc, &mut table, b"Movable".as_slice(), MOVABLE)?;
    predeclare(
        alloc,
        &mut table,
        b"Deinitializable".as_slice(),
        DEINITIALIZABLE,
    )?;
    Ok(table)
}

fn predeclared_callables(alloc: Global) -> Result<Table, NoMemory>
    ensures { IfOk result (λ table. names_of table ≡ file_names.predeclared.callables) }
{
    let mut table = Table::new(alloc);
    predeclare(alloc, &mut table, b"print(_:)".as_slice(), PRINT)?;
    predeclare(alloc, &mut table, b"read()".as_slice(), READ)?;
    predeclare(
        alloc,
        &mut table,
        b"precondition(_:)".as_slice(),
        PRECONDITION,
    )?;
    Ok(table)
}

fn predeclared_bases(alloc: Global) -> Result<Table, NoMemory>
    ensures { IfOk result (λ table. names_of table ≡ file_names.predeclared.bases) }
{
    let mut table = Table::new(alloc);
    predeclare(alloc, &mut table, b"print".as_slice(), PRINT)?;
    predeclare(alloc, &mut table, b"read".as_slice(), READ)?;
    predeclare(alloc, &mut table, b"precondition".as_slice(), PRECONDITION)?;
    Ok(table)
}

fn predeclared_members(alloc: Global) -> Result<Table, NoMemory>
    ensures { IfOk result (λ table. names_of table ≡ file_names.predeclared.members) }
{
    let mut table = Table::new(alloc);
    predeclare(alloc, &mut table, b"count".as_slice(), COUNT)?;
    predeclare(alloc, &mut table, b"append".as_slice(), APPEND)?;
    predeclare(alloc, &mut table, b"remove_last".as_slice(), REMOVE_LAST)?;
    predeclare(alloc, &mut table, b"swap_at".as_slice(), SWAP_AT)?;
    predeclare(alloc, &mut table, b"copy".as_slice(), COPY)?;
    Ok(table)
}

/// What a function or subscript of the file means.
fn meaning(kind: CallableKind, node: u32) -> Meant
    ensures { result ≡ meaning_of kind node }
{
    match kind {
        CallableKind::Subscript => Meant::Sub(node),
        CallableKind::Function => Meant::Fun(node),
        CallableKind::Deinit => Meant::Fun(node),
        CallableKind::Requirement => Meant::Fun(node),
    }
}

impl File {
    /// The predeclared names.
    pub fn new(alloc: Global) -> Result<File, NoMemory>
        ensures { IfOk result (λ file. file_of file ≡ file_names.predeclared) }
    {
        let types = predeclared_types(alloc)?;
        let traits = predeclared_traits(alloc)?;
        let callables = predeclared_callables(alloc)?;
        let bases = predeclared_bases(alloc)?;
        let members = predeclared_members(alloc)?;
        let families = Families::new(alloc);
        Ok(File {
            types,
            traits,
            callables,
            bases,
            members,
            families,
        })
    }

    /// Members come to those of a type.
    fn declare_members(
        &mut self,
        alloc: Global,
        notes: &mut Notes,
        owner: &[u8],
        members: &[Member],
    ) -> Result<(), NoMemory>
        ensures notes { OnOk result (noted notes.new ≡ after (twice_members (families_of self.old.families owner.now) (map member_of members.now))
            (noted notes.old)) }
        ensures file { OnOk result (file_of self.new ≡ record (file_of self.old) {
          members = with_all_asked (names_of self.old.members)
              (map member_of members.now);
          families = with_family owner.now (map member_of members.now) (families_of self.old.families);
        }) }
    {
        let mut family = self.families.take(alloc, owner)?;
        declare_members(alloc, notes, &mut family, &mut self.members, members)?;
        self.families.put(alloc, owner, family)
    }

    fn declare_callable(
        &mut self,
        alloc: Global,
        notes: &mut Notes,
        c: &Callable,
    ) -> Result<(), NoMemory>
        ensures notes { OnOk result (noted notes.new ≡ after (twice_callable (file_of self.old) (callable_of c.now)) (noted notes.old)) }
        ensures file { OnOk result (file_of self.new ≡ with_decl (file_of self.old) (DeclCallable (callable_of c.now))) }
    {
        let base = base_of(&c.name);
        let own = declared_name(alloc, base, c.params.as_slice())?;
        let was = self
            .callables
            .put(alloc, own.as_slice(), meaning(c.kind, c.node))?;
        self.bases.put(alloc, base, Meant::Nothing)?;
        let twice = was || is_reserved(base);
        notes.when(twice, Rule::N2, c.name_span());
        Ok(())
    }

    fn declare_product(
        &mut self,
        alloc: Global,
        notes: &mut Notes,
        p: &Product,
    ) -> Result<(), NoMemory>
        ensures notes { OnOk result (noted notes.new ≡ after (twice_decl (file_of self.old) (DeclProduct (product_of p.now))) (noted notes.old)) }
        ensures file { OnOk result (file_of self.new ≡ with_decl (file_of self.old) (DeclProduct (product_of p.now))) }
    {
        let name = p.name.text.as_slice();
        let shares = self.traits.find(name).is_some();
        let was = self.types.put(alloc, name, Meant::Product(p.node))?;
        let twice = was || (shares || is_reserved(name));
        notes.when(twice, Rule::N2, p.name.span);
        self.declare_members(alloc, notes, name, p.members.as_slice())
    }

    fn declare_trait(
        &mut self,
        alloc: Global,
        notes: &mut Notes,
        t: &TraitDef,
    ) -> Result<(), NoMemory>
        ensures notes { OnOk result (noted notes.new ≡ after (twice_decl (file_of self.old) (DeclTrait (trait_of t.now))) (noted notes.old)) }
        ensures file { OnOk result (file_of self.new ≡ with_decl (file_of self.old) (DeclTrait (trait_of t.now))) }
    {
        let name = t.name.text.as_slice();
        let shares = self.types.find(name).is_some();
        let was = self.traits.put(alloc, name, Meant::Trait(t.node))?;
        let twice = shares || (was || is_reserved(name));
        notes.when(twice, Rule::N2, t.name.span);
        let mut family = Family::new(alloc);
        declare_members(
            alloc,
            notes,
            &mut family,
            &mut self.members,
            t.members.as_slice(),
        )
    }

    fn declare_conform(
        &mut self,
        alloc: Global,
        notes: &mut Notes,
        c: &Conform,
    ) -> Result<(), NoMemory>
        ensures notes { OnOk result (noted notes.new ≡ after (twice_decl (file_of self.old) (DeclConform (conform_of c.now))) (noted notes.old)) }
        ensures file { OnOk result (file_of self.new ≡ with_decl (file_of self.old) (DeclConform (conform_of c.now))) }
    {
        self.declare_members(alloc, notes, c.target.text.as_slice(), c.members.as_slice())
    }

    /// A declaration after those that are there.
    pub fn declare(
        &mut self,
        alloc: Global,
        notes: &mut Notes,
        decl: &DeclKind,
    ) -> Result<(), NoMemory>
        ensures notes { OnOk result (noted notes.new ≡ after (twice_decl (file_of self.old) (decl_kind_of decl.now)) (noted notes.old)) }
        ensures file { OnOk result (file_of self.new ≡ with_decl (file_of self.old) (decl_kind_of decl.now)) }
    {
        match decl {
            DeclKind::Callable(c) => self.declare_callable(alloc, notes, c),
            DeclKind::Product(p) => self.declare_product(alloc, notes, p),
            DeclKind::Trait(t) => self.declare_trait(alloc, notes, t),
            DeclKind::Conformance(c) => self.declare_conform(alloc, notes, c),
        }
    }
}

/// The names of a file with these declarations.
pub fn declare_decls(
    alloc: Global,
    file: &mut File,
    notes: &mut Notes,
    decls: &[Decl],
) -> Result<(), NoMemory>
    ensures notes { OnOk result (noted notes.new ≡ after (twice_decls (file_of file.old) (map decl_of decls.now)) (noted notes.old)) }
    ensures file { OnOk result (file_of file.new ≡ with_decls (file_of file.old) (map decl_of decls.now)) }
{
    for decl in decls {
        file.declare(alloc, notes, &decl.kind)?;
    }
    Ok(())
}

// Names in declarations.
ghost use Rattle.std.specs.Prelude.{◌≡◌, OnOk, map};
ghost use Rattle.hy_tree.specs.Denotes.{callable_of, conform_of, decl_kind_of, decl_of, member_kind_of, member_of, product_of, trait_of};
ghost use Rattle.hy_tree.specs.Findings as findings;
ghost use Rattle.hy_tree.specs.Findings.{find_decl, find_decls, find_member, find_members};
ghost use Rattle.hy_tree.specs.Names.{no_names};
ghost use Rattle.hy_tree.specs.Tree.{DeclCallable, DeclProduct, DeclTrait, DeclConform};
ghost use Rattle.hy_scope.specs.Noted.{after};
ghost use Rattle.hy_scope.specs.Shown.{around_of, file_of, names_of, noted};

use crate::around::Around;
use crate::callable::walk_callable;
use crate::families::base_of;
use crate::file::File;
use crate::notes::Notes;
use crate::table::Table;
use crate::written::{walk_traits, walk_type};
use hy_base::{NoMemory, Rule};
use hy_tree::{
    Callable, CallableKind, Conform, Decl, DeclKind, Meant, Member, MemberKind, Product, TraitDef,
};
use std::alloc::Global;

/// The names of a member.
fn walk_member(
    alloc: Global,
    around: &Around,
    notes: &mut Notes,
    member: &MemberKind,
) -> Result<(), NoMemory>
    ensures { OnOk result (noted notes.new ≡ after (find_member (around_of around.now) (member_kind_of member.now)) (noted notes.old)) }
{
    match member {
        MemberKind::Field(_, written) => {
            walk_type(around, notes, written);
            Ok(())
        }
        MemberKind::MemberwiseInit => Ok(()),
        MemberKind::Callable(c) => walk_callable(alloc, around, notes, c),
    }
}

fn walk_members(
    alloc: Global,
    around: &Around,
    notes: &mut Notes,
    members: &[Member],
) -> Result<(), NoMemory>
    ensures { OnOk result (noted notes.new ≡ after (find_members (around_of around.now) (map member_of members.now)) (noted notes.old)) }
{
    for member in members {
        walk_member(alloc, around, notes, &member.kind)?;
    }
    Ok(())
}

/// The names of a type. `none` has no names.
fn walk_product(
    alloc: Global,
    file: &File,
    none: &Table,
    notes: &mut Notes,
    p: &Product,
) -> Result<(), NoMemory>
    requires { names_of none.now ≡ no_names }
    ensures { OnOk result (noted notes.new ≡ after (find_decl (file_of file.now) (DeclProduct (product_of p.now))) (noted notes.old)) }
{
    walk_traits(file, notes, p.traits.as_slice());
    let around = Around {
        file,
        fields: file.families.fields(p.name.text.as_slice(), none),
        generics: none,
        own: Some(Meant::Product(p.node)),
    };
    walk_members(alloc, &around, notes, p.members.as_slice())
}

/// The names of a trait, in which `Self` is the first type parameter. `none` has no names.
fn walk_trait(
    alloc: Global,
    file: &File,
    none: &Table,
    notes: &mut Notes,
    t: &TraitDef,
) -> Result<(), NoMemory>
    requires { names_of none.now ≡ no_names }
    ensures { OnOk result (noted notes.new ≡ after (find_decl (file_of file.now) (DeclTrait (trait_of t.now))) (noted notes.old)) }
{
    let around = Around {
        file,
        fields: none,
        generics: none,
        own: Some(Meant::Param(0)),
    };
    walk_members(alloc, &around, notes, t.members.as_slice())
}

/// The names of a conformance. `none` has no names.
fn walk_conform(
    alloc: Global,
    file: &File,
    none: &Table,
    notes: &mut Notes,
    c: &Conform,
) -> Result<(), NoMemory>
    requires { names_of none.now ≡ no_names }
    ensures { OnOk result (noted notes.new ≡ after (find_decl (file_of file.now) (DeclConform (conform_of c.now))) (noted notes.old)) }
{
    let target = c.target.text.as_slice();
    let meant = file.types.find(target);
    notes.known(Rule::N3, c.target.span, c.target.node, meant);
    walk_traits(file, notes, c.traits.as_slice());
    let around = Around {
        file,
        fields: file.families.fields(target, none),
        generics: none,
        own: Some(meant.unwrap_or(Meant::Nothing)),
    };
    walk_members(alloc, &around, notes, c.members.as_slice())
}

/// The names of a declaration of the file. `none` has no names.
fn walk_decl(
    alloc: Global,
    file: &File,
    none: &Table,
    notes: &mut Notes,
    decl: &DeclKind,
) -> Result<(), NoMemory>
    requires { names_of none.now ≡ no_names }
    ensures { OnOk result (noted notes.new ≡ after (find_decl (file_of file.now) (decl_kind_of decl.now)) (noted notes.old)) }
{
    match decl {
        DeclKind::Callable(c) => {
            let around = Around {
                file,
                fields: none,
                generics: none,
                own: None,
            };
            walk_callable(alloc, &around, notes, c)
        }
        DeclKind::Product(p) => walk_product(alloc, file, none, notes, p),
        DeclKind::Trait(t) => walk_trait(alloc, file, none, notes, t),
        DeclKind::Conformance(c) => walk_conform(alloc, file, none, notes, c),
    }
}

/// The names of all declarations of the file.
pub fn walk_decls(
    alloc: Global,
    file: &File,
    notes: &mut Notes,
    decls: &[Decl],
) -> Result<(), NoMemory>
    ensures { OnOk result (noted notes.new ≡ after (find_decls (file_of file.now) (map decl_of decls.now)) (noted notes.old)) }
{
    let none = Table::new(alloc);
    for decl in decls {
        walk_decl(alloc, file, &none, notes, &decl.kind)?;
    }
    Ok(())
}

fn is_function(kind: CallableKind) -> bool
    ensures { result ≡ findings.is_function kind }
{
    match kind {
        CallableKind::Function => true,
        CallableKind::Subscript => false,
        CallableKind::Deinit => false,
        CallableKind::Requirement => false,
    }
}

/// Whether this is `fun main()`, without generics and result.
fn is_main(c: &Callable) -> bool
    ensures { result ≡ findings.is_main (DeclCallable (callable_of c.now)) }
{
    let named = base_of(&c.name) == b"main".as_slice();
    let bare = c.generics.as_slice().is_empty() && c.params.as_slice().is_empty();
    is_function(c.kind) && named && bare && c.result.is_none()
}

/// Whether `fun main()` is there, without generics and result.
pub fn has_main(decls: &[Decl]) -> bool
    ensures { result ≡ findings.has_main (map decl_of decls.now) }
{
    for decl in decls {
        if let DeclKind::Callable(c) = &decl.kind {
            if is_main(c) {
                return true;
            }
        }
    }
    false
}

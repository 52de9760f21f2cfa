// Declarations.
ghost use Rattle.std.specs.Prelude.{◌≡◌, map, None};
ghost use Rattle.hy_tree.specs.Denotes.{callable_of, conform_of, decl_kind_of, decl_of, member_kind_of, member_of, param_of, product_of, program_of};
ghost use Rattle.hy_tree.specs.Denotes.{trait_of, variant_of};
ghost use Rattle.hy_tree.specs.Findings as findings;
ghost use Rattle.hy_tree.specs.Tree.{DeclProduct, DeclTrait, DeclConform};
ghost use Rattle.hy_front.specs.Noted.{after};
ghost use Rattle.hy_front.specs.Unbuilt.{in_uses, in_generics, in_params, in_variants, in_callable, in_member_kind, in_members, in_decl_kind, in_decl};
ghost use Rattle.hy_front.specs.Unbuilt.{in_decls, unbuilt};

use crate::forms::{is_main, is_special};
use crate::least::{meet, meet_when};
use crate::statement::look_at_block;
use crate::written::{look_at_type, look_at_written};
use hy_base::BrokenRule;
use hy_tree::{
    Callable, Conform, Decl, DeclKind, Meant, Member, MemberKind, NameUse, Param, Product, Program,
    TraitDef, TypeParam, Variant,
};

/// Looks at names of traits.
fn look_at_uses(first: Option<BrokenRule>, names: &[NameUse]) -> Option<BrokenRule>
    ensures { result ≡ after (in_uses names.now) first }
{
    let mut first = first;
    for name in names {
        first = meet(first, name.span);
    }
    first
}

fn look_at_generics(first: Option<BrokenRule>, generics: &[TypeParam]) -> Option<BrokenRule>
    ensures { result ≡ after (in_generics generics.now) first }
{
    let mut first = first;
    for p in generics {
        first = look_at_uses(first, p.bounds.as_slice());
    }
    first
}

fn look_at_params(first: Option<BrokenRule>, params: &[Param]) -> Option<BrokenRule>
    ensures { result ≡ after (in_params (map param_of params.now)) first }
{
    let mut first = first;
    for p in params {
        first = look_at_type(meet(first, p.span), &p.written);
    }
    first
}

fn look_at_variants(
    first: Option<BrokenRule>,
    meant: &[Meant],
    variants: &[Variant],
) -> Option<BrokenRule>
    ensures { result ≡ after (in_variants meant.now (map variant_of variants.now)) first }
{
    let mut first = first;
    for v in variants {
        first = meet_when(first, is_special(v), v.span);
        first = look_at_block(first, meant, &v.block);
    }
    first
}

/// Looks at what can be called, where `main` says that it is `fun main()`.
fn look_at_callable(
    first: Option<BrokenRule>,
    meant: &[Meant],
    main: bool,
    c: &Callable,
) -> Option<BrokenRule>
    ensures { result ≡ after (in_callable meant.now main (callable_of c.now)) first }
{
    let first = meet_when(first, !main, c.span);
    let first = look_at_generics(first, c.generics.as_slice());
    let first = look_at_params(first, c.params.as_slice());
    let first = look_at_written(first, &c.result);
    look_at_variants(first, meant, c.variants.as_slice())
}

fn look_at_member_kind(
    first: Option<BrokenRule>,
    meant: &[Meant],
    member: &MemberKind,
) -> Option<BrokenRule>
    ensures { result ≡ after (in_member_kind meant.now (member_kind_of member.now)) first }
{
    match member {
        MemberKind::Field(_, written) => look_at_type(first, written),
        MemberKind::MemberwiseInit => first,
        MemberKind::Callable(c) => look_at_callable(first, meant, false, c),
    }
}

fn look_at_members(
    first: Option<BrokenRule>,
    meant: &[Meant],
    members: &[Member],
) -> Option<BrokenRule>
    ensures { result ≡ after (in_members meant.now (map member_of members.now)) first }
{
    let mut first = first;
    for member in members {
        first = look_at_member_kind(meet(first, member.span), meant, &member.kind);
    }
    first
}

fn look_at_product(first: Option<BrokenRule>, meant: &[Meant], p: &Product) -> Option<BrokenRule>
    ensures { result ≡ after (in_decl_kind meant.now (DeclProduct (product_of p.now))) first }
{
    let first = look_at_uses(meet(first, p.span), p.traits.as_slice());
    look_at_members(first, meant, p.members.as_slice())
}

fn look_at_trait(first: Option<BrokenRule>, meant: &[Meant], t: &TraitDef) -> Option<BrokenRule>
    ensures { result ≡ after (in_decl_kind meant.now (DeclTrait (trait_of t.now))) first }
{
    look_at_members(meet(first, t.span), meant, t.members.as_slice())
}

fn look_at_conform(first: Option<BrokenRule>, meant: &[Meant], c: &Conform) -> Option<BrokenRule>
    ensures { result ≡ after (in_decl_kind meant.now (DeclConform (conform_of c.now))) first }
{
    let first = meet(meet(first, c.span), c.target.span);
    let first = look_at_uses(first, c.traits.as_slice());
    look_at_members(first, meant, c.members.as_slice())
}

/// Looks at what is declared.
fn look_at_decl_kind(
    first: Option<BrokenRule>,
    meant: &[Meant],
    decl: &DeclKind,
) -> Option<BrokenRule>
    ensures { result ≡ after (in_decl_kind meant.now (decl_kind_of decl.now)) first }
{
    match decl {
        DeclKind::Callable(c) => look_at_callable(first, meant, is_main(c), c),
        DeclKind::Product(p) => look_at_product(first, meant, p),
        DeclKind::Trait(t) => look_at_trait(first, meant, t),
        DeclKind::Conformance(c) => look_at_conform(first, meant, c),
    }
}

/// Whether `fun main()` is declared.
fn declares_main(decl: &DeclKind) -> bool
    ensures { result ≡ findings.is_main (decl_kind_of decl.now) }
{
    match decl {
        DeclKind::Callable(c) => is_main(c),
        DeclKind::Product(_) => false,
        DeclKind::Trait(_) => false,
        DeclKind::Conformance(_) => false,
    }
}

/// Looks at a declaration.
fn look_at_decl(first: Option<BrokenRule>, meant: &[Meant], decl: &Decl) -> Option<BrokenRule>
    ensures { result ≡ after (in_decl meant.now (decl_of decl.now)) first }
{
    let first = meet_when(first, decl.public || !declares_main(&decl.kind), decl.span);
    look_at_decl_kind(first, meant, &decl.kind)
}

/// Looks at the declarations of a file.
fn look_at_decls(first: Option<BrokenRule>, meant: &[Meant], decls: &[Decl]) -> Option<BrokenRule>
    ensures { result ≡ after (in_decls meant.now (map decl_of decls.now)) first }
{
    let mut first = first;
    for decl in decls {
        first = look_at_decl(first, meant, decl);
    }
    first
}

/// The first place of a tree where a form is not built, or none where all are built. `meant` has what names stand for, by the
/// number of the node that uses the name.
pub fn first_unbuilt(tree: &Program, meant: &[Meant]) -> Option<BrokenRule>
    ensures { result ≡ after (unbuilt meant.now (program_of tree.now)) None }
{
    look_at_decls(None, meant, tree.decls.as_slice())
}

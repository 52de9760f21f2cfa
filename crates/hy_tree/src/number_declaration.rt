// Numbers for the nodes of declarations.
ghost use Rattle.std.specs.Prelude.{◌≡◌, ◌<◌, ◌^◌, IfOk, OnOk};
ghost use Rattle.hy_tree.specs.Denotes.{param_of, variant_of, callable_of, member_kind_of, member_of, product_of, trait_of, conform_of, decl_kind_of};
ghost use Rattle.hy_tree.specs.Denotes.{decl_of, program_of};
ghost use Rattle.hy_tree.specs.Preorder.{IsNumbered};
ghost use Rattle.hy_tree.specs.Numbering.{IsNumberedFrom, AreNumberedFrom};
ghost use Rattle.hy_tree.specs.Numbers.{count_use, number_use as use_numbered, count_generic, number_generic as generic_numbered, count_param};
ghost use Rattle.hy_tree.specs.Numbers.{number_param as param_numbered, count_variant, number_variant as variant_numbered, count_callable};
ghost use Rattle.hy_tree.specs.Numbers.{number_callable as callable_numbered, count_member_kind, number_member_kind as member_kind_numbered, count_member};
ghost use Rattle.hy_tree.specs.Numbers.{number_member as member_numbered, count_product, number_product as product_numbered, count_trait};
ghost use Rattle.hy_tree.specs.Numbers.{number_trait as trait_numbered, count_conform, number_conform as conform_numbered, count_decl_kind};
ghost use Rattle.hy_tree.specs.Numbers.{number_decl_kind as decl_kind_numbered, count_decl, number_decl as decl_numbered, count_program, number_program};

use crate::declaration::{
    Callable, Conform, Decl, DeclKind, Label, Member, MemberKind, Param, Product, Program,
    TraitDef, TypeParam, Variant,
};
use crate::name::{Name, NameUse};
use crate::number_statement::{number_block, number_optional_type};
use crate::number_written::number_type;
use crate::numbering::{copy_name, copy_text, take};
use hy_base::NoMemory;
use sqlite_items::Items;
use std::alloc::Global;

/// The same program, with its nodes numbered in preorder from 0, whatever their numbers were.
///
/// A program of more than 2^32 - 1 nodes would take some hundred GiB: it is answered as want of memory.
pub fn number(alloc: Global, program: &Program) -> Result<Program, NoMemory>
    ensures same { IfOk result (λ made. program_of made ≡ number_program (program_of program.now)) }
    ensures numbered { IfOk result (λ made. IsNumbered (program_of made)) }
{
    let made = number_all(alloc, program)?;
    Ok(made)
}

fn number_all(alloc: Global, program: &Program) -> Result<Program, NoMemory>
    ensures same { IfOk result (λ made. program_of made ≡ number_program (program_of program.now)) }
    ensures small { OnOk result (count_program (program_of program.now) < 2 ^ 32) }
{
    let mut next = 0;
    let node = take(&mut next)?;
    let decls = number_decls(alloc, &mut next, program.decls.as_slice())?;
    is_small(next);
    Ok(Program {
        decls,
        span: program.span,
        node,
    })
}

/// What the type of a count says of it.
fn is_small(count: u32)
    ensures { count < 2 ^ 32 }
{
    let _same = count;
}

fn number_decls(alloc: Global, next: &mut u32, decls: &[Decl]) -> Result<Items<Decl>, NoMemory>
    ensures { AreNumberedFrom decl_of count_decl decl_numbered next.old decls.now result next.new }
{
    let mut made = Items::new(alloc);
    for decl in decls {
        made.push(number_decl(alloc, next, decl)?)?;
    }
    Ok(made)
}

fn number_decl(alloc: Global, next: &mut u32, decl: &Decl) -> Result<Decl, NoMemory>
    ensures { IsNumberedFrom decl_of count_decl decl_numbered next.old decl.now result next.new }
{
    let node = take(next)?;
    let kind = number_decl_kind(alloc, next, &decl.kind)?;
    Ok(Decl {
        public: decl.public,
        kind,
        tokens: decl.tokens,
        span: decl.span,
        node,
    })
}

fn number_decl_kind(alloc: Global, next: &mut u32, kind: &DeclKind) -> Result<DeclKind, NoMemory>
    ensures { IsNumberedFrom decl_kind_of count_decl_kind decl_kind_numbered next.old kind.now result next.new }
{
    match kind {
        DeclKind::Callable(callable) => Ok(DeclKind::Callable(number_callable(
            alloc, next, callable,
        )?)),
        DeclKind::Product(product) => Ok(DeclKind::Product(number_product(alloc, next, product)?)),
        DeclKind::Trait(definition) => Ok(DeclKind::Trait(number_trait(alloc, next, definition)?)),
        DeclKind::Conformance(conform) => Ok(DeclKind::Conformance(number_conform(
            alloc, next, conform,
        )?)),
    }
}

fn number_product(alloc: Global, next: &mut u32, product: &Product) -> Result<Product, NoMemory>
    ensures { IsNumberedFrom product_of count_product product_numbered next.old product.now result next.new }
{
    let node = take(next)?;
    let name = copy_name(alloc, &product.name)?;
    let traits = number_uses(alloc, next, product.traits.as_slice())?;
    let members = number_members(alloc, next, product.members.as_slice())?;
    Ok(Product {
        name,
        traits,
        members,
        span: product.span,
        node,
    })
}

fn number_trait(alloc: Global, next: &mut u32, definition: &TraitDef) -> Result<TraitDef, NoMemory>
    ensures { IsNumberedFrom trait_of count_trait trait_numbered next.old definition.now result next.new }
{
    let node = take(next)?;
    let name = copy_name(alloc, &definition.name)?;
    let members = number_members(alloc, next, definition.members.as_slice())?;
    Ok(TraitDef {
        name,
        members,
        span: definition.span,
        node,
    })
}

fn number_conform(alloc: Global, next: &mut u32, conform: &Conform) -> Result<Conform, NoMemory>
    ensures { IsNumberedFrom conform_of count_conform conform_numbered next.old conform.now result next.new }
{
    let node = take(next)?;
    let target = number_use(alloc, next, &conform.target)?;
    let traits = number_uses(alloc, next, conform.traits.as_slice())?;
    let members = number_members(alloc, next, conform.members.as_slice())?;
    Ok(Conform {
        target,
        traits,
        members,
        span: conform.span,
        node,
    })
}

fn number_members(
    alloc: Global,
    next: &mut u32,
    members: &[Member],
) -> Result<Items<Member>, NoMemory>
    ensures { AreNumberedFrom member_of count_member member_numbered next.old members.now result next.new }
{
    let mut made = Items::new(alloc);
    for member in members {
        made.push(number_member(alloc, next, member)?)?;
    }
    Ok(made)
}

fn number_member(alloc: Global, next: &mut u32, member: &Member) -> Result<Member, NoMemory>
    ensures { IsNumberedFrom member_of count_member member_numbered next.old member.now result next.new }
{
    let node = take(next)?;
    let kind = number_member_kind(alloc, next, &member.kind)?;
    Ok(Member {
        public: member.public,
        kind,
        tokens: member.tokens,
        span: member.span,
        node,
    })
}

fn number_member_kind(
    alloc: Global,
    next: &mut u32,
    kind: &MemberKind,
) -> Result<MemberKind, NoMemory>
    ensures { IsNumberedFrom member_kind_of count_member_kind member_kind_numbered next.old kind.now result next.new }
{
    match kind {
        MemberKind::Field(name, written) => {
            let name = copy_name(alloc, name)?;
            Ok(MemberKind::Field(name, number_type(alloc, next, written)?))
        }
        MemberKind::MemberwiseInit => Ok(MemberKind::MemberwiseInit),
        MemberKind::Callable(callable) => Ok(MemberKind::Callable(number_callable(
            alloc, next, callable,
        )?)),
    }
}

fn number_callable(alloc: Global, next: &mut u32, callable: &Callable) -> Result<Callable, NoMemory>
    ensures { IsNumberedFrom callable_of count_callable callable_numbered next.old callable.now result next.new }
{
    let node = take(next)?;
    let name = copy_optional_name(alloc, &callable.name)?;
    let generics = number_generics(alloc, next, callable.generics.as_slice())?;
    let params = number_params(alloc, next, callable.params.as_slice())?;
    let result = number_optional_type(alloc, next, &callable.result)?;
    let variants = number_variants(alloc, next, callable.variants.as_slice())?;
    Ok(Callable {
        kind: callable.kind,
        keyword: callable.keyword,
        name,
        generics,
        params,
        effect: callable.effect,
        result,
        variants,
        span: callable.span,
        node,
    })
}

fn number_generics(
    alloc: Global,
    next: &mut u32,
    generics: &[TypeParam],
) -> Result<Items<TypeParam>, NoMemory>
    ensures { AreNumberedFrom (λ p. p) count_generic generic_numbered next.old generics.now result next.new }
{
    let mut made = Items::new(alloc);
    for generic in generics {
        let name = copy_name(alloc, &generic.name)?;
        let bounds = number_uses(alloc, next, generic.bounds.as_slice())?;
        made.push(TypeParam { name, bounds })?;
    }
    Ok(made)
}

fn number_params(alloc: Global, next: &mut u32, params: &[Param]) -> Result<Items<Param>, NoMemory>
    ensures { AreNumberedFrom param_of count_param param_numbered next.old params.now result next.new }
{
    let mut made = Items::new(alloc);
    for param in params {
        made.push(number_param(alloc, next, param)?)?;
    }
    Ok(made)
}

fn number_param(alloc: Global, next: &mut u32, param: &Param) -> Result<Param, NoMemory>
    ensures { IsNumberedFrom param_of count_param param_numbered next.old param.now result next.new }
{
    let node = take(next)?;
    let label = copy_param_label(alloc, &param.label)?;
    let name = copy_name(alloc, &param.name)?;
    let written = number_type(alloc, next, &param.written)?;
    Ok(Param {
        label,
        name,
        mode: param.mode,
        written,
        span: param.span,
        node,
    })
}

fn number_variants(
    alloc: Global,
    next: &mut u32,
    variants: &[Variant],
) -> Result<Items<Variant>, NoMemory>
    ensures { AreNumberedFrom variant_of count_variant variant_numbered next.old variants.now result next.new }
{
    let mut made = Items::new(alloc);
    for variant in variants {
        made.push(number_variant(alloc, next, variant)?)?;
    }
    Ok(made)
}

fn number_variant(alloc: Global, next: &mut u32, variant: &Variant) -> Result<Variant, NoMemory>
    ensures { IsNumberedFrom variant_of count_variant variant_numbered next.old variant.now result next.new }
{
    let node = take(next)?;
    let value = copy_optional_name(alloc, &variant.value)?;
    let block = number_block(alloc, next, &variant.block)?;
    Ok(Variant {
        mode: variant.mode,
        keyword: variant.keyword,
        value,
        block,
        span: variant.span,
        node,
    })
}

fn number_uses(alloc: Global, next: &mut u32, uses: &[NameUse]) -> Result<Items<NameUse>, NoMemory>
    ensures { AreNumberedFrom (λ u. u) count_use use_numbered next.old uses.now result next.new }
{
    let mut made = Items::new(alloc);
    for name in uses {
        made.push(number_use(alloc, next, name)?)?;
    }
    Ok(made)
}

fn number_use(alloc: Global, next: &mut u32, name: &NameUse) -> Result<NameUse, NoMemory>
    ensures { IsNumberedFrom (λ u. u) count_use use_numbered next.old name.now result next.new }
{
    let node = take(next)?;
    let text = copy_text(alloc, &name.text)?;
    Ok(NameUse {
        text,
        span: name.span,
        node,
    })
}

fn copy_optional_name(alloc: Global, name: &Option<Name>) -> Result<Option<Name>, NoMemory>
    ensures { IfOk result (λ copy. copy ≡ name.now) }
{
    match name {
        Some(name) => Ok(Some(copy_name(alloc, name)?)),
        None => Ok(None),
    }
}

fn copy_param_label(alloc: Global, label: &Label) -> Result<Label, NoMemory>
    ensures { IfOk result (λ copy. copy ≡ label.now) }
{
    match label {
        Label::Text(text) => Ok(Label::Text(copy_text(alloc, text)?)),
        Label::Nothing => Ok(Label::Nothing),
        Label::Same => Ok(Label::Same),
    }
}

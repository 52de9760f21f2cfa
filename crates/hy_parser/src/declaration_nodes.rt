// Nodes of declarations, made of their parts.
ghost use Rattle.std.specs.Prelude.{◌≡◌, map};
ghost use Rattle.hy_tree.specs.Denotes.{param_of, type_of, block_of, variant_of, callable_of, member_kind_of, member_of, product_of, trait_of, conform_of};
ghost use Rattle.hy_tree.specs.Denotes.{decl_kind_of, decl_of, program_of};
ghost use Rattle.hy_parser.specs.Headings.{sort_of, headed, Below};
ghost use Rattle.hy_grammar.specs.Nodes as node;
ghost use Rattle.hy_grammar.specs.StmtSteps as step;

use crate::heading::{Heading, Sort};
use hy_base::Span;
use hy_tree::{
    Block, Callable, CallableKind, Conform, Decl, DeclKind, Label, Member, MemberKind, Mode, Name,
    NameUse, Param, Product, Program, TraitDef, TypeExp, Variant,
};
use sqlite_items::Items;

/// A parameter that begins there.
#[tactic(auto, unfolding(hy_grammar::specs::Nodes::param))]
pub fn param(from: u32, label: Label, name: Name, mode: Mode, written: TypeExp) -> Param
    ensures { param_of result ≡ node.param from label name mode (type_of written) }
{
    let to = written.span.to;
    Param {
        label,
        name,
        mode,
        written,
        span: Span { from, to },
        node: 0,
    }
}

/// The one body without a keyword.
pub fn plain_variant(sort: Sort, effect: Option<Mode>, block: Block) -> Variant
    ensures { variant_of result ≡ node.plain_variant (step.plain_mode (sort_of sort) effect) (block_of block) }
{
    let span = block.span;
    let node = block.node;
    Variant {
        mode: plain_mode(sort, effect),
        keyword: None,
        value: None,
        block,
        span,
        node,
    }
}

// The convention of the one body without a keyword.
fn plain_mode(sort: Sort, effect: Option<Mode>) -> Mode
    ensures { result ≡ step.plain_mode (sort_of sort) effect }
{
    match sort {
        Sort::Deinit => Mode::Inout,
        _ => effect.unwrap_or(Mode::Let),
    }
}

/// A body after its keyword.
pub fn variant(mode: Mode, keyword: Span, value: Option<Name>, block: Block) -> Variant
    ensures { variant_of result ≡ node.variant mode keyword value (block_of block) }
{
    let to = block.span.to;
    Variant {
        mode,
        keyword: Some(keyword),
        value,
        block,
        span: Span {
            from: keyword.from,
            to,
        },
        node: 0,
    }
}

// What something callable of a sort is.
fn kind_of(sort: Sort) -> CallableKind
    ensures { result ≡ step.kind_of (sort_of sort) }
{
    match sort {
        Sort::Function => CallableKind::Function,
        Sort::Method => CallableKind::Function,
        Sort::Requirement => CallableKind::Requirement,
        Sort::Subscript => CallableKind::Subscript,
        Sort::Deinit => CallableKind::Deinit,
    }
}

/// Something callable with its bodies, which ends there.
#[tactic(auto, unfolding(hy_grammar::specs::Nodes::callable))]
pub fn callable(sort: Sort, heading: Heading, variants: Items<Variant>, to: u32) -> Callable
    ensures { (x : Below (sort_of sort)) → callable_of result ≡ step.callable_of (headed (sort_of sort) heading x) (map variant_of variants) to }
{
    Callable {
        kind: kind_of(sort),
        keyword: heading.keyword,
        name: heading.name,
        generics: heading.generics,
        params: heading.params,
        effect: heading.effect,
        result: heading.result,
        variants,
        span: Span {
            from: heading.keyword.from,
            to,
        },
        node: 0,
    }
}

/// A member of so many tokens.
#[tactic(auto, unfolding(hy_grammar::specs::Nodes::member))]
pub fn member(public: bool, kind: MemberKind, tokens: u32, from: u32, to: u32) -> Member
    ensures { member_of result ≡ node.member public (member_kind_of kind) tokens from to }
{
    Member {
        public,
        kind,
        tokens,
        span: Span { from, to },
        node: 0,
    }
}

/// A type after its keyword, up to the `}` of its members.
#[tactic(auto, unfolding(hy_grammar::specs::Nodes::product))]
pub fn product(
    keyword: Span,
    name: Name,
    traits: Items<NameUse>,
    members: Items<Member>,
    close: Span,
) -> Product
    ensures { product_of result ≡ node.product keyword name traits (map member_of members) close }
{
    Product {
        name,
        traits,
        members,
        span: Span {
            from: keyword.from,
            to: close.to,
        },
        node: 0,
    }
}

/// A trait after its keyword, up to the `}` of its members.
pub fn trait_def(keyword: Span, name: Name, members: Items<Member>, close: Span) -> TraitDef
    ensures { trait_of result ≡ node.trait keyword name (map member_of members) close }
{
    TraitDef {
        name,
        members,
        span: Span {
            from: keyword.from,
            to: close.to,
        },
        node: 0,
    }
}

/// A conformance after its keyword, up to the `}` of its members.
#[tactic(auto, unfolding(hy_grammar::specs::Nodes::conformance))]
pub fn conformance(
    keyword: Span,
    target: NameUse,
    traits: Items<NameUse>,
    members: Items<Member>,
    close: Span,
) -> Conform
    ensures { conform_of result ≡ node.conformance keyword target traits (map member_of members) close }
{
    Conform {
        target,
        traits,
        members,
        span: Span {
            from: keyword.from,
            to: close.to,
        },
        node: 0,
    }
}

/// A declaration of so many tokens.
#[tactic(auto, unfolding(hy_grammar::specs::Nodes::decl))]
pub fn decl(public: bool, kind: DeclKind, tokens: u32, from: u32, to: u32) -> Decl
    ensures made { decl_of result ≡ node.decl public (decl_kind_of kind) tokens from to }
    ensures ends { result.span.to ≡ to }
{
    Decl {
        public,
        kind,
        tokens,
        span: Span { from, to },
        node: 0,
    }
}

/// The declarations of a file, whose last token ends there.
#[tactic(auto, unfolding(hy_grammar::specs::Nodes::program))]
pub fn program(decls: Items<Decl>, to: u32) -> Program
    ensures { program_of result ≡ node.program (map decl_of decls) to }
{
    let from = match decls.as_slice().first() {
        Some(first) => first.span.from,
        None => 0,
    };
    Program {
        decls,
        span: Span { from, to },
        node: 0,
    }
}

// What is read of something callable before its body, and which words stand where.
ghost use Rattle.std.specs.Prelude.{◌≡◌, ◌≤◌, ◌<◌, [], length, None, OnSome};
ghost use Rattle.hy_parser.specs.Headings as spec;
ghost use Rattle.hy_grammar.specs.DeclSteps as step;
ghost use Rattle.hy_grammar.specs.Kinds as kinds;
ghost use Rattle.hy_parser.specs.Separated.{TakesOf};

use hy_base::Span;
use hy_lexer::TokenKind;
use hy_phrases::Tokens;
use hy_tree::{Mode, Name, Param, TypeExp, TypeParam};
use sqlite_items::Items;
use std::alloc::Global;

/// The rules by which something callable is read.
#[derive(Clone, Copy, Debug, PartialEq, Eq)]
pub enum Sort {
    /// `fun` in the file
    Function,
    Method,
    Requirement,
    Subscript,
    Deinit,
}

/// The rules by which members are read.
#[derive(Clone, Copy, Debug, PartialEq, Eq)]
pub enum OwnerSort {
    Product,
    Trait,
    Conformance,
}

/// The word that begins a member.
#[derive(Clone, Copy, Debug, PartialEq, Eq)]
pub enum MemberWord {
    Field,
    Memberwise,
    Deinit,
    Subscript,
    Function(Sort),
}

/// The word that begins a declaration.
#[derive(Clone, Copy, Debug, PartialEq, Eq)]
pub enum DeclWord {
    Function,
    Subscript,
    Type,
    Trait,
    Conformance,
}

/// What is read of something callable before its body.
#[derive(Drop)]
pub struct Heading {
    pub keyword: Span,
    pub name: Option<Name>,
    pub generics: Items<TypeParam>,
    pub params: Items<Param>,
    pub effect: Option<Mode>,
    pub result: Option<TypeExp>,
    /// Where the last token of it ends that is read.
    pub end: u32,
}

impl Heading {
    /// One of which the name is read, or which has none.
    pub fn new(alloc: Global, keyword: Span, name: Option<Name>) -> Heading
        ensures { result ≡ record { keyword = keyword; name = name; generics = []; params = []; effect = None; result = None; end = keyword.to } }
    {
        Heading {
            keyword,
            name,
            generics: Items::new(alloc),
            params: Items::new(alloc),
            effect: None,
            result: None,
            end: keyword.to,
        }
    }
}

/// What a convention is written for.
#[derive(Clone, Copy, Debug, PartialEq, Eq)]
pub enum Role {
    Param,
    /// `self`, after the parameters
    Effect,
    /// a variant
    Body,
}

// The convention that a token of this kind is for `self`.
fn effect_of(kind: &TokenKind) -> Option<Mode>
    ensures { result ≡ kinds.effect_of kind.now }
{
    match kind {
        TokenKind::Let => Some(Mode::Let),
        TokenKind::Inout => Some(Mode::Inout),
        TokenKind::Sink => Some(Mode::Sink),
        _ => None,
    }
}

// The convention that a token of this kind is for a parameter.
fn mode_in(sort: Sort, kind: &TokenKind) -> Option<Mode>
    ensures { result ≡ step.mode_in (spec.sort_of sort) kind.now }
{
    match kind {
        TokenKind::Let => Some(Mode::Let),
        TokenKind::Inout => Some(Mode::Inout),
        TokenKind::Sink => Some(Mode::Sink),
        TokenKind::Set => match sort {
            Sort::Subscript => None,
            _ => Some(Mode::Set),
        },
        TokenKind::Yielded => match sort {
            Sort::Subscript => Some(Mode::Yielded),
            _ => None,
        },
        _ => None,
    }
}

// The convention that a token of this kind is after parameters.
fn effect_in(sort: Sort, kind: &TokenKind) -> Option<Mode>
    ensures { result ≡ spec.effect_in (spec.sort_of sort) kind.now }
{
    match sort {
        Sort::Method => effect_of(kind),
        Sort::Requirement => effect_of(kind),
        _ => None,
    }
}

/// Whether there is a body: a requirement has none.
pub fn has_body(sort: Sort) -> bool
    ensures { result ≡ spec.has_body (spec.sort_of sort) }
{
    match sort {
        Sort::Requirement => false,
        _ => true,
    }
}

/// Whether a body may be variants: a method with its effect after the parameters has one plain body.
pub fn may_vary(sort: Sort, effect: Option<Mode>) -> bool
    ensures { result ≡ spec.may_vary (spec.sort_of sort) effect }
{
    match sort {
        Sort::Subscript => true,
        Sort::Method => effect.is_none(),
        _ => false,
    }
}

// The convention that a token of this kind is for a variant. `set` is one of subscripts alone.
fn variant_mode(sort: Sort, kind: &TokenKind) -> Option<Mode>
    ensures { result ≡ spec.variant_mode (spec.sort_of sort) kind.now }
{
    match kind {
        TokenKind::Set => match sort {
            Sort::Subscript => Some(Mode::Set),
            _ => None,
        },
        TokenKind::Let => Some(Mode::Let),
        TokenKind::Inout => Some(Mode::Inout),
        TokenKind::Sink => Some(Mode::Sink),
        _ => None,
    }
}

// The convention that a token of this kind is.
fn mode_as(role: Role, sort: Sort, kind: &TokenKind) -> Option<Mode>
    ensures { result ≡ spec.mode_as role (spec.sort_of sort) kind.now }
{
    match role {
        Role::Param => mode_in(sort, kind),
        Role::Effect => effect_in(sort, kind),
        Role::Body => variant_mode(sort, kind),
    }
}

/// Takes a convention, if one comes.
pub fn take_mode(tokens: &mut Tokens<'_>, role: Role, sort: Sort) -> Option<(Mode, Span)>
    ensures token { TakesOf (spec.mode_as role (spec.sort_of sort)) tokens.old.rest.now result tokens.new.rest.now }
    ensures within { length tokens.new.rest.now ≤ length tokens.old.rest.now }
    ensures progress { OnSome result (length tokens.new.rest.now < length tokens.old.rest.now) }
{
    let (token, behind) = tokens.rest.split_first()?;
    let mode = mode_as(role, sort, &token.kind)?;
    tokens.rest = behind;
    Some((mode, token.span))
}

// The word that a token of this kind is at the beginning of a member.
fn member_word(sort: OwnerSort, kind: &TokenKind) -> Option<MemberWord>
    ensures { result ≡ spec.member_word sort kind.now }
{
    match sort {
        OwnerSort::Trait => match kind {
            TokenKind::Fun => Some(MemberWord::Function(Sort::Requirement)),
            _ => None,
        },
        OwnerSort::Product => product_word(kind),
        OwnerSort::Conformance => conformance_word(kind),
    }
}

/// Takes the word that begins a member, if one comes.
pub fn take_member_word(tokens: &mut Tokens<'_>, sort: OwnerSort) -> Option<(MemberWord, Span)>
    ensures token { TakesOf (spec.member_word sort) tokens.old.rest.now result tokens.new.rest.now }
    ensures within { length tokens.new.rest.now ≤ length tokens.old.rest.now }
    ensures progress { OnSome result (length tokens.new.rest.now < length tokens.old.rest.now) }
{
    let (token, behind) = tokens.rest.split_first()?;
    let word = member_word(sort, &token.kind)?;
    tokens.rest = behind;
    Some((word, token.span))
}

// The word that a token of this kind is at the beginning of a declaration.
fn decl_word(kind: &TokenKind) -> Option<DeclWord>
    ensures { result ≡ spec.decl_word kind.now }
{
    match kind {
        TokenKind::Fun => Some(DeclWord::Function),
        TokenKind::Subscript => Some(DeclWord::Subscript),
        TokenKind::Type => Some(DeclWord::Type),
        TokenKind::Trait => Some(DeclWord::Trait),
        TokenKind::Conformance => Some(DeclWord::Conformance),
        _ => None,
    }
}

/// Takes the word that begins a declaration, if one comes.
pub fn take_decl_word(tokens: &mut Tokens<'_>) -> Option<(DeclWord, Span)>
    ensures token { TakesOf spec.decl_word tokens.old.rest.now result tokens.new.rest.now }
    ensures within { length tokens.new.rest.now ≤ length tokens.old.rest.now }
    ensures progress { OnSome result (length tokens.new.rest.now < length tokens.old.rest.now) }
{
    let (token, behind) = tokens.rest.split_first()?;
    let word = decl_word(&token.kind)?;
    tokens.rest = behind;
    Some((word, token.span))
}

fn product_word(kind: &TokenKind) -> Option<MemberWord>
    ensures { result ≡ spec.product_word kind.now }
{
    match kind {
        TokenKind::Var => Some(MemberWord::Field),
        TokenKind::Memberwise => Some(MemberWord::Memberwise),
        TokenKind::Deinit => Some(MemberWord::Deinit),
        _ => conformance_word(kind),
    }
}

fn conformance_word(kind: &TokenKind) -> Option<MemberWord>
    ensures { result ≡ spec.conformance_word kind.now }
{
    match kind {
        TokenKind::Fun => Some(MemberWord::Function(Sort::Method)),
        TokenKind::Subscript => Some(MemberWord::Subscript),
        _ => None,
    }
}

// Declarations.
use crate::name::{Name, NameUse};
use crate::operator::Mode;
use crate::statement::Block;
use crate::written::TypeExp;
use hy_base::{Span, Text};
use sqlite_items::Items;

/// A whole source.
#[derive(Drop)]
pub struct Program {
    pub decls: Items<Decl>,
    /// From the first token to the last; 0 to 0 where there is none.
    pub span: Span,
    pub node: u32,
}

/// A declaration of the file.
#[derive(Drop)]
pub struct Decl {
    pub public: bool,
    pub kind: DeclKind,
    /// The number of its tokens.
    pub tokens: u32,
    pub span: Span,
    pub node: u32,
}

/// What a declaration is.
#[derive(Drop)]
pub enum DeclKind {
    /// A function or a subscript.
    Callable(Callable),
    Product(Product),
    Trait(TraitDef),
    Conformance(Conform),
}

/// What can be called: a function, a method, a subscript, a body of `deinit`, or what a trait requires.
#[derive(Drop)]
pub struct Callable {
    pub kind: CallableKind,
    /// The span of the token `fun`, `subscript` or `deinit`.
    pub keyword: Span,
    /// A `deinit` has none, and a subscript of a type may have none.
    pub name: Option<Name>,
    pub generics: Items<TypeParam>,
    pub params: Items<Param>,
    /// The convention of `self` where it is written after the parameters.
    pub effect: Option<Mode>,
    pub result: Option<TypeExp>,
    /// One without a keyword where one plain body stands, and none where a trait requires it.
    pub variants: Items<Variant>,
    pub span: Span,
    pub node: u32,
}

/// What kind of declaration can be called.
#[derive(Clone, Copy, Debug, PartialEq, Eq)]
pub enum CallableKind {
    /// `fun` in a file, a type or a conformance
    Function,
    Subscript,
    Deinit,
    /// `fun` in a trait
    Requirement,
}

/// A type parameter, with the traits that bound it.
#[derive(Drop)]
pub struct TypeParam {
    pub name: Name,
    pub bounds: Items<NameUse>,
}

/// A parameter.
#[derive(Drop)]
pub struct Param {
    pub label: Label,
    pub name: Name,
    pub mode: Mode,
    pub written: TypeExp,
    pub span: Span,
    pub node: u32,
}

/// How a parameter says its label.
#[derive(Drop)]
pub enum Label {
    /// `NAME` before the parameter's name
    Text(Text),
    /// `_` before the parameter's name: there is no label
    Nothing,
    /// The parameter's name alone: it is the label.
    Same,
}

/// A body.
#[derive(Drop)]
pub struct Variant {
    /// That of its keyword. Without one, the effect of a plain body of a function; `Let` for a plain body of a subscript; `Inout` for `deinit`.
    pub mode: Mode,
    /// The span of the token `let`, `inout`, `sink` or `set`, where it stands.
    pub keyword: Option<Span>,
    /// The name of the new value, for `set`.
    pub value: Option<Name>,
    pub block: Block,
    pub span: Span,
    pub node: u32,
}

/// `type NAME: traits { members }`
#[derive(Drop)]
pub struct Product {
    pub name: Name,
    pub traits: Items<NameUse>,
    pub members: Items<Member>,
    pub span: Span,
    pub node: u32,
}

/// `trait NAME { members }`
#[derive(Drop)]
pub struct TraitDef {
    pub name: Name,
    pub members: Items<Member>,
    pub span: Span,
    pub node: u32,
}

/// `conformance NAME: traits { members }`
#[derive(Drop)]
pub struct Conform {
    /// The type that conforms.
    pub target: NameUse,
    pub traits: Items<NameUse>,
    pub members: Items<Member>,
    pub span: Span,
    pub node: u32,
}

/// A member of a type, a trait or a conformance.
#[derive(Drop)]
pub struct Member {
    pub public: bool,
    pub kind: MemberKind,
    /// The number of its tokens.
    pub tokens: u32,
    pub span: Span,
    pub node: u32,
}

/// What a member is.
#[derive(Drop)]
pub enum MemberKind {
    /// `var NAME: type`
    Field(Name, TypeExp),
    /// `memberwise init`
    MemberwiseInit,
    /// A `deinit`, a method, a subscript or a requirement.
    Callable(Callable),
}

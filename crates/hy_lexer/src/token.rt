// The tokens of the language.
use hy_base::{Span, Text};

/// A token of a source, with where it stands.
#[derive(Debug, Drop)]
pub struct Token {
    pub kind: TokenKind,
    pub span: Span,
    /// Whether it begins a line: no token stands before it, or a line feed stands between that and this one.
    pub first: bool,
}

/// What a token is. `docs/LANGUAGE.md` has the words and marks.
#[derive(Debug, Drop)]
pub enum TokenKind {
    /// A word that is not reserved.
    Name(Text),
    /// The number that digits spell.
    Number(i64),
    /// `_` alone
    Underscore,
    Let,
    Var,
    Inout,
    Sink,
    Set,
    Yielded,
    Fun,
    Subscript,
    Type,
    Trait,
    Conformance,
    Public,
    Memberwise,
    Init,
    Deinit,
    If,
    Else,
    While,
    For,
    In,
    Return,
    Break,
    Continue,
    Yield,
    True,
    False,
    /// `self`
    SelfValue,
    /// `Self`
    SelfType,
    /// `Array`
    Array,
    LeftParen,
    RightParen,
    LeftBracket,
    RightBracket,
    LeftBrace,
    RightBrace,
    Less,
    Greater,
    LessEqual,
    GreaterEqual,
    EqualEqual,
    NotEqual,
    AndAnd,
    OrOr,
    Plus,
    Minus,
    Star,
    Slash,
    Percent,
    Not,
    Ampersand,
    Equal,
    PlusEqual,
    MinusEqual,
    StarEqual,
    SlashEqual,
    PercentEqual,
    Dot,
    Comma,
    Colon,
    Semicolon,
    Arrow,
}

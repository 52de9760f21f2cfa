// Kinds of tokens by name.
ghost use Rattle.std.specs.Prelude.{◌≡◌, IsTrue, ◌↔◌};
ghost use Rattle.hy_phrases.specs.Marks as spec;

use hy_lexer::TokenKind;

/// A kind of token without a value that is tested for or wanted somewhere.
#[derive(Clone, Copy, Debug, PartialEq, Eq)]
pub enum Mark {
    LeftParen,
    RightParen,
    LeftBracket,
    RightBracket,
    LeftBrace,
    RightBrace,
    Less,
    Greater,
    Equal,
    Ampersand,
    Dot,
    Comma,
    Colon,
    Semicolon,
    Arrow,
    Underscore,
    If,
    Else,
    Public,
    Fun,
    Subscript,
    Set,
    Init,
}

/// The mark that a token of this kind is, if it is one.
pub fn mark_of(kind: &TokenKind) -> Option<Mark>
    ensures { result ≡ spec.mark_of kind.now }
{
    match kind {
        TokenKind::LeftParen => Some(Mark::LeftParen),
        TokenKind::RightParen => Some(Mark::RightParen),
        TokenKind::LeftBracket => Some(Mark::LeftBracket),
        TokenKind::RightBracket => Some(Mark::RightBracket),
        TokenKind::LeftBrace => Some(Mark::LeftBrace),
        TokenKind::RightBrace => Some(Mark::RightBrace),
        TokenKind::Less => Some(Mark::Less),
        TokenKind::Greater => Some(Mark::Greater),
        TokenKind::Equal => Some(Mark::Equal),
        TokenKind::Ampersand => Some(Mark::Ampersand),
        TokenKind::Dot => Some(Mark::Dot),
        TokenKind::Comma => Some(Mark::Comma),
        TokenKind::Colon => Some(Mark::Colon),
        TokenKind::Semicolon => Some(Mark::Semicolon),
        TokenKind::Arrow => Some(Mark::Arrow),
        TokenKind::Underscore => Some(Mark::Underscore),
        TokenKind::If => Some(Mark::If),
        TokenKind::Else => Some(Mark::Else),
        TokenKind::Public => Some(Mark::Public),
        TokenKind::Fun => Some(Mark::Fun),
        TokenKind::Subscript => Some(Mark::Subscript),
        TokenKind::Set => Some(Mark::Set),
        TokenKind::Init => Some(Mark::Init),
        _ => None,
    }
}

/// Whether a token of this kind is that mark.
pub fn is(kind: &TokenKind, mark: Mark) -> bool
    ensures { IsTrue result ↔ (kind.now ≡ spec.kind_of mark) }
{
    match mark_of(kind) {
        Some(found) => found == mark,
        None => false,
    }
}

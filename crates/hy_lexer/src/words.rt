// The reserved words.
ghost use Rattle.std.specs.Prelude.{◌≡◌};
ghost use Rattle.hy_lexer.specs.Words.{kind_in, reserved, conventions, declarations, statements, values};

use crate::token::TokenKind;

/// The token of a reserved word, or of `_` alone. Other words are names.
pub fn reserved_word(word: &[u8]) -> Option<TokenKind>
    ensures { result ≡ kind_in reserved word.now }
{
    if let Some(kind) = convention(word) {
        return Some(kind);
    }
    if let Some(kind) = declaration(word) {
        return Some(kind);
    }
    if let Some(kind) = statement(word) {
        return Some(kind);
    }
    value(word)
}

// The token of a word that says how a value is passed or bound.
fn convention(word: &[u8]) -> Option<TokenKind>
    ensures { result ≡ kind_in conventions word.now }
{
    if word == b"let".as_slice() {
        Some(TokenKind::Let)
    } else if word == b"var".as_slice() {
        Some(TokenKind::Var)
    } else if word == b"inout".as_slice() {
        Some(TokenKind::Inout)
    } else if word == b"sink".as_slice() {
        Some(TokenKind::Sink)
    } else if word == b"set".as_slice() {
        Some(TokenKind::Set)
    } else if word == b"yielded".as_slice() {
        Some(TokenKind::Yielded)
    } else {
        None
    }
}

// The token of a word of declarations.
fn declaration(word: &[u8]) -> Option<TokenKind>
    ensures { result ≡ kind_in declarations word.now }
{
    if word == b"fun".as_slice() {
        Some(TokenKind::Fun)
    } else if word == b"subscript".as_slice() {
        Some(TokenKind::Subscript)
    } else if word == b"type".as_slice() {
        Some(TokenKind::Type)
    } else if word == b"trait".as_slice() {
        Some(TokenKind::Trait)
    } else if word == b"conformance".as_slice() {
        Some(TokenKind::Conformance)
    } else if word == b"public".as_slice() {
        Some(TokenKind::Public)
    } else if word == b"memberwise".as_slice() {
        Some(TokenKind::Memberwise)
    } else if word == b"init".as_slice() {
        Some(TokenKind::Init)
    } else if word == b"deinit".as_slice() {
        Some(TokenKind::Deinit)
    } else {
        None
    }
}

// The token of a word of statements.
fn statement(word: &[u8]) -> Option<TokenKind>
    ensures { result ≡ kind_in statements word.now }
{
    if word == b"if".as_slice() {
        Some(TokenKind::If)
    } else if word == b"else".as_slice() {
        Some(TokenKind::Else)
    } else if word == b"while".as_slice() {
        Some(TokenKind::While)
    } else if word == b"for".as_slice() {
        Some(TokenKind::For)
    } else if word == b"in".as_slice() {
        Some(TokenKind::In)
    } else if word == b"return".as_slice() {
        Some(TokenKind::Return)
    } else if word == b"break".as_slice() {
        Some(TokenKind::Break)
    } else if word == b"continue".as_slice() {
        Some(TokenKind::Continue)
    } else if word == b"yield".as_slice() {
        Some(TokenKind::Yield)
    } else {
        None
    }
}

// The token of a word of expressions and types.
fn value(word: &[u8]) -> Option<TokenKind>
    ensures { result ≡ kind_in values word.now }
{
    if word == b"true".as_slice() {
        Some(TokenKind::True)
    } else if word == b"false".as_slice() {
        Some(TokenKind::False)
    } else if word == b"self".as_slice() {
        Some(TokenKind::SelfValue)
    } else if word == b"Self".as_slice() {
        Some(TokenKind::SelfType)
    } else if word == b"Array".as_slice() {
        Some(TokenKind::Array)
    } else if word == b"_".as_slice() {
        Some(TokenKind::Underscore)
    } else {
        None
    }
}

// The lexer.
ghost use Rattle.std.specs.Prelude.{◌≡◌, ◌≤◌, ◌||◌, length, IfOk};
ghost use Rattle.hy_base.specs.Answers.{Answers};
ghost use Rattle.hy_lexer.specs.Scans.{Takes, piece_kind};
ghost use Rattle.hy_lexer.specs.Tokens.{Breaks, HasTokens, has_line_feed};
ghost use Rattle.hy_lexer.specs.Words.{word_token};

use crate::number::number_value;
use crate::scan::{Shape, next_piece};
use crate::token::{Token, TokenKind};
use crate::words::reserved_word;
use hy_base::{Fault, Rule, Span, Text};
use std::alloc::{AllocError, Global};

/// The tokens of a source, or the first of the rules L1 to L4 that it breaks, as `docs/LANGUAGE.md` has them.
pub fn lex(alloc: Global, bytes: &[u8]) -> Result<Vec<Token>, Fault>
    requires { length bytes.now ≤ 1048576 }
    ensures { Answers (Breaks bytes.now) (λ tokens. HasTokens bytes.now tokens.items) result }
{
    match str::from_utf8(bytes) {
        Ok(text) => text_tokens(alloc, text),
        Err(error) => {
            let from = error.valid_up_to() as u32;
            Err(Fault::Refused(Rule::L4, Span { from, to: from + 1 }))
        }
    }
}

// The tokens of a text.
fn text_tokens(alloc: Global, text: &str) -> Result<Vec<Token>, Fault>
    requires { length text.now ≤ 1048576 }
    ensures { Answers (Breaks text.now) (λ tokens. HasTokens text.now tokens.items) result }
{
    let mut tokens = Vec::new(alloc);
    let mut rest = text;
    let mut from: u32 = 0;
    let mut first = true;
    while !rest.is_empty() {
        let scanned = next_piece(rest);
        let (piece, behind) = rest.split_at(scanned.length);
        let to = from + scanned.length as u32;
        let span = Span { from, to };
        match token_of(alloc, scanned.shape, piece.as_bytes(), span)? {
            Some(kind) => {
                tokens.push(Token { kind, span, first })?;
                first = false;
            }
            None => first = still_first(first, piece.as_bytes()),
        }
        from = to;
        rest = behind;
    }
    Ok(tokens)
}

// The token that a piece is, if it is one and breaks no rule.
fn token_of(
    alloc: Global,
    shape: Shape,
    text: &[u8],
    span: Span,
) -> Result<Option<TokenKind>, Fault>
    ensures { Takes (piece_kind shape text.now) span result }
{
    match shape {
        Shape::Space => Ok(None),
        Shape::Comment => Ok(None),
        Shape::OpenComment => Err(Fault::Refused(Rule::L2, span)),
        Shape::BadCharacter => Err(Fault::Refused(Rule::L1, span)),
        Shape::Number => match number_value(text) {
            Some(value) => Ok(Some(TokenKind::Number(value))),
            None => Err(Fault::Refused(Rule::L3, span)),
        },
        Shape::Word => {
            let kind = word_token(alloc, text)?;
            Ok(Some(kind))
        }
        Shape::Mark(kind) => Ok(Some(kind)),
    }
}

// The token of a word: its own, if it is reserved, and else a name.
fn word_token(alloc: Global, word: &[u8]) -> Result<TokenKind, AllocError>
    ensures { IfOk result (λ kind. kind ≡ word_token word.now) }
{
    if let Some(kind) = reserved_word(word) {
        return Ok(kind);
    }
    let bytes = Vec::from_slice(alloc, word)?;
    Ok(TokenKind::Name(Text::from_vec(bytes)))
}

// Whether a token is the first on its line, if it would be without this text before it.
fn still_first(first: bool, text: &[u8]) -> bool
    ensures { result ≡ (first || has_line_feed text.now) }
{
    first || has_line_feed(text)
}

// Whether a line feed is in the text.
fn has_line_feed(text: &[u8]) -> bool
    ensures { result ≡ has_line_feed text.now }
{
    let mut rest = text;
    while let Some((byte, behind)) = rest.split_first() {
        if *byte == b'\n' {
            return true;
        }
        rest = behind;
    }
    false
}

// The tokens that begin or end a statement, or go on with it.
ghost use Rattle.std.specs.Prelude.{◌≡◌, ◌<◌, ◌≤◌, if◌then◌else◌, length, None, Some, MatchOption, OnSome};
ghost use Rattle.hy_grammar.specs.Kinds as kinds;
ghost use Rattle.hy_statements.specs.StatementWords as spec;
ghost use Rattle.hy_statements.specs.StatementWords.{TakesWord, LacksWord, TakesCompound, LacksCompound};

use hy_base::Span;
use hy_lexer::TokenKind;
use hy_phrases::Tokens;
use hy_tree::{Arithmetic, Introducer};

/// The word that a statement begins with.
#[derive(Clone, Copy, Debug, PartialEq, Eq)]
pub enum StmtWord {
    Bind(Introducer),
    /// `_`
    Discard,
    If,
    While,
    Return,
    Break,
    Continue,
    Yield,
}

/// The word that begins a statement which a token of this kind is, if it is one. `break` and `continue` begin one in a loop.
pub fn word_of(kind: &TokenKind, looping: bool) -> Option<StmtWord>
    ensures { result ≡ spec.word_of looping kind.now }
{
    match kind {
        TokenKind::Var => Some(StmtWord::Bind(Introducer::Var)),
        TokenKind::Let => Some(StmtWord::Bind(Introducer::Let)),
        TokenKind::Inout => Some(StmtWord::Bind(Introducer::Inout)),
        TokenKind::Underscore => Some(StmtWord::Discard),
        TokenKind::If => Some(StmtWord::If),
        TokenKind::While => Some(StmtWord::While),
        TokenKind::Return => Some(StmtWord::Return),
        TokenKind::Break => in_loop(StmtWord::Break, looping),
        TokenKind::Continue => in_loop(StmtWord::Continue, looping),
        TokenKind::Yield => Some(StmtWord::Yield),
        _ => None,
    }
}

fn in_loop(word: StmtWord, looping: bool) -> Option<StmtWord>
    ensures { result ≡ (if looping then Some word else None) }
{
    if looping { Some(word) } else { None }
}

/// The operator of a compound assignment that a token of this kind is, if it is one.
pub fn compound_of(kind: &TokenKind) -> Option<Arithmetic>
    ensures { result ≡ kinds.compound_of kind.now }
{
    match kind {
        TokenKind::PlusEqual => Some(Arithmetic::Add),
        TokenKind::MinusEqual => Some(Arithmetic::Subtract),
        TokenKind::StarEqual => Some(Arithmetic::Multiply),
        TokenKind::SlashEqual => Some(Arithmetic::Divide),
        TokenKind::PercentEqual => Some(Arithmetic::Remainder),
        _ => None,
    }
}

/// Takes the word that begins a statement, if one comes next.
pub fn take_word(tokens: &mut Tokens<'_>, looping: bool) -> Option<(StmtWord, Span)>
    ensures token { MatchOption result (LacksWord looping tokens.old.rest.now × (tokens.new.rest.now ≡ tokens.old.rest.now))
        (λ taken. TakesWord looping tokens.old.rest.now taken.0 taken.1 tokens.new.rest.now) }
    ensures within { length tokens.new.rest.now ≤ length tokens.old.rest.now }
    ensures progress { OnSome result (length tokens.new.rest.now < length tokens.old.rest.now) }
{
    let (token, rest) = tokens.rest.split_first()?;
    let word = word_of(&token.kind, looping)?;
    tokens.rest = rest;
    Some((word, token.span))
}

/// Takes the operator of a compound assignment, if one comes next.
pub fn take_compound(tokens: &mut Tokens<'_>) -> Option<Arithmetic>
    ensures token { MatchOption result (LacksCompound tokens.old.rest.now × (tokens.new.rest.now ≡ tokens.old.rest.now))
        (λ operator. TakesCompound tokens.old.rest.now operator tokens.new.rest.now) }
    ensures within { length tokens.new.rest.now ≤ length tokens.old.rest.now }
{
    let (token, rest) = tokens.rest.split_first()?;
    let operator = compound_of(&token.kind)?;
    tokens.rest = rest;
    Some(operator)
}

/// Whether the next token is the first on its line.
pub fn begins_line(tokens: &Tokens<'_>) -> bool
    ensures { result ≡ spec.begins_line tokens.now.rest.now }
{
    match tokens.rest.first() {
        Some(token) => token.first,
        None => false,
    }
}

/// Whether a statement that needs nothing more ends before the next token: at a `;` or `}`, or at the end of its line.
pub fn ends_here(tokens: &Tokens<'_>) -> bool
    ensures { result ≡ spec.ends_here tokens.now.rest.now }
{
    match tokens.rest.first() {
        Some(token) => match token.kind {
            TokenKind::Semicolon | TokenKind::RightBrace => true,
            _ => token.first,
        },
        None => true,
    }
}

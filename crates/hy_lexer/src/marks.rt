// The marks.
ghost use Rattle.std.specs.Prelude.{◌≡◌, [], ◌∷◌, MatchOption};
ghost use Rattle.hy_lexer.specs.Scans.{BeginsWithPair, LacksPair};
ghost use Rattle.hy_lexer.specs.Words.{kind_in, pairs, singles};

use crate::token::TokenKind;

/// The token of a mark of two bytes that a text begins with.
pub fn pair_at(text: &[u8]) -> Option<TokenKind>
    ensures { MatchOption result (LacksPair text.now) (λ kind. BeginsWithPair text.now kind) }
{
    let (first, behind) = text.split_first()?;
    let (second, _) = behind.split_first()?;
    pair(*first, *second)
}

// The token of a mark of two bytes.
fn pair(first: u8, second: u8) -> Option<TokenKind>
    ensures { result ≡ kind_in pairs (first ∷ second ∷ []) }
{
    match (first, second) {
        (b'<', b'=') => Some(TokenKind::LessEqual),
        (b'>', b'=') => Some(TokenKind::GreaterEqual),
        (b'=', b'=') => Some(TokenKind::EqualEqual),
        (b'!', b'=') => Some(TokenKind::NotEqual),
        (b'&', b'&') => Some(TokenKind::AndAnd),
        (b'|', b'|') => Some(TokenKind::OrOr),
        (b'+', b'=') => Some(TokenKind::PlusEqual),
        (b'-', b'=') => Some(TokenKind::MinusEqual),
        (b'*', b'=') => Some(TokenKind::StarEqual),
        (b'/', b'=') => Some(TokenKind::SlashEqual),
        (b'%', b'=') => Some(TokenKind::PercentEqual),
        (b'-', b'>') => Some(TokenKind::Arrow),
        _ => None,
    }
}

/// The token of a mark of one byte.
pub fn single(byte: u8) -> Option<TokenKind>
    ensures { result ≡ kind_in singles (byte ∷ []) }
{
    match byte {
        b'(' => Some(TokenKind::LeftParen),
        b')' => Some(TokenKind::RightParen),
        b'[' => Some(TokenKind::LeftBracket),
        b']' => Some(TokenKind::RightBracket),
        b'{' => Some(TokenKind::LeftBrace),
        b'}' => Some(TokenKind::RightBrace),
        b'<' => Some(TokenKind::Less),
        b'>' => Some(TokenKind::Greater),
        b'+' => Some(TokenKind::Plus),
        b'-' => Some(TokenKind::Minus),
        b'*' => Some(TokenKind::Star),
        b'/' => Some(TokenKind::Slash),
        b'%' => Some(TokenKind::Percent),
        b'!' => Some(TokenKind::Not),
        b'&' => Some(TokenKind::Ampersand),
        b'=' => Some(TokenKind::Equal),
        b'.' => Some(TokenKind::Dot),
        b',' => Some(TokenKind::Comma),
        b':' => Some(TokenKind::Colon),
        b';' => Some(TokenKind::Semicolon),
        _ => None,
    }
}

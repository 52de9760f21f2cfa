// Laws of the definitions. The functions do nothing; each contract is a law.
ghost use Rattle.std.specs.Prelude.{◌≡◌, List, ℕ, [], length};
ghost use Rattle.hy_lexer.specs.Pieces.{Piece, Splits};
ghost use Rattle.hy_lexer.specs.Spans.{AreApart, AreGapsBetween};
ghost use Rattle.hy_lexer.specs.Tokens.{HasTokens};
ghost use Rattle.hy_lexer.specs.declared.token.Token.{Token};

/// A text is split into pieces in one way at most.
pub fn one_split()
    ensures { (bytes : List ℕ) (one other : List Piece) → Splits bytes one [] → Splits bytes other [] → one ≡ other }
{}

/// A text has one list of tokens at most.
pub fn one_list_of_tokens()
    ensures { (bytes : List ℕ) (one other : List Token) → HasTokens bytes one → HasTokens bytes other → one ≡ other }
{}

/// The spans of tokens are in order, apart, not empty and inside the text.
pub fn spans_are_apart()
    ensures { (bytes : List ℕ) (tokens : List Token) → HasTokens bytes tokens → AreApart 0 tokens (length bytes) }
{}

/// Only spaces and comments stand before, between and after the tokens.
pub fn gaps_are_spaces_and_comments()
    ensures { (bytes : List ℕ) (tokens : List Token) → HasTokens bytes tokens → AreGapsBetween bytes 0 tokens }
{}

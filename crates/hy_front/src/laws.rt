// Laws, and worked examples. The functions do nothing; each contract is a law or a table.
ghost use Rattle.std.specs.Prelude.{◌≡◌, ◌≢◌, ℕ, List, Contains, codes};
ghost use Rattle.hy_lexer.specs.Tokens.{HasTokens};
ghost use Rattle.hy_lexer.specs.declared.token.Token.{Token};
ghost use Rattle.hy_lexer.specs.declared.token.TokenKind.TheVariants as token;
ghost use Rattle.hy_scope.specs.FullNames.{IsNameText};
ghost use Rattle.hy_front.specs.Rows.{Rows};

/// A name among the tokens of a source has no character that full names are written with, and is not `_`: what
/// `full_names_tell_apart` of `hy_scope` asks of base names and labels.
pub fn lexed_names_are_names()
    ensures { (bytes : List ℕ) (tokens : List Token) (it : Token) (text : List ℕ) → HasTokens bytes tokens → Contains tokens it → it.kind ≡ token.Name text
        → IsNameText text × (text ≢ codes "_") }
{}

/// Where a form is not built, in small trees, computed by the definitions.
pub fn rows()
    ensures { Rows }
{}

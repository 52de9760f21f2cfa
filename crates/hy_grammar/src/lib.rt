//! The grammar of the language and its machine, as definitions over the tokens and the plain tree. `docs/GRAMMAR.md` tells them.
#![tactic(auto)]

ghost use Rattle.std.specs.Prelude.{◌≡◌, ◌∷◌, Some, [], Ok, Err};
ghost use Rattle.hy_lexer.specs.declared.token.TokenKind.TheVariants as token;
ghost use Rattle.hy_grammar.specs.Machine.{Unexpected, TooDeep};
ghost use Rattle.hy_grammar.specs.Rows as row;

/// Rows of `docs/GRAMMAR.md`: how statements are separated, and where tokens begin no program. Each is the body of `fun main()`, and
/// gives the number of its statements, or the number of tokens that are left where they begin no program.
pub fn worked_rows()
    // x(1
    ensures unclosed { row.counted (row.in_main (row.same row.x ∷ row.same token.LeftParen ∷ row.same row.one ∷ [])) ≡ Err 1 }
    // var x = 1 | + 1 | x(1)
    ensures plus_goes_on { row.counted
        (row.in_main (row.same token.Var ∷ row.same row.x ∷ row.same token.Equal ∷ row.same row.one ∷ row.next token.Plus ∷ row.same row.one ∷
        row.next row.x ∷ row.same token.LeftParen ∷ row.same row.one ∷ row.same token.RightParen ∷ [])) ≡ Ok 2 }
    // x | - 1
    ensures minus_goes_on { row.counted (row.in_main (row.same row.x ∷ row.next token.Minus ∷ row.same row.one ∷ [])) ≡ Ok 1 }
    // x | (x)
    ensures paren_begins { row.counted (row.in_main (row.same row.x ∷ row.next token.LeftParen ∷ row.same row.x ∷ row.same token.RightParen ∷ [])) ≡ Ok 2 }
    // x x
    ensures no_separator { row.counted (row.in_main (row.same row.x ∷ row.same row.x ∷ [])) ≡ Err 2 }
    // x; x
    ensures semicolon { row.counted (row.in_main (row.same row.x ∷ row.same token.Semicolon ∷ row.same row.x ∷ [])) ≡ Ok 2 }
    // x;
    ensures no_last_semicolon { row.counted (row.in_main (row.same row.x ∷ row.same token.Semicolon ∷ [])) ≡ Err 1 }
    // return | x
    ensures return_alone { row.counted (row.in_main (row.same token.Return ∷ row.next row.x ∷ [])) ≡ Ok 2 }
    // return x
    ensures return_value { row.counted (row.in_main (row.same token.Return ∷ row.same row.x ∷ [])) ≡ Ok 1 }
    // while x {} | - 1
    ensures minus_begins { row.counted
        (row.in_main (row.same token.While ∷ row.same row.x ∷ row.same token.LeftBrace ∷ row.same token.RightBrace ∷ row.next token.Minus ∷
        row.same row.one ∷ [])) ≡ Ok 2 }
    // break
    ensures break_outside { row.counted (row.in_main (row.same token.Break ∷ [])) ≡ Err 2 }
    // x < 1 < 1
    ensures one_comparison { row.counted
        (row.in_main (row.same row.x ∷ row.same token.Less ∷ row.same row.one ∷ row.same token.Less ∷ row.same row.one ∷ [])) ≡ Err 3 }
    // if x {} | else {}
    ensures else_goes_on { row.counted
        (row.in_main (row.same token.If ∷ row.same row.x ∷ row.same token.LeftBrace ∷ row.same token.RightBrace ∷ row.next token.Else ∷
        row.same token.LeftBrace ∷ row.same token.RightBrace ∷ [])) ≡ Ok 1 }
{}

/// Rows of `docs/GRAMMAR.md` at the limit on nesting: `fun main() { var x = `, so many `(`, and `1` where the row has it.
pub fn rows_at_the_limit()
    ensures at_200 { row.stopped (row.in_value (row.opened 199 (row.same row.one ∷ []))) ≡ Some (Unexpected 0) }
    ensures at_201 { row.stopped (row.in_value (row.opened 200 (row.same row.one ∷ []))) ≡ Some (TooDeep 2) }
{}

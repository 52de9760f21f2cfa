// The parser.
ghost use Rattle.std.specs.Prelude.{◌≡◌, ◌-◌, IfOk, length, drop};
ghost use Rattle.hy_base.specs.Answers.{Answers};
ghost use Rattle.hy_lexer.specs.Spans.{AreApart};
ghost use Rattle.hy_tree.specs.Denotes.{program_of};
ghost use Rattle.hy_tree.specs.Preorder.{IsNumbered};
ghost use Rattle.hy_grammar.specs.Parses as spec;
ghost use Rattle.hy_grammar.specs.Parses.{Breaks, HasTree, unexpected_at, too_deep_at};
ghost use Rattle.hy_parser.specs.ReadsDeclarations.{refused};

use crate::declarations::read_program;
use hy_base::{Fault, Rule, Span};
use hy_lexer::Token;
use hy_phrases::Stop;
use hy_tree::{Program, number};
use std::alloc::Global;

/// The tree of a source of `size` bytes, from its tokens, with its nodes numbered in preorder; or the first of the rules P1 and
/// P2 that it breaks. There are fewer than 2^32 nodes, so that a table by node has a place for each. `docs/GRAMMAR.md` has
/// the grammar, and says when which of the two rules is broken.
pub fn parse(alloc: Global, tokens: &[Token], size: u32) -> Result<Program, Fault>
    requires { AreApart 0 tokens.now size }
    ensures tree { Answers (Breaks tokens.now size) (λ tree. HasTree tokens.now (program_of tree)) result }
    ensures numbered { IfOk result (λ tree. IsNumbered (program_of tree)) }
{
    match read_program(alloc, tokens) {
        Ok(plain) => {
            let numbered = number(alloc, &plain)?;
            Ok(numbered)
        }
        Err(Stop::NoMemory) => Err(Fault::NoMemory),
        Err(Stop::Unexpected(left)) => Err(unexpected(last_tokens(tokens, left), size)),
        Err(Stop::TooDeep(left)) => Err(too_deep(last_tokens(tokens, left), size)),
    }
}

// So many tokens at the end.
fn last_tokens(tokens: &[Token], count: usize) -> &[Token]
    ensures { result.now ≡ drop (length tokens.now - count) tokens.now }
{
    &tokens[tokens.len().saturating_sub(count)..]
}

// The refusal at the first of these tokens, or at the end of the file.
fn unexpected(tokens: &[Token], size: u32) -> Fault
    ensures { result ≡ refused (unexpected_at size tokens.now) }
{
    match tokens.first() {
        Some(token) => Fault::Refused(Rule::P1, token.span),
        None => at_end(size),
    }
}

// The refusal where the first of these tokens begins a level too many. Where it ends the file, P1 at the end of the file is first.
fn too_deep(tokens: &[Token], size: u32) -> Fault
    ensures { result ≡ refused (too_deep_at size tokens.now) }
{
    match tokens.first() {
        Some(token) => {
            if token.span.to == size {
                at_end(size)
            } else {
                Fault::Refused(Rule::P2, token.span)
            }
        }
        None => at_end(size),
    }
}

// The refusal at the end of the file.
fn at_end(size: u32) -> Fault
    ensures { result ≡ refused (spec.at_end size) }
{
    Fault::Refused(
        Rule::P1,
        Span {
            from: size,
            to: size,
        },
    )
}

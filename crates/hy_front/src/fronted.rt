// All passes, one after the other.
ghost use Rattle.std.specs.Prelude.{◌≡◌, List, ℕ};
ghost use Rattle.hy_base.specs.Answers.{Answers};
ghost use Rattle.hy_tree.specs.Denotes.{program_of};
ghost use Rattle.hy_tree.specs.Findings.{meanings};
ghost use Rattle.hy_tree.specs.Tree.{Program as Tree};
ghost use Rattle.hy_front.specs.Phases.{Breaks, IsTree};
ghost use Rattle.hy_front.specs.Unbuilt.{Breaks as BreaksForm};

use crate::declaration::first_unbuilt;
use hy_base::{Fault, Rule, Span};
use hy_grammar_laws::one_program;
use hy_lexer::{lex, one_list_of_tokens, spans_are_apart};
use hy_parser::parse;
use hy_scope::resolve;
use hy_tree::{Meant, Program};
use std::alloc::Global;

/// The longest source, in bytes.
pub const LONGEST: u32 = 1_048_576;

/// Accepts a tree whose forms are all built, where `meant` has what its names stand for.
fn accept(tree: Program, meant: &[Meant]) -> Result<Program, Fault>
    requires { meant.now ≡ meanings (program_of tree) }
    ensures { Answers (BreaksForm (program_of tree)) (λ accepted. program_of accepted ≡ program_of tree) result }
{
    match first_unbuilt(&tree, meant) {
        Some(first) => Err(Fault::Refused(first.rule, first.span)),
        None => Ok(tree),
    }
}

/// The tree of a source, or the first rule that the source breaks, phase by phase, as `docs/REFUSALS.md` has them.
pub fn front(alloc: Global, bytes: &[u8]) -> Result<Program, Fault>
    ensures { Answers (Breaks bytes.now) (λ tree. IsTree bytes.now (program_of tree)) result }
{
    // The laws that its clause stands on; these calls do nothing.
    one_list_of_tokens();
    one_program();
    spans_are_apart();
    if bytes.len() > LONGEST as usize {
        let end = Span {
            from: LONGEST,
            to: LONGEST,
        };
        return Err(Fault::Refused(Rule::Z1, end));
    }
    let tokens = lex(alloc, bytes)?;
    let tree = parse(alloc, &tokens, bytes.len() as u32)?;
    let resolved = resolve(alloc, &tree)?;
    accept(tree, resolved.meant.as_slice())
}

/// A source has at most one tree.
pub fn one_tree()
    ensures { (bytes : List ℕ) (one other : Tree) → IsTree bytes one → IsTree bytes other → one ≡ other }
{
    one_list_of_tokens();
    one_program();
}

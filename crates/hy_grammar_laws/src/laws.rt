// Laws of the grammar and its machine. The functions do nothing; each contract is a law.
ghost use Rattle.std.specs.Prelude.{◌≡◌, List, ℕ, Some, None, length, Ok, Err};
ghost use Rattle.hy_base.specs.First.{IsFirst};
ghost use Rattle.hy_lexer.specs.Spans.{AreApart};
ghost use Rattle.hy_lexer.specs.declared.token.Token.{Token};
ghost use Rattle.hy_tree.specs.Tree.{Program as Tree};
ghost use Rattle.hy_grammar.specs.Completion.{Accepts, completion};
ghost use Rattle.hy_grammar.specs.Grammar.{IsProgram};
ghost use Rattle.hy_grammar.specs.Machine.{Halt, run, start, walk};
ghost use Rattle.hy_grammar.specs.Parses.{Begins, Breaks, reached, refusal_of};
ghost use Rattle.hy_grammar.specs.Stack.{State};

/// The tokens of a source have at most one tree. `docs/GRAMMAR.md` has the grammar.
pub fn one_program()
    ensures { (tokens : List Token) (one other : Tree) → IsProgram tokens one → IsProgram tokens other → one ≡ other }
{}

/// The machine accepts what the grammar has, with its tree, and nothing else.
pub fn machine_is_grammar()
    ensures accepted { (tokens : List Token) (tree : Tree) → IsProgram tokens tree → run (length tokens) start tokens ≡ Ok tree }
    ensures only { (tokens : List Token) (tree : Tree) → run (length tokens) start tokens ≡ Ok tree → IsProgram tokens tree }
{}

/// From each state of the machine there is a way to the end of a program.
pub fn every_state_completes()
    ensures { (s : State) → Accepts s (completion s) }
{}

/// Tokens that the machine goes over begin a program, and tokens within which it stops begin none.
pub fn refused_tokens_begin_no_program()
    ensures refused { (tokens : List Token) → reached 0 start tokens ≡ None → Begins tokens → ⊥ }
    ensures others { (tokens : List Token) (s : State) → reached 0 start tokens ≡ Some s → Begins tokens }
{}

/// Where the machine with the limit on nesting stops, the refusal that it tells is the first of all. Where it accepts, none is broken.
pub fn first_refusal()
    ensures accepts { (tokens : List Token) (size : ℕ) (tree : Tree) → AreApart 0 tokens size → walk (length tokens) start tokens ≡ Ok tree
        → IsFirst (Breaks tokens size) None × IsProgram tokens tree }
    ensures refuses { (tokens : List Token) (size : ℕ) (halt : Halt) → AreApart 0 tokens size → walk (length tokens) start tokens ≡ Err halt
        → IsFirst (Breaks tokens size) (Some (refusal_of tokens size halt)) }
{}

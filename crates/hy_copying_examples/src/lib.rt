//! Worked examples of the copying meaning: programs with what they write and how they end, computed by the definitions. The functions
//! do nothing; their contracts are tables. `docs/COPYING.md` has the rules.
#![tactic(auto)]

ghost use Rattle.hy_copying_examples.specs.Accounts as accounts;
ghost use Rattle.hy_copying_examples.specs.Agreeing as agreeing;
ghost use Rattle.hy_copying_examples.specs.Agreeing.{AllAgree};
ghost use Rattle.hy_copying_examples.specs.Arrays as array;
ghost use Rattle.hy_copying_examples.specs.Basics as basic;
ghost use Rattle.hy_copying_examples.specs.Limits as limit;
ghost use Rattle.hy_copying_examples.specs.Lives as life;
ghost use Rattle.hy_copying_examples.specs.Orders as order;
ghost use Rattle.hy_copying_examples.specs.Projections as projection;
ghost use Rattle.hy_copying_examples.specs.Rows.{Hold};

/// A program of some eighty lines, with traits, arrays and projections.
pub fn accounts_in_a_table()
    ensures { Hold accounts.rows }
{}

/// What operators give.
pub fn operators()
    ensures { Hold basic.operators }
{}

/// Traps, with their spans.
pub fn traps()
    ensures { Hold basic.traps }
{}

/// Branches and loops.
pub fn branches()
    ensures { Hold basic.branches }
{}

/// Calls, and the order in which arguments are evaluated.
pub fn calls()
    ensures { Hold basic.calls }
{}

/// What is moved, and what is set in part.
pub fn moves()
    ensures { Hold life.moves }
{}

/// What is deinitialised at the ends of statements, blocks and bodies.
pub fn ends()
    ensures { Hold life.ends }
{}

/// When temporaries die.
pub fn temporaries()
    ensures { Hold life.temporaries }
{}

/// Places that are lent to functions and methods.
pub fn lent()
    ensures { Hold projection.lent }
{}

/// Bound projections, and when they close.
pub fn bound()
    ensures { Hold projection.bound }
{}

/// Subscripts that yield.
pub fn subscripts()
    ensures { Hold projection.subscripts }
{}

/// Traps in ramps and slides, and past projections.
pub fn subscript_traps()
    ensures { Hold projection.subscript_traps }
{}

/// Three projections that close in each order.
pub fn slides()
    ensures { Hold projection.slides }
{}

/// Ends of blocks and bodies past open projections, and a trap.
pub fn early()
    ensures { Hold projection.early }
{}

/// Arrays and their members.
pub fn arrays()
    ensures { Hold array.arrays }
{}

/// Indices outside an array, and the last element of an empty one.
pub fn array_traps()
    ensures { Hold array.array_traps }
{}

/// Generic functions, and methods that a trait requires.
pub fn generics()
    ensures { Hold array.generics }
{}

/// What `read` takes of inputs that are whole, bad or missing.
pub fn inputs()
    ensures { Hold limit.inputs }
{}

/// Inputs that are a beginning only.
pub fn cut_inputs()
    ensures { Hold limit.cut_inputs }
{}

/// One program with each number of turns that is too small for it.
pub fn turns()
    ensures { Hold limit.turns }
{}

/// The states of a run, before each of its events.
pub fn states()
    ensures { Hold limit.states }
{}

/// Integers of the sized types.
pub fn sized()
    ensures { Hold limit.sized }
{}

/// Orders of evaluation.
pub fn orders()
    ensures { Hold order.orders }
{}

/// Subscripts that are suspended in others, and past which a run goes.
pub fn suspended()
    ensures { Hold order.suspended }
{}

/// Values that are set in part, and what is stored over.
pub fn partial()
    ensures { Hold order.partial }
{}

/// On programs of the forms that are built the meaning of the whole language is the one that `hyloc run` keeps to.
pub fn agreeing()
    ensures { AllAgree 5 agreeing.texts }
{}

/// The same with no turns.
pub fn agreeing_without_turns()
    ensures { AllAgree 0 agreeing.texts }
{}

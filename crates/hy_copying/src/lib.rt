//! What a source of the whole language means: the copying meaning, as definitions. Programmers may read a program as if every value
//! were copied. `docs/COPYING.md` tells it in words. No code is proved against these definitions yet.
#![tactic(auto)]

ghost use Rattle.hy_copying.specs.Laws.{NothingIsDoneWithoutATurn, SpentRunsTookAllTurns, StatesAreBeginnings, RunsThatEndAreWhole};
ghost use Rattle.hy_copying.specs.Laws.{CopiesCostTurns, ReadsChangeNothing, MovesUnset, LentForChange};

/// A run with no turns is spent, and has done nothing.
pub fn no_turn()
    ensures { NothingIsDoneWithoutATurn }
{}

/// A run that is spent has taken all turns that it may take.
pub fn spent_runs_took_all_turns()
    ensures { SpentRunsTookAllTurns }
{}

/// What is seen in a state of a run is a beginning of what is seen in the end: its output, turns and opened places.
pub fn states_are_beginnings()
    ensures { StatesAreBeginnings }
{}

/// A limit on events that a run does not meet changes nothing.
pub fn runs_that_end_are_whole()
    ensures { RunsThatEndAreWhole }
{}

/// A copy takes a turn and opens a place for each array and each element of one, and does nothing else.
pub fn copies_cost_turns()
    ensures { CopiesCostTurns }
{}

/// A variable is read without any event, and nothing changes.
pub fn reads_change_nothing()
    ensures { ReadsChangeNothing }
{}

/// A variable that is moved is unset then.
pub fn moves_unset()
    ensures { MovesUnset }
{}

/// A variable that is lent for change has what its parameter has at the end.
pub fn lent_for_change()
    ensures { LentForChange }
{}

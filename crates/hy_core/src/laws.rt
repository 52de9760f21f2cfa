//! Laws of the two meanings of a core: each is the contract of a function that does nothing.

ghost use Rattle.hy_core.specs.Differences.{Differences};
ghost use Rattle.hy_core.specs.Examples.{Examples, trap_in_slide};
ghost use Rattle.hy_core.specs.Flowing.{CalmFlow, DoubtfulFlow, FlawedFlow, MendedFlow, RowsFlow, WildFlow, dropped_without_rows};
ghost use Rattle.hy_core.specs.Meaning.{CopyingAndLendingAgree, EveryRunEnds, MeaningsAgree, OneMeaning};
ghost use Rattle.hy_core.specs.Ready.{Ready};

/// Where the run that copies is calm, the run that lends references shows the same after each number of steps.
pub fn copying_and_lending_agree()
    ensures { CopyingAndLendingAgree }
{}

/// Where a run is calm, its two meanings are equal.
pub fn meanings_agree()
    ensures { MeaningsAgree }
{}

/// Every run ends, in either memory, so every run has a meaning.
pub fn every_run_ends()
    ensures { EveryRunEnds }
{}

/// Two numbers of steps at which a run has ended show the same, so it has one meaning.
pub fn one_meaning()
    ensures { OneMeaning }
{}

/// What small cores do, the same in both memories, and small cores that are not calm, on which the memories differ.
pub fn examples()
    ensures calm { Examples }
    ensures differ { Differences }
{}

/// Cores are ready at all: one with a subscript that yields what it is lent, whose slide traps; and one that gives up an array of
/// arrays once each of them is swapped out and freed.
pub fn a_core_is_ready()
    ensures slides { Ready trap_in_slide }
    ensures rows { Ready dropped_without_rows }
{}

/// The small cores that are calm have a flow, which is computed, and those that are not calm have none. Nor has a core that
/// breaks one rule of flows; and one that is mended has. What is set on one way only is used where that is known.
pub fn flow_examples()
    ensures calm { CalmFlow }
    ensures wild { WildFlow }
    ensures flawed { FlawedFlow }
    ensures mended { MendedFlow }
    ensures doubtful { DoubtfulFlow }
    ensures rows { RowsFlow }
{}

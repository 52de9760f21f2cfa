// Laws of lowered code, each the contract of a function that does nothing.
ghost use Rattle.hy_lower_laws.specs.Lengths.{LengthsAreRight};
ghost use Rattle.hy_lower_laws.specs.WordRuns.{WordRunsAgree};
ghost use Rattle.hy_lower_laws.specs.WordSteps.{WordStepsFollow};

/// The segment of each statement has the length by which the jumps of a body are placed.
pub fn lengths_are_right()
    ensures { LengthsAreRight }
{}

/// The machine follows the core through statements on whole locals of one word or of none: constants, sums, differences, products,
/// orders, prints, choices, loops and the end of `main`.
pub fn word_steps_follow()
    ensures { WordStepsFollow }
{}

/// After each number of steps of a run of `main` through such statements, the object shows the same after some number of
/// instructions.
pub fn word_runs_agree()
    ensures { WordRunsAgree }
{}

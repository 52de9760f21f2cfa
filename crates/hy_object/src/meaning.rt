// Laws of the machine that runs objects, each the contract of a call that does nothing.
ghost use Rattle.hy_object.specs.Changes.{EveryStepChanges};
ghost use Rattle.hy_object.specs.Names.{NamesAreCounted};
ghost use Rattle.hy_object.specs.Runs.{CutRunsAgree, EveryRunAddsUp, EveryRunEnds, OneRun, WritesBeginnings};
ghost use Rattle.hy_object.specs.SmallObjects.{AllAnswered, IsStuckAtFreed, OpenAsToldBy, TellsSafeAndBalanced, both_open, child_closed, on_accesses};
ghost use Rattle.hy_object.specs.SmallObjects.{on_arrays, on_calls, on_input, on_programs, on_subscripts, on_turns, on_words};

/// A run has one end: an object that ends on an input with a number of turns is seen so in one way only.
pub fn one_run()
    ensures { OneRun }
{}

/// Every run ends, whatever the object: with a number of turns, after some number of steps.
pub fn every_run_ends()
    ensures { EveryRunEnds }
{}

/// Small objects are seen to run as they should: numbers, input and turns; calls and accesses; subscripts; arrays;
/// whole programs.
pub fn small_objects_run()
    ensures words { AllAnswered on_words }
    ensures input { AllAnswered on_input }
    ensures turns { AllAnswered on_turns }
    ensures calls { AllAnswered on_calls }
    ensures accesses { AllAnswered on_accesses }
    ensures subscripts { AllAnswered on_subscripts }
    ensures arrays { AllAnswered on_arrays }
    ensures programs { AllAnswered on_programs }
    ensures open { OpenAsToldBy both_open child_closed }
    ensures freed { IsStuckAtFreed }
    ensures safe { TellsSafeAndBalanced }
{}

/// Each step of a run changes the state in one of a few ways, whatever the instruction.
pub fn every_step_changes()
    ensures { EveryStepChanges }
{}

/// Turns, counts, journal and input of a run add up.
pub fn every_run_adds_up()
    ensures { EveryRunAddsUp }
{}

/// What a run has written at some time is a beginning of what it writes in the end.
pub fn writes_beginnings()
    ensures { WritesBeginnings }
{}

/// A run on a beginning of the input is the run on the input, until it asks for more.
pub fn cut_runs_agree()
    ensures { CutRunsAgree }
{}

/// How often a block's name stands in memory changes by what is stored over and by what is stored.
pub fn names_are_counted()
    ensures { NamesAreCounted }
{}

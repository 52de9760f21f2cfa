// What cores compute with integers of all types.
ghost use Rattle.hy_core.specs.IntegerExamples.{IntegerExamples};
ghost use Rattle.hy_core.specs.Ranges.{IntegersStayInRange};

/// Conversions, arithmetic and comparisons at the edges of each integer type, the same in both memories.
pub fn integer_examples()
    ensures { IntegerExamples }
{}

/// In a core of the right shape, a place of a sized integer type holds only integers of the type, as long as the run goes on.
pub fn integers_stay_in_range()
    ensures { IntegersStayInRange }
{}

// Laws of the lowering, each the contract of a function that does nothing.
ghost use Rattle.hy_lower.specs.Examples.{Examples};

/// The code of small cores, and what it does: the reports of the cores' own runs, with each block freed and each access closed
/// where the run is done.
pub fn examples()
    ensures { Examples }
{}

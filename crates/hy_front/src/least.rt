// The first of the places that were met so far.
ghost use Rattle.std.specs.Prelude.{◌≡◌};
ghost use Rattle.hy_front.specs.Noted.{note, after};
ghost use Rattle.hy_front.specs.Unbuilt.{when};

use hy_base::{BrokenRule, Rule, Span, sooner};

/// One more was met.
pub fn meet(first: Option<BrokenRule>, span: Span) -> Option<BrokenRule>
    ensures { result ≡ note span first }
{
    sooner(first, Rule::X1, span)
}

/// One more was met where `broken` says so.
pub fn meet_when(first: Option<BrokenRule>, broken: bool, span: Span) -> Option<BrokenRule>
    ensures { result ≡ after (when broken span) first }
{
    if broken { meet(first, span) } else { first }
}

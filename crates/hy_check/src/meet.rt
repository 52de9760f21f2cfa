// The first of the broken rules that are met.
ghost use Rattle.std.specs.Prelude.{◌≡◌};
ghost use Rattle.hy_check.specs.Noted.{after};
ghost use Rattle.hy_check.specs.Refusals.{when};

use hy_base::{BrokenRule, Rule, Span, sooner};

/// A rule is broken where `broken` says so. `first` is the first of those that were met before.
pub fn meet_when(
    first: Option<BrokenRule>,
    broken: bool,
    rule: Rule,
    span: Span,
) -> Option<BrokenRule>
    ensures { result ≡ after (when broken rule span) first }
{
    if broken {
        return sooner(first, rule, span);
    }
    first
}

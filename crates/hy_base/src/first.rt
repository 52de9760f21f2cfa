// The first of the broken rules that were met so far.
ghost use Rattle.std.specs.Prelude.{◌≡◌};
ghost use Rattle.hy_base.specs.First as F;

use crate::{Rule, Span};

/// A rule that is broken, and where. `docs/REFUSALS.md` says which of several is the first.
#[derive(Clone, Copy, Debug, PartialEq, Eq)]
pub struct BrokenRule {
    pub rule: Rule,
    pub span: Span,
}

impl BrokenRule {
    /// Whether it comes before `other`: by the least end, then the greatest start, then the least place in the table of rules.
    pub fn precedes(self, other: BrokenRule) -> bool
        ensures { result ≡ F.precedes self other }
    {
        let sooner = self.rule.place() < other.rule.place();
        let inner = other.span.from < self.span.from
            || (self.span.from == other.span.from && sooner);
        self.span.to < other.span.to || (self.span.to == other.span.to && inner)
    }
}

/// A rule that is broken at `span` is met: the first of it and of those that were met before, of which `first` is the first.
/// A pass keeps this alone of all the broken rules that it meets.
pub fn sooner(first: Option<BrokenRule>, rule: Rule, span: Span) -> Option<BrokenRule>
    ensures { result ≡ F.sooner first (record { rule = rule; span = span }) }
{
    let broken = BrokenRule { rule, span };
    match first {
        None => Some(broken),
        Some(other) => {
            if broken.precedes(other) {
                Some(broken)
            } else {
                Some(other)
            }
        }
    }
}

// Cells that an instruction uses, and how they are reached.
ghost use Rattle.std.specs.Prelude.{◌≡◌, ℕ};
ghost use Rattle.hy_access.specs.Accesses.{IsLiveIfGiven};
ghost use Rattle.hy_object.specs.Checks.{may_read, may_use, may_write};
ghost use Rattle.hy_object.specs.States.{State};
ghost use Rattle.hy_store.specs.Opened.{RepresentAccesses, abstract_reach};

use hy_access::{AccId, Accesses, Range};
use hy_object::Way;

/// Some cells of a block, and the access that they are reached through; the own frame is reached without one.
#[derive(Clone, Copy, Debug, PartialEq, Eq)]
pub struct Reach {
    pub range: Range,
    pub through: Option<AccId>,
}

/// Whether no live access forbids that the cells are read.
pub fn may_read(accesses: &Accesses, reach: Reach) -> bool
    requires { IsLiveIfGiven reach.through accesses.now }
    ensures { (s : State) (name : ℕ → ℕ) → RepresentAccesses accesses.now name s.access s.counts.opened
        → may_read s (abstract_reach s.access name reach.range reach.through) ≡ result }
{
    accesses.may_read(reach.range, reach.through)
}

/// Whether no live access forbids that the cells are written, and the one that they are reached through writes.
pub fn may_write(accesses: &Accesses, reach: Reach) -> bool
    requires { IsLiveIfGiven reach.through accesses.now }
    ensures { (s : State) (name : ℕ → ℕ) → RepresentAccesses accesses.now name s.access s.counts.opened
        → may_write s (abstract_reach s.access name reach.range reach.through) ≡ result }
{
    accesses.may_write(reach.range, reach.through)
}

/// Whether the cells may be used in that way.
#[tactic(auto, using(crate::proofs::Holding::same_or_other))]
pub fn may_use(accesses: &Accesses, way: Way, reach: Reach) -> bool
    requires { IsLiveIfGiven reach.through accesses.now }
    ensures { (s : State) (name : ℕ → ℕ) → RepresentAccesses accesses.now name s.access s.counts.opened
        → may_use s way (abstract_reach s.access name reach.range reach.through) ≡ result }
{
    match way {
        Way::Read => may_read(accesses, reach),
        Way::Write => may_write(accesses, reach),
    }
}

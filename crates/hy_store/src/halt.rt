// Why no further instruction follows.
ghost use Rattle.std.specs.Prelude.{◌≡◌};
ghost use Rattle.hy_base.specs.declared.run.RunCause.TheVariants.{NoMemory};
ghost use Rattle.hy_store.specs.declared.halt.Halt.TheVariants.{Stuck, Cut};

use hy_base::{End, NoMemory, RunCause};
use hy_object::Kind;

/// Why no further instruction follows.
#[derive(Clone, Copy, Debug, PartialEq, Eq)]
pub enum Halt {
    Ended(End),
    Stuck(Kind),
    Cut(RunCause),
}

impl From<Kind> for Halt {
    ghost from_gives = { λ why halt. halt ≡ Stuck why };

    fn from(why: Kind) -> Self {
        Halt::Stuck(why)
    }
}

impl From<NoMemory> for Halt {
    ghost from_gives = { λ _ halt. halt ≡ Cut NoMemory };

    fn from(_: NoMemory) -> Self {
        Halt::Cut(RunCause::NoMemory)
    }
}

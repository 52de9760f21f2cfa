// Why a part is not read.
ghost use Rattle.std.specs.Prelude.{◌≡◌};
ghost use Rattle.hy_phrases.specs.declared.stop.Stop.TheVariants.{NoMemory};

use std::alloc::{AllocError, AllocFailed};

/// Why a part is not read. A place among the tokens is given by the number of tokens that are left there.
#[derive(Clone, Copy, Debug, PartialEq, Eq)]
pub enum Stop {
    NoMemory,
    /// The first of the tokens that are left cannot stand there, or none is left and one is wanted.
    Unexpected(usize),
    /// The first of the tokens that are left begins a level too many.
    TooDeep(usize),
}

impl From<AllocError> for Stop {
    ghost from_gives = { λ _ stop. stop ≡ NoMemory };

    fn from(_: AllocError) -> Self {
        Stop::NoMemory
    }
}

impl<T: Drop> From<AllocFailed<T>> for Stop {
    ghost from_gives = { λ _ stop. stop ≡ NoMemory };

    fn from(_: AllocFailed<T>) -> Self {
        Stop::NoMemory
    }
}

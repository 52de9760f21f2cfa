// Input and output as a program sees them: a count of faults, and perhaps the bytes.
ghost use Rattle.std.specs.Prelude.{◌≡◌, ◌-◌, ◌^◌, ◌<◌, ℕ, List, Option};
ghost use Rattle.hy_base.specs.Outside.{faults_after, StillTells};
ghost use Rattle.hy_base.specs.Streams.{Tape, Takes, Puts};

use thiserror::Error;

/// The outside did not do what was asked.
#[derive(Clone, Copy, Debug, PartialEq, Eq, Error)]
#[error("the outside failed")]
pub struct Failed;

/// Bytes that are read one by one.
pub trait Source {
    /// How many calls have failed.
    ghost faults: { Self → ℕ };

    /// The bytes left and the bytes taken, where the source tells them.
    ghost tells: { Self → Option Tape };

    /// Takes the next byte; `None` where none is left.
    fn next(&mut self) -> Result<Option<u8>, Failed>
        requires { faults self.old < 2 ^ 64 - 1 }
        ensures faults { faults self.new ≡ faults_after (faults self.old) result }
        ensures bytes { StillTells (tells self.old) (tells self.new) (Takes result) };
}

/// Where bytes are written.
pub trait Sink {
    /// How many calls have failed.
    ghost faults: { Self → ℕ };

    /// The bytes written, where the sink tells them.
    ghost tells: { Self → Option (List ℕ) };

    /// Writes a piece whole, or fails after a part of its front.
    fn put(&mut self, piece: &[u8]) -> Result<(), Failed>
        requires { faults self.old < 2 ^ 64 - 1 }
        ensures faults { faults self.new ≡ faults_after (faults self.old) result }
        ensures bytes { StillTells (tells self.old) (tells self.new) (Puts piece.now result) };
}

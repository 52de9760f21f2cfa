use crate::Span;
use thiserror::Error;

/// What stops a run that computes what it must not. `docs/MEANING.md` says where each comes.
#[derive(Clone, Copy, Debug, PartialEq, Eq)]
pub enum TrapKind {
    Overflow,
    Divide,
    Index,
    Empty,
    Input,
    Precondition,
}

/// How a run ends.
#[derive(Clone, Copy, Debug, PartialEq, Eq)]
pub enum End {
    /// `main` has returned.
    Done,
    /// A trap, with the source that it stands at.
    Trap(TrapKind, Span),
    /// A turn was wanted and none was left.
    Spent,
    /// A byte was wanted after an input that is only a beginning. This is an end of the definitions: no call gives it.
    Asks,
}

/// What a run has counted: turns taken, blocks of memory taken and freed, places opened and closed.
#[derive(Clone, Copy, Debug, PartialEq, Eq)]
pub struct Counts {
    pub turns: u64,
    pub blocks: u64,
    pub freed: u64,
    pub opened: u64,
    pub closed: u64,
}

/// The counts of a run in which nothing has happened.
pub const NO_COUNTS: Counts = Counts {
    turns: 0,
    blocks: 0,
    freed: 0,
    opened: 0,
    closed: 0,
};

/// A run that came to its end.
#[derive(Clone, Copy, Debug, PartialEq, Eq)]
pub struct Ending {
    pub end: End,
    pub counts: Counts,
}

/// What cut a run off.
#[derive(Clone, Copy, Debug, PartialEq, Eq)]
pub enum RunCause {
    /// The input failed.
    Input,
    /// The output failed.
    Output,
    NoMemory,
}

/// A run that was cut off, with what it had counted until then.
#[derive(Clone, Copy, Debug, PartialEq, Eq, Error)]
#[error("the run was cut off")]
pub struct RunFault {
    pub cause: RunCause,
    pub counts: Counts,
}

use crate::instr::Instr;
use hy_base::Span;
use sqlite_items::Items;
use thiserror::Error;

/// A compiled program. Its first function is `main`.
#[derive(Debug, Drop)]
pub struct Object {
    /// The places of the source at which instructions trap.
    pub spans: Items<Span>,
    pub funs: Items<Fun>,
}

/// A function, with the sizes of its frame. `docs/OBJECT.md` has the rules that they keep.
#[derive(Debug, Drop)]
pub struct Fun {
    /// How many accesses it is lent, in its first slots.
    pub accesses: u32,
    /// How many words it is given, in the first words of its frame.
    pub owned: u32,
    /// How many words its result has.
    pub result: u32,
    /// How many words its frame has.
    pub words: u32,
    /// How many slots for accesses it has.
    pub slots: u32,
    pub code: Items<Instr>,
}

/// Why bytes give no object.
#[derive(Clone, Copy, Debug, PartialEq, Eq, Error)]
#[error("no object")]
pub enum ObjectFault {
    /// They are no object's. The place, in bytes from the start, is that of the first header field or instruction up to
    /// and with which they begin no object; `docs/OBJECT.md` says more.
    Bad(u64),
    NoMemory,
}

/// What each object's bytes start with: `HYLO`, and then the version.
pub const MAGIC: [u8; 4] = [72, 89, 76, 79];

pub const VERSION: [u8; 1] = [1];

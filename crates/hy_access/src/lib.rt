//! The live accesses of a machine, and whether memory may be read or written beside them. `docs/MEMORY.md` says what
//! they are for.
#![tactic(auto)]

mod access;
mod accesses;
mod slots;
mod walk;

pub use access::{AccId, Range, Way};
pub use accesses::Accesses;

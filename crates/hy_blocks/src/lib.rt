//! Blocks of words in raw memory. `docs/MEMORY.md` says how they are kept.
#![tactic(auto)]

mod memory;
mod raw;
mod region;
mod table;
#[cfg(test)]
mod tests;

pub use region::Region;

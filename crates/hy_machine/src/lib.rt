//! The machine that runs objects of the instructions that are built. `docs/MACHINE.md` says what a run is.
#![tactic(auto)]

mod frame;
mod machine;

pub use frame::Halt;
pub use machine::{Machine, run};

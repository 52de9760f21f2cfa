//! The checked machine: it runs objects of which nothing is known but that they are in the grammar, and tests everything
//! before it does it. `docs/MACHINE.md` has the machine.
#![tactic(auto)]

mod calls;
mod closing;
mod machine;
mod outside;
mod runs;
mod stored;
mod subscripts;

pub use calls::Start;
pub use machine::{Machine, Waiting};
pub use runs::{CheckedEnding, exec};

//! Laws of lowered code (`docs/LOWERING.md`): each is the contract of a function that does nothing.
#![tactic(auto)]

mod laws;

pub use laws::{lengths_are_right, word_runs_agree, word_steps_follow};

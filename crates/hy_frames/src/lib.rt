//! The live activations of a machine, in order of start. `docs/MEMORY.md` says what they are for.
#![tactic(auto)]

mod acts;
mod id;
mod slots;

pub use acts::Acts;
pub use id::{ActId, Standing};

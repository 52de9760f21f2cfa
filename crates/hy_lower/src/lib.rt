//! From checked cores to objects. `docs/LOWERING.md` has the segment of code of each form of statement.
#![tactic(auto)]

mod arrays;
mod body;
mod gather;
mod homes;
mod laws;
mod lengths;
mod needs;
mod numbers;
mod objects;
mod places;
mod segments;
mod statements;

pub use body::{Home, Line};
pub use laws::examples;
pub use objects::lower;

//! All passes up to the tree, one after the other: a source is accepted, or refused with the first rule that it breaks.
//! `docs/REFUSALS.md` has the rules.
#![tactic(auto)]

mod declaration;
mod expression;
mod forms;
mod fronted;
mod laws;
mod least;
mod statement;
mod written;

pub use forms::printed;
pub use fronted::{LONGEST, front, one_tree};
pub use laws::{lexed_names_are_names, rows};

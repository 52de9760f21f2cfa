//! From the tokens of a source to its tree. `docs/GRAMMAR.md` has the grammar.
#![tactic(auto)]

mod bodies;
mod callables;
mod declaration_nodes;
mod declarations;
mod generics;
mod heading;
mod members;
mod parameters;
mod parser;

pub use parser::parse;

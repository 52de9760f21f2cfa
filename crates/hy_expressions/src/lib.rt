//! Reads expressions. `docs/GRAMMAR.md` has the grammar.
#![tactic(auto)]

mod expressions;

pub use expressions::read_expression;

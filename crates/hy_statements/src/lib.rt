//! Reads statements and blocks. `docs/GRAMMAR.md` has the grammar.
#![tactic(auto)]

mod blocks;
mod plain_statements;
mod statement_nodes;
mod statement_words;

pub use blocks::read_block;

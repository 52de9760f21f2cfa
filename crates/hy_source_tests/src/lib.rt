//! Tests of the layers that read a source, of what no command shows: tokens, trees, and tables. They stand above those crates, so
//! that each of them is proved once. What a command shows is tested by rows on the built program (`tests/`).
#![tactic(auto)]

#[cfg(test)]
mod front;
#[cfg(test)]
mod lexer;
#[cfg(test)]
mod parser_declarations;
#[cfg(test)]
mod parser_statements;
#[cfg(test)]
mod rows;
#[cfg(test)]
mod scope;
#[cfg(test)]
mod tree;
#[cfg(test)]
mod types;

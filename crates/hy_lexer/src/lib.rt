//! From the bytes of a source to its tokens. `docs/LANGUAGE.md` has the rules.
#![tactic(auto)]

mod character;
mod comment;
mod laws;
mod lexer;
mod marks;
mod number;
mod run;
mod scan;
mod token;
mod words;

pub use laws::{gaps_are_spaces_and_comments, one_list_of_tokens, one_split, spans_are_apart};
pub use lexer::lex;
pub use token::{Token, TokenKind};

//! The words of the command line. `README.md` has the commands.
#![tactic(auto)]

mod words;

pub use words::{Command, MOST_TURNS, Options, TURNS, Usage, read_words};

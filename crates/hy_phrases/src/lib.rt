//! What reads types, and what every reader stands on: the tokens that are left, marks, operators, why a part is not read, and the
//! nodes of expressions. `docs/GRAMMAR.md` has the grammar.
#![tactic(auto)]

pub mod expr_nodes;
mod mark;
mod operators;
mod stop;
mod stream;
mod tiers;
mod type_nodes;
mod types;

pub use mark::{Mark, is};
pub use operators::{Infix, Level, infix_of, prefix_of};
pub use stop::Stop;
pub use stream::{Tokens, copy_text};
pub use tiers::{OpenChain, Tiers};
pub use types::read_type;

//! The top call: from the words of a command to a status, over objects of the outside. `docs/ARCHITECTURE.md` says what stands
//! where.
#![tactic(auto)]

mod execute;
mod lower;
mod message;
mod reply;
mod scope;
mod top;

pub use execute::LONGEST_OBJECT;
pub use reply::Report;
pub use scope::Scope;
pub use top::hyloc;

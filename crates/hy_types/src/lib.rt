//! The types of a program, each once and named by a number, with the words that their values take. `docs/TYPES.md` has the
//! rules.
#![tactic(auto)]

mod conditions;
mod kinds;
mod list;
mod matching;
mod replacing;
mod resolved;
mod sizes;
mod table;

pub use kinds::{Ty, TyId};
pub use list::TyList;
pub use matching::Found;
pub use resolved::Resolved;
pub use table::TyTable;

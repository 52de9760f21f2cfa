//! What each name of a source stands for, and the rules on names. `docs/NAMES.md` has them.
#![tactic(auto)]

mod around;
mod blocks;
mod callable;
mod declaration;
mod declared;
mod expression;
mod families;
mod file;
mod full_name;
mod laws;
mod named;
mod notes;
mod resolved_names;
mod statement;
mod table;
mod written;

pub use families::base_of;
pub use full_name::{called_name, declared_name};
pub use laws::{full_names_tell_apart, names_stand_at_their_nodes};
pub use resolved_names::resolve;

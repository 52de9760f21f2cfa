//! Conventions and yields: how each place is used, and where the rules C1 to C4 and Y1 to Y5 are broken. `docs/CONVENTIONS.md` has
//! the rules.
#![tactic(auto)]

mod laws;

pub use laws::yields_are_on_paths;

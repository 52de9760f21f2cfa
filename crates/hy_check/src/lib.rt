//! Types: every expression has its type, and every call its declaration. `docs/TYPING.md` has the rules.
#![tactic(auto)]

mod checker;
mod declared;
mod meet;
mod noting;
mod parts;
pub mod returns;
mod unfit;
mod value;

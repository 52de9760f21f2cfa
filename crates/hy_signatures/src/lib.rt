//! What can be called, with the types of its parameters: members, copyable types, signatures, and types for type parameters.
//! `docs/TYPING.md` has the rules.
#![tactic(auto)]

pub mod array_members;
pub mod callables;
pub mod called;
pub mod copyables;
pub mod determined;
pub mod functions;
mod laws;
pub mod lookups;
pub mod members;
pub mod named;
pub mod owners;
pub mod predeclared;
pub mod replaced;
pub mod signatures;
pub mod solutions;
pub mod source;
pub mod tables;
pub mod traits;
pub mod types;
pub mod wanted;
pub mod written;

pub use laws::same_types_are_equal;

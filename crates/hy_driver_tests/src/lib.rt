//! Tests of the top call, of what no row of `tests/` shows, and what is known of it over objects in memory. They stand above its
//! crate, so that it is proved once.
#![tactic(auto)]

pub mod calls;
pub mod source;
#[cfg(test)]
mod top;

//! Laws of the grammar and its machine: one tree, the machine is the grammar, and the first refusal. `docs/GRAMMAR.md` tells them.
#![tactic(auto)]

mod laws;

pub use laws::{
    every_state_completes, first_refusal, machine_is_grammar, one_program,
    refused_tokens_begin_no_program,
};

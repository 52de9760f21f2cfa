//! Core programs and their two meanings: one copies values in and out where a place is lent, the other lends references.
//! `docs/CORE.md` tells both in words.
#![tactic(auto)]

mod integers;
mod laws;
mod program;
mod ready;

pub use integers::{integer_examples, integers_stay_in_range};
pub use laws::{
    a_core_is_ready, copying_and_lending_agree, every_run_ends, examples, flow_examples,
    meanings_agree, one_meaning,
};
pub use program::{
    Checked, Core, CoreConvention, CoreFun, CoreOp, CoreParameter, CorePlace, CoreStep, CoreStmt,
    CoreWay,
};
pub use ready::{
    computed_flow_is_flow, flow_agrees, flow_is_calm, flow_is_dropped, ready_cores_agree,
    ready_cores_are_calm, ready_cores_drop_all, ready_states, shaped_is_never_stuck,
};

//! Objects: compiled programs, the bytes that spell them, and what their code does. `docs/OBJECT.md` has the format,
//! `docs/MACHINE.md` the machine.
#![tactic(auto)]

mod bounds;
mod form;
mod instr;
mod laws;
mod meaning;
mod number;
mod object;
mod reading;
mod stuck;
mod writing;

pub use instr::{Instr, Place, Shown, Way};
pub use laws::{decodes_again, object_or_place, one_place, one_spelling};
pub use meaning::{
    cut_runs_agree, every_run_adds_up, every_run_ends, every_step_changes, names_are_counted,
    one_run, small_objects_run, writes_beginnings,
};
pub use object::{Fun, Object, ObjectFault};
pub use reading::decode;
pub use stuck::{Kind, Pc};
pub use writing::encode;

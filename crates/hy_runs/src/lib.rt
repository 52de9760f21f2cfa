//! What both machines share: what is claimed of a run, and the lines that it prints and reads. `docs/MACHINE.md` has both.
#![tactic(auto)]

mod line;
mod printing;
mod reading;

pub use printing::put_line;
pub use reading::Lines;

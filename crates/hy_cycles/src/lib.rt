//! Nodes of graphs that lie on cycles, found in one walk along the edges. `docs/TYPING.md` says what it is for.
#![tactic(auto)]

mod walk;

pub use walk::on_cycles;

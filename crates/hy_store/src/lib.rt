//! What the machine that checks keeps: blocks, accesses, and the slots of activations; the checks on them; and what each
//! instruction does to them. `docs/MACHINE.md` has the machine.
#![tactic(auto)]

mod allocating;
mod arrays;
mod blocks;
mod cell;
mod closing;
mod elements;
mod frame;
mod halt;
mod leaving;
mod lending;
mod numbers;
mod opened;
mod passing;
mod reach;
mod starting;
mod store;
mod words;

pub use blocks::Blocks;
pub use cell::Cell;
pub use closing::opened_in;
pub use elements::Exchange;
pub use frame::{Frame, Frames, Role, Slot};
pub use halt::Halt;
pub use lending::is_empty;
pub use numbers::{Comparison, Operation, calculate, is_zero};
pub use opened::Opened;
pub use reach::{Reach, may_read, may_use, may_write};
pub use store::Store;
pub use words::trap;

//! What every crate of the compiler and its machine speaks of: positions in a text, refusals, ends of a run, and the
//! traits through which a program reaches files, input and output, with objects in memory that have them. `docs/ARCHITECTURE.md` has the map of the crates.
#![tactic(auto)]

mod buffer;
mod contents;
mod files;
mod first;
mod line_number;
mod memory;
mod numbers;
mod plain;
mod position;
mod refusal;
mod run;
mod streams;
mod text;

pub use files::{FileFault, Files};
pub use first::{BrokenRule, sooner};
pub use line_number::{number_of, trimmed};
pub use memory::{MemFiles, MemSink};
pub use numbers::{IntegerType, Num, Operation, negated_int, word_of};
pub use plain::{PlainFiles, PlainSink, PlainSource};
pub use position::Span;
pub use refusal::{Fault, NoMemory, Rule};
pub use run::{Counts, End, Ending, NO_COUNTS, RunCause, RunFault, TrapKind};
pub use streams::{Failed, Sink, Source};
pub use text::Text;

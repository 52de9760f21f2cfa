//! Tests of the outside in memory, of the words of the command line, of objects, and of the machines with their layers. They
//! stand above those crates, so that each of them is proved once.
#![tactic(auto)]

#[cfg(test)]
mod access;
#[cfg(test)]
mod base;
#[cfg(test)]
mod frames;
#[cfg(test)]
mod integers;
#[cfg(test)]
mod machine;
#[cfg(test)]
mod object;
#[cfg(test)]
mod runs;
#[cfg(test)]
mod store;
#[cfg(test)]
mod words;

//! Runs in memory: `snd_app`'s run over a shelf and sinks that tell all that they hold, as tests and
//! worked examples want it.
#![tactic(auto)]

#[cfg(test)]
mod boxes;
#[cfg(test)]
mod faults;
mod memory;
#[cfg(test)]
mod promoting;
#[cfg(test)]
mod racks;

pub use memory::{Printed, run_in_memory, words_of};

//! ADPCM frames written on a disk from front to back, in whole blocks. No memory is taken.
#![tactic(auto)]

mod block;
pub mod laws;
mod writer;

pub use writer::{BlockWriter, are_blocks};

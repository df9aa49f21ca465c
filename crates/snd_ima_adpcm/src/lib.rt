//! IMA ADPCM in WAVE files. Beside it stands what other ADPCM codecs are made of: numbers of 16 bits, two codes a byte, and the
//! step of one code.
#![tactic(auto)]

mod ima;
mod ima_writer;
mod laws;
pub mod number;
pub mod step;

pub use ima::ImaBlock;
pub use ima_writer::ImaWriter;
pub use laws::{ima_blocks_are_bytes, ima_calls_give_blocks};

/// A block whose head no sample can be read from.
#[derive(Debug, Clone, Copy, PartialEq, Eq)]
pub struct BadBlock;

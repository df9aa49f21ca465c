//! Microsoft ADPCM in WAVE files.
#![tactic(auto)]

mod laws;
mod microsoft;
mod microsoft_four;
mod microsoft_four_writer;
mod microsoft_state;
mod microsoft_writer;

pub use laws::{ms_blocks_are_bytes, ms_calls_give_blocks};
pub use microsoft::MsBlock;
pub use microsoft_writer::MsWriter;

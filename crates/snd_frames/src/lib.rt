//! Frames read from a disk and written to it by the layout of its file: samples at places, blocks of ADPCM from
//! front to back, fields brought up, and the bodies of further chunks. No call here keeps anything.
#![tactic(auto)]

mod bodies;
mod codec;
mod coding;
mod encoding;
mod frames;
mod given;
mod growth;
mod putting;
mod reads;
mod updates;
mod wanted;
mod writes;

pub use bodies::{piece_at, piece_to_give, read_front};
pub use codec::is_adpcm;
pub use encoding::{end_of_encode, give_writer, seal_writer};
pub use frames::{align_of, channels_of, check_any, frames_ahead, keeps_rules, read_any, read_raw};
pub use given::Given;
pub use growth::{end_of_write, has_whole_field};
pub use putting::put_ruled;
pub use updates::{cut_off, write_over};
pub use wanted::place_named;
pub use writes::BLOCK_BYTES;

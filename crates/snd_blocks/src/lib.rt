//! The frames of ADPCM files, which are read from a disk some blocks at a time. No memory is taken.
#![tactic(auto)]

mod block;
mod buffer;
mod cache;
mod check;
mod error;
mod fetch;
mod four;
pub mod laws;
mod read;

pub use buffer::BlockCache;
pub use check::check_blocks;
pub use error::BlockError;
pub use four::is_fourfold;
pub use read::{read_cached, read_frames};

//! One open sound file as whoever reads and writes it sees it: the editing state, the steps that calls take from one
//! to the next, and the laws of them, on lists of bytes and frames. What an open file answers, and the modes in
//! which it is open. Nothing here names a handle or a disk.
#![tactic(auto)]

mod blocks;
mod error;
pub mod laws;
mod mode;
mod tag_error;
mod wanted;

pub use blocks::{ima_codec, ms_codec};
pub use error::{
    AutoError, DiskFault, GetError, PieceReadError, ReadError, SeekError, ShrinkError, UpdateError,
    WriteError,
};
pub use mode::{CanMake, CanRead, CanSeal, CanShrink, CanWrite, Encode, Mode, Read, Update, Write};
pub use tag_error::TagError;
pub use wanted::{Wanted, may_be_piece};

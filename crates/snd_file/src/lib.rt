//! One open sound file: a handle that holds a disk, in the mode in which it was opened. While it lives
//! nothing else reaches the disk, and it is closed to give the disk back.
#![tactic(auto)]

mod beginning;
mod cutting;
mod encoding;
mod file;
mod handle;
mod meta;
mod pieces;
mod promoting;
mod reserving;
mod writing;

pub use beginning::at_first_frame;
pub use handle::File;
pub use snd_edits::{
    AutoError, CanMake, CanRead, CanSeal, CanShrink, CanWrite, DiskFault, Encode, GetError, Mode,
    PieceReadError, Read, ReadError, SeekError, ShrinkError, Update, UpdateError, Write,
    WriteError, ima_codec, may_be_piece, ms_codec,
};
pub use snd_reservations::{PromoteError, ReserveError};

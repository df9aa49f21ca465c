//! The handle of one open file, in whichever mode.

use snd_disk::Disk;
use snd_edits::{Encode, Read, Update, Write};
use snd_file::File;

/// An open file, by its mode.
pub enum Handle<'d, D: Disk> {
    /// Opened to be read.
    R(File<'d, D, Read>),
    /// Made, to be written.
    W(File<'d, D, Write>),
    /// Made, to be written by blocks of ADPCM.
    B(File<'d, D, Encode>),
    /// Opened to be read and updated in place.
    U(File<'d, D, Update>),
}

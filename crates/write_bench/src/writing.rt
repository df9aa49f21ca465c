//! The call by which frames are written in each mode.

ghost use Rattle.std.specs.Prelude.{◌≡◌};
ghost use Rattle.snd_file.specs.Handle.{disk_of, loan_of};

use snd_disk::Disk;
use snd_edits::{Encode, Mode, Update, Write};
use snd_file::File;

/// A mode in which frames are written.
pub trait Writing: Mode {
    /// Writes frames: a number for each channel in turn.
    fn put<D: Disk>(file: &mut File<'_, D, Self>, from: &[i32]) -> Option<()>
        ensures loan { loan_of file.new ≡ loan_of file.old }
        ensures name { (D.state (disk_of file.new)).name ≡ (D.state (disk_of file.old)).name };

    /// How many frames the file has once it is closed.
    fn frames<D: Disk>(file: &File<'_, D, Self>) -> u64;
}

impl Writing for Write {
    fn put<D: Disk>(file: &mut File<'_, D, Write>, from: &[i32]) -> Option<()> {
        file.write_frames(from).ok()
    }

    fn frames<D: Disk>(file: &File<'_, D, Write>) -> u64 {
        file.frames()
    }
}

impl Writing for Update {
    fn put<D: Disk>(file: &mut File<'_, D, Update>, from: &[i32]) -> Option<()> {
        file.write_frames(from).ok()
    }

    fn frames<D: Disk>(file: &File<'_, D, Update>) -> u64 {
        file.frames()
    }
}

impl Writing for Encode {
    fn put<D: Disk>(file: &mut File<'_, D, Encode>, from: &[i32]) -> Option<()> {
        file.encode_frames(from).ok()
    }

    fn frames<D: Disk>(file: &File<'_, D, Encode>) -> u64 {
        file.frames_given()
    }
}

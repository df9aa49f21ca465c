//! The commands of a script.

use crate::tables::CodecWord;
use arrayvec::ArrayVec;
use snd_fields::Id4;
use snd_layout::Kind;
use snd_meta::{BextKey, InfoKey};
use snd_taps::TapKind;

/// The most numbers that a line of `write` can hold.
pub const MOST_SAMPLES: usize = 2048;

/// The most places that a line of `set cue` may hold.
pub const MOST_CUES: usize = 100;

/// One line of a script, in few bytes. Names, texts and hex digits are slices of the line, and the numbers of
/// `write` and `set cue` stand in the `NumberRoom` into which they were read.
#[derive(Clone, Copy, Debug, PartialEq, Eq)]
pub enum Command<'a> {
    /// `open r NAME`
    OpenRead {
        /// The file's name.
        name: &'a [u8],
    },
    /// `open u NAME`
    OpenUpdate {
        /// The file's name.
        name: &'a [u8],
    },
    /// `create KIND CODEC CHANNELS RATE NAME`
    Create {
        /// The kind of the file.
        kind: Kind,
        /// Its codec.
        codec: CodecWord,
        /// How many channels it is to have, at most 2^63 - 1.
        channels: u64,
        /// How many frames a second, at most 2^63 - 1.
        rate: u64,
        /// The file's name.
        name: &'a [u8],
    },
    /// `info`
    Info,
    /// `close`
    Close,
    /// `seek r N`: the frame to read next, at most 2^63 - 1.
    SeekRead(u64),
    /// `seek w N`: the frame to write next.
    SeekWrite(u64),
    /// `seek rw N`: both.
    SeekBoth(u64),
    /// `read N`: how many frames, at most 1024.
    Read(u64),
    /// `write S S ..`: one sample or more.
    Write(&'a ArrayVec<i32, MOST_SAMPLES>),
    /// `truncate N`: how many frames are to stay.
    Truncate(u64),
    /// `trim`
    Trim,
    /// `update`
    Update,
    /// `auto on`, `auto off`
    Auto(bool),
    /// `reserve`
    Reserve,
    /// `promote`
    Promote,
    /// `set chunk ID HEX`
    SetChunk {
        /// The chunk's identifier.
        id: Id4,
        /// Its bytes, two digits each; `-` stands for no digit.
        hex: &'a [u8],
    },
    /// `set string KEY TEXT`
    SetString {
        /// Which text of the INFO list.
        key: InfoKey,
        /// One byte or more, none of them 0.
        text: &'a [u8],
    },
    /// `set bext KEY TEXT`
    SetBext {
        /// Which field of the broadcast extension.
        key: BextKey,
        /// One byte or more, none of them 0; for the time reference decimal digits.
        text: &'a [u8],
    },
    /// `set cue N N ..`: 1 to 100 places.
    SetCue(&'a ArrayVec<u32, MOST_CUES>),
    /// `get chunk ID`
    GetChunk(Id4),
    /// `get chunks`
    GetChunks,
    /// `get strings`
    GetStrings,
    /// `get bext`
    GetBext,
    /// `get cues`
    GetCues,
    /// `tap T`
    Tap(TapKind),
    /// `untap T`
    Untap(TapKind),
}

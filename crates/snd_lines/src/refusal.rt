//! Refusals, by their numbers and names: one table for scripts and tools.

ghost use Rattle.std.specs.Prelude.{◌≡◌};
ghost use Rattle.snd_lines.specs.Refusals.{refusal_name, refusal_number};

use snd_layout::OpenRefusal;

/// Why a line of a script, or a file that a tool is given, is refused.
#[derive(Clone, Copy, Debug, PartialEq, Eq)]
pub enum Refusal {
    /// A file is not opened.
    Open(OpenRefusal),
    /// A file of ADPCM blocks is not updated in place.
    AdpcmUpdate,
    /// A file that does not say its length is not updated in place.
    UnknownLength,
    /// The numbers are not whole frames.
    PartFrame,
    /// A number is not in the range of the codec.
    SampleRange,
    /// A place lies behind the last frame.
    SeekRange,
    /// The file goes on behind its sound, which then can change its length no more.
    TrailingData,
    /// The head has no room for so many frames.
    ContainerFull,
    /// The field that decides the count lies in two sectors.
    Straddle,
    /// Frames were written already.
    FramesWritten,
    /// The identifier is one that the container uses itself, or that has a command of its own.
    ReservedChunk,
    /// Files of the kind have no further chunks, or none of these.
    NoChunks,
    /// The body of a chunk has more than 65536 bytes.
    ChunkTooLarge,
    /// Updates are automatic.
    AutoOn,
    /// Frames of ADPCM are written from front to back: their place is not sought.
    AdpcmSeek,
    /// There is no such chunk.
    NoSuchChunk,
    /// A block of ADPCM that holds a wanted frame has a bad head.
    BadBlock,
    /// The line has the form of no command.
    BadCommand,
    /// The line has more than 4096 bytes.
    LineTooLong,
    /// No file is open.
    NotOpen,
    /// A file is open already.
    AlreadyOpen,
    /// The file was opened in a mode that lacks the command.
    WrongMode,
    /// No tap of the kind waits, or none is on.
    NoSuchTap,
    /// A tap of the kind is on already.
    TapOn,
    /// Two names are equal.
    SameName,
    /// The channels or the rate of a file are not those of the first.
    MixedParams,
    /// A file has more than one channel.
    NotMono,
    /// The name ends in no suffix of a kind.
    UnknownSuffix,
    /// There is no file of this name.
    MissingFile,
    /// The head keeps no place free for 64-bit sizes, or can keep none.
    NoRoom,
    /// The INFO list does not read.
    BadInfo,
    /// The cue points do not read.
    BadCue,
    /// The broadcast extension does not read.
    BadBext,
    /// The text exceeds its field.
    TextTooLong,
    /// The file stays open, and is updated automatically, to the end of the script.
    Pinned,
    /// A rack has more stages of a kind than were handed in.
    NoSuchStage,
    /// A map names a channel that does not reach it.
    BadPlace,
    /// There are other than one output for each channel.
    WrongCount,
}

impl Refusal {
    /// The number that is printed.
    pub fn number(&self) -> u8
        ensures { result ≡ refusal_number self.now }
    {
        match self {
            Refusal::Open(refusal) => refusal.number(),
            Refusal::AdpcmUpdate => 20,
            Refusal::UnknownLength => 21,
            Refusal::PartFrame => 22,
            Refusal::SampleRange => 23,
            Refusal::SeekRange => 24,
            Refusal::TrailingData => 25,
            Refusal::ContainerFull => 26,
            Refusal::Straddle => 27,
            Refusal::FramesWritten => 28,
            Refusal::ReservedChunk => 29,
            Refusal::NoChunks => 30,
            Refusal::ChunkTooLarge => 31,
            Refusal::AutoOn => 32,
            Refusal::AdpcmSeek => 33,
            Refusal::NoSuchChunk => 34,
            Refusal::BadBlock => 35,
            Refusal::BadCommand => 40,
            Refusal::LineTooLong => 41,
            Refusal::NotOpen => 42,
            Refusal::AlreadyOpen => 43,
            Refusal::WrongMode => 44,
            Refusal::NoSuchTap => 45,
            Refusal::TapOn => 46,
            Refusal::SameName => 50,
            Refusal::MixedParams => 51,
            Refusal::NotMono => 52,
            Refusal::UnknownSuffix => 54,
            Refusal::MissingFile => 56,
            Refusal::NoRoom => 60,
            Refusal::BadInfo => 61,
            Refusal::BadCue => 62,
            Refusal::BadBext => 63,
            Refusal::TextTooLong => 64,
            Refusal::Pinned => 65,
            Refusal::NoSuchStage => 66,
            Refusal::BadPlace => 67,
            Refusal::WrongCount => 68,
        }
    }

    /// The word that is printed, as `SeekRange`.
    pub fn name(&self) -> &'static str
        ensures { result.now ≡ refusal_name self.now }
    {
        match self {
            Refusal::Open(refusal) => refusal.name(),
            Refusal::AdpcmUpdate => "AdpcmUpdate",
            Refusal::UnknownLength => "UnknownLength",
            Refusal::PartFrame => "PartFrame",
            Refusal::SampleRange => "SampleRange",
            Refusal::SeekRange => "SeekRange",
            Refusal::TrailingData => "TrailingData",
            Refusal::ContainerFull => "ContainerFull",
            Refusal::Straddle => "Straddle",
            Refusal::FramesWritten => "FramesWritten",
            Refusal::ReservedChunk => "ReservedChunk",
            Refusal::NoChunks => "NoChunks",
            Refusal::ChunkTooLarge => "ChunkTooLarge",
            Refusal::AutoOn => "AutoOn",
            Refusal::AdpcmSeek => "AdpcmSeek",
            Refusal::NoSuchChunk => "NoSuchChunk",
            Refusal::BadBlock => "BadBlock",
            Refusal::BadCommand => "BadCommand",
            Refusal::LineTooLong => "LineTooLong",
            Refusal::NotOpen => "NotOpen",
            Refusal::AlreadyOpen => "AlreadyOpen",
            Refusal::WrongMode => "WrongMode",
            Refusal::NoSuchTap => "NoSuchTap",
            Refusal::TapOn => "TapOn",
            Refusal::SameName => "SameName",
            Refusal::MixedParams => "MixedParams",
            Refusal::NotMono => "NotMono",
            Refusal::UnknownSuffix => "UnknownSuffix",
            Refusal::MissingFile => "MissingFile",
            Refusal::NoRoom => "NoRoom",
            Refusal::BadInfo => "BadInfo",
            Refusal::BadCue => "BadCue",
            Refusal::BadBext => "BadBext",
            Refusal::TextTooLong => "TextTooLong",
            Refusal::Pinned => "Pinned",
            Refusal::NoSuchStage => "NoSuchStage",
            Refusal::BadPlace => "BadPlace",
            Refusal::WrongCount => "WrongCount",
        }
    }
}

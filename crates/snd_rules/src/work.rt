//! What is done for a command.

ghost use Rattle.std.specs.Prelude.{◌≡◌};
ghost use Rattle.snd_command.specs.Said.{Said, said_of};
ghost use Rattle.snd_rules.specs.Rules.{codec_of};
ghost use Rattle.snd_rules.specs.Work.{SetsFor, WorksFor, WritesFor};

use arrayvec::ArrayVec;
use snd_command::{CodecWord, Command, MOST_CUES, MOST_SAMPLES};
use snd_edits::{ima_codec, ms_codec};
use snd_fields::Id4;
use snd_layout::{Codec, Kind};
use snd_meta::{BextKey, InfoKey};
use snd_taps::TapKind;

/// What is set in a file that is made.
#[derive(Clone, Copy, Debug, PartialEq, Eq)]
pub enum Setting<'a> {
    /// A further chunk, with its body in hexadecimal digits.
    Chunk(Id4, &'a [u8]),
    /// A text of the INFO list.
    Text(InfoKey, &'a [u8]),
    /// A field of the broadcast extension.
    Field(BextKey, &'a [u8]),
    /// The cue points, a frame each.
    Points(&'a ArrayVec<u32, MOST_CUES>),
    /// A chunk that is reserved for 64-bit sizes.
    Reservation,
}

/// What is asked of the chunks of a file.
#[derive(Clone, Copy, Debug, PartialEq, Eq)]
pub enum Asking {
    /// The body of the first chunk with an identifier.
    Chunk(Id4),
    /// Which chunks there are.
    Chunks,
    /// The texts of the INFO list.
    Texts,
    /// The broadcast extension.
    Broadcast,
    /// The cue points.
    Points,
}

/// What is done for a command.
#[derive(Clone, Copy, Debug, PartialEq, Eq)]
pub enum Work<'a> {
    /// The file of this name is opened to be read.
    Open(&'a [u8]),
    /// It is opened to be updated.
    Update(&'a [u8]),
    /// It is made, of a kind and a codec, with so many channels and frames a second.
    Make(Kind, Codec, u64, u64, &'a [u8]),
    /// The open file is closed.
    Close,
    /// The file's line is put.
    Tell,
    /// A frame becomes the one to read next.
    SeekRead(u64),
    /// A frame becomes the one to write next.
    SeekWrite(u64),
    /// Both, as far as the mode has them.
    SeekBoth(u64),
    /// So many frames are read.
    Read(u64),
    /// The frames of these numbers are written.
    Write(&'a [i32]),
    /// The file is cut to so many frames.
    Truncate(u64),
    /// All behind the data is cut off.
    Trim,
    /// The head is brought up to the frames.
    BringUp,
    /// Each write does that from now on, or none.
    Auto(bool),
    /// A WAVE file is turned into RF64 in place.
    Promote,
    /// Something is set in the head.
    Set(Setting<'a>),
    /// What chunks say is put.
    Ask(Asking),
    /// The first tap of a kind that waits begins.
    Tap(TapKind),
    /// The one of a kind that is on reports, and is dropped.
    Untap(TapKind),
}

// The codec that a word names, in a file that is made with so many channels and frames a second.
fn codec_of(word: CodecWord, channels: u64, rate: u64) -> Codec
    ensures { result ≡ codec_of word channels rate }
{
    match word {
        CodecWord::U8 => Codec::U8,
        CodecWord::S8 => Codec::S8,
        CodecWord::S16(order) => Codec::S16(order),
        CodecWord::S24(order) => Codec::S24(order),
        CodecWord::S32(order) => Codec::S32(order),
        CodecWord::MuLaw => Codec::MuLaw,
        CodecWord::ALaw => Codec::ALaw,
        CodecWord::Ima => ima_codec(channels, rate),
        CodecWord::Ms => ms_codec(channels, rate),
    }
}

// What is done to make a file.
fn make_of(kind: Kind, word: CodecWord, channels: u64, rate: u64, name: &[u8]) -> Work<'_>
    ensures { WorksFor (Said.create kind word channels rate name.now) result }
{
    Work::Make(kind, codec_of(word, channels, rate), channels, rate, name)
}

// What is done to write the frames of these numbers.
fn write_of(samples: &ArrayVec<i32, MOST_SAMPLES>) -> Work<'_>
    ensures { WritesFor result samples.now.items }
{
    Work::Write(samples)
}

// What is done to set these cue points.
fn points_of(places: &ArrayVec<u32, MOST_CUES>) -> Work<'_>
    ensures { SetsFor result places.now.items }
{
    Work::Set(Setting::Points(places))
}

/// What is done for a command, with a file open or with none.
pub fn work_of<'a>(said: Command<'a>) -> Work<'a>
    ensures { WorksFor (said_of said.entry) result }
{
    if let Command::Write(samples) = said {
        return write_of(samples);
    }
    if let Command::SetCue(places) = said {
        return points_of(places);
    }
    match said {
        Command::OpenRead { name } => Work::Open(name),
        Command::OpenUpdate { name } => Work::Update(name),
        Command::Create {
            kind,
            codec,
            channels,
            rate,
            name,
        } => make_of(kind, codec, channels, rate, name),
        Command::Close => Work::Close,
        Command::Info => Work::Tell,
        Command::SeekRead(to) => Work::SeekRead(to),
        Command::SeekWrite(to) => Work::SeekWrite(to),
        Command::SeekBoth(to) => Work::SeekBoth(to),
        Command::Read(count) => Work::Read(count),
        Command::Write(_) => unreachable!(),
        Command::Truncate(to) => Work::Truncate(to),
        Command::Trim => Work::Trim,
        Command::Update => Work::BringUp,
        Command::Auto(on) => Work::Auto(on),
        Command::Promote => Work::Promote,
        Command::Reserve => Work::Set(Setting::Reservation),
        Command::SetChunk { id, hex } => Work::Set(Setting::Chunk(id, hex)),
        Command::SetString { key, text } => Work::Set(Setting::Text(key, text)),
        Command::SetBext { key, text } => Work::Set(Setting::Field(key, text)),
        Command::SetCue(_) => unreachable!(),
        Command::GetChunk(id) => Work::Ask(Asking::Chunk(id)),
        Command::GetChunks => Work::Ask(Asking::Chunks),
        Command::GetStrings => Work::Ask(Asking::Texts),
        Command::GetBext => Work::Ask(Asking::Broadcast),
        Command::GetCues => Work::Ask(Asking::Points),
        Command::Tap(kind) => Work::Tap(kind),
        Command::Untap(kind) => Work::Untap(kind),
    }
}

use snd_edits::{ima_codec, ms_codec};
use snd_fields::Order;
use snd_layout::{Codec, Params};
use std::env;

const RATE: u64 = 44100;

/// A file that is made, with so many frames.
#[derive(Clone, Copy)]
pub struct Creation {
    pub params: Params,
    pub frames: u64,
}

/// Frames that are written, from one on, with automatic updates or without.
#[derive(Clone, Copy)]
pub struct Change {
    pub automatic: bool,
    pub from: u64,
    pub frames: u64,
}

/// What is done with a file.
#[derive(Clone, Copy)]
pub struct Job {
    pub creation: Option<Creation>,
    pub change: Option<Change>,
}

/// The codec of a word: linear samples of so many bits, one of the laws, or ADPCM in the blocks that the
/// library makes for so many channels.
fn codec_of(word: &str, channels: u64) -> Option<Codec> {
    match word {
        "8" => Some(Codec::U8),
        "16" => Some(Codec::S16(Order::Little)),
        "24" => Some(Codec::S24(Order::Little)),
        "32" => Some(Codec::S32(Order::Little)),
        "ulaw" => Some(Codec::MuLaw),
        "alaw" => Some(Codec::ALaw),
        "ima" => Some(ima_codec(channels, RATE)),
        "ms" => Some(ms_codec(channels, RATE)),
        _ => None,
    }
}

/// A file of so many frames.
fn file_of(codec: Codec, channels: u64, frames: u64) -> Option<Creation> {
    let params = Params::new(channels, RATE, codec).ok()?;
    Some(Creation { params, frames })
}

fn number_of(word: Option<String>) -> Option<u64> {
    word?.parse::<u64>().ok()
}

fn creation_of(words: &mut env::Args) -> Option<Job> {
    let word = words.next()?;
    let channels = number_of(words.next())?;
    let codec = codec_of(word.as_str(), channels)?;
    let frames = number_of(words.next())?;
    Some(Job {
        creation: Some(file_of(codec, channels, frames)?),
        change: None,
    })
}

fn change_of(words: &mut env::Args) -> Option<Job> {
    let automatic = match words.next()?.as_str() {
        "on" => true,
        "off" => false,
        _ => return None,
    };
    let from = number_of(words.next())?;
    let frames = number_of(words.next())?;
    let change = Change {
        automatic,
        from,
        frames,
    };
    Some(Job {
        creation: None,
        change: Some(change),
    })
}

/// A small file, whose last frame is written over, and that gets one more.
fn both() -> Option<Job> {
    let change = Change {
        automatic: true,
        from: 4999,
        frames: 2,
    };
    Some(Job {
        creation: Some(file_of(Codec::S16(Order::Little), 2, 5000)?),
        change: Some(change),
    })
}

/// The file's name and the job that the words ask for.
pub fn job_of(rt: &HostRuntime) -> Option<(String, Job)> {
    let mut words = env::args(rt).ok()?;
    let _ = words.next();
    let verb = words.next()?;
    let name = words.next()?;
    let job = match verb.as_str() {
        "create" => creation_of(&mut words)?,
        "update" => change_of(&mut words)?,
        "both" => both()?,
        _ => return None,
    };
    Some((name, job))
}

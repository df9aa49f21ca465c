//! The program: `snd_app`'s run over the current folder, standard input, output and error.
#![tactic(auto)]

ghost use Rattle.snd_tools.specs.Shelves.{IsAllIn};

use snd_app::run;
use snd_disk::Shelf;
use snd_fields::Words;
use snd_files::{FolderShelf, ReaderSource, WriterSink};
use snd_rack::{Fade, Gain, Invert, Pick, Stage};
use snd_taps::{Clips, Energy, Peak, Tap};
use std::alloc::AllocError;
use std::process::ExitCode;
use std::{env, io};

const NO_MEMORY: u8 = 4;

/// How many items of one kind a rack may have.
const STAGES: u32 = 4;

/// The words that the program was called with, or none of them where one is no text.
fn words_of(rt: &HostRuntime) -> io::Result<Words> {
    let mut list = Vec::new(rt.alloc());
    let mut args = env::args(rt)?;
    let _ = args.next();
    for word in args {
        list.push(word)?;
    }
    Ok(Words::new(list))
}

/// Runs over the standard streams, with a tap of each kind and four stages of each, and answers the status.
fn run_words<S: Shelf>(rt: &HostRuntime, shelf: &mut S, words: &Words) -> Result<u8, AllocError>
    requires { IsAllIn (S.state shelf.old) }
{
    let alloc = rt.alloc();
    let mut taps: Vec<Box<dyn Tap>> = Vec::new(alloc);
    taps.push(Box::new(alloc, Peak::new())?)?;
    taps.push(Box::new(alloc, Clips::new())?)?;
    taps.push(Box::new(alloc, Energy::new())?)?;
    let mut stages: Vec<Box<dyn Stage>> = Vec::new(alloc);
    for _ in 0..STAGES {
        stages.push(Box::new(alloc, Gain::new())?)?;
        stages.push(Box::new(alloc, Invert::new())?)?;
        stages.push(Box::new(alloc, Pick::new())?)?;
        stages.push(Box::new(alloc, Fade::new())?)?;
    }
    let mut script = ReaderSource::new(rt.stdin());
    let mut out = WriterSink::new(rt.stdout());
    let mut err = WriterSink::new(rt.stderr());
    Ok(run(
        alloc,
        words,
        shelf,
        &mut script,
        &mut out,
        &mut err,
        taps,
        stages,
    ))
}

fn main(rt: HostRuntime) -> ExitCode {
    // first of all, since it keeps the numbers of standard streams that are closed from every file
    let mut shelf = FolderShelf::new(rt);
    let alloc = rt.alloc();
    let words = match words_of(&rt) {
        Ok(words) => words,
        Err(error) if error.kind() == io::ErrorKind::OutOfMemory => {
            return ExitCode::from(NO_MEMORY);
        }
        Err(_) => Words::new(Vec::new(alloc)),
    };
    match run_words(&rt, &mut shelf, &words) {
        Ok(status) => ExitCode::from(status),
        Err(_) => ExitCode::from(NO_MEMORY),
    }
}

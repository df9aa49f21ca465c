//! Records a tenth of a second of a square wave as `tone.wav`. docs/library.md walks through it.
#![tactic(auto)]

ghost use Rattle.std.specs.Prelude.{◌≡◌};

use snd_disk::{Disk, Shelf};
use snd_fields::Order;
use snd_files::FolderShelf;
use snd_layout::{Codec, Kind, Params};
use snd_opening::create;
use std::alloc::Global;
use std::io::Write;
use std::process::ExitCode;

/// Makes a disk a WAVE file of these samples, and answers how many frames it has.
fn record<D: Disk>(alloc: Global, disk: &mut D, samples: &[i32]) -> Option<u64>
    ensures { (D.state disk.new).name ≡ (D.state disk.old).name }
{
    let params = Params::new(1, 44100, Codec::S16(Order::Little)).ok()?;
    let (frames, back) = match create(alloc, disk, Kind::Wave, params) {
        Ok(mut file) => {
            let written = file.write_frames(samples).is_ok();
            let frames = file.frames();
            match file.close() {
                Ok(back) => (written.then_some(frames), back),
                Err((_, back)) => (None, back),
            }
        }
        Err((_, back)) => (None, back),
    };
    let _ = back;
    frames
}

fn main(rt: HostRuntime) -> ExitCode {
    let alloc = rt.alloc();
    let mut out = rt.stdout();
    let mut samples = [-8000; 4410];
    for (at, sample) in samples.iter_mut().enumerate() {
        if at % 100 < 50 {
            *sample = 8000;
        }
    }
    let mut shelf = FolderShelf::new(rt);
    let Ok(mut disk) = shelf.take("tone.wav", true) else {
        return ExitCode::from(3);
    };
    let frames = record(alloc, &mut disk, &samples);
    shelf.give("tone.wav", disk);
    match frames {
        Some(frames) if writeln!(out, "tone.wav: {frames} frames").is_ok() => ExitCode::SUCCESS,
        _ => ExitCode::FAILURE,
    }
}

//! Reads all frames of a file and folds them into a checksum, for measuring: `read_bench NAME`. It
//! prints the number of frames, and the sum of all samples in 64 bits. Where a block of ADPCM is bad it
//! prints nothing and ends with 4.
#![tactic(auto)]

ghost use Rattle.std.specs.Prelude.{◌≡◌};
ghost use Rattle.snd_file.specs.Handle.{disk_of, loan_of};

use snd_disk::{Disk, Shelf};
use snd_edits::{Read, ReadError};
use snd_file::File;
use snd_files::FolderShelf;
use snd_opening::open_read;
use std::alloc::Global;
use std::env;
use std::io::{self, Write};
use std::process::ExitCode;

/// How many samples are read at a time.
const BLOCK: usize = 8192;

/// What was folded: how many frames, and the sum of their samples.
#[derive(Clone, Copy)]
struct Folded {
    frames: u64,
    sum: i64,
}

/// Why a file is not folded.
#[derive(Clone, Copy)]
enum Stop {
    Failed,
    BadBlock,
}

/// The sum of at most 65536 samples, in lanes of 32 bits: that of what stands above the lowest 16 bits, and
/// the sum's own lowest 32 bits, which together tell it.
fn sum_of(samples: &[i32]) -> i64 {
    let mut low = 0i32;
    let mut high = 0i32;
    for x in samples {
        low = low.wrapping_add(*x);
        high = high.wrapping_add(*x >> 16);
    }
    let rest = low.wrapping_sub(high << 16).cast_unsigned();
    i64::from(high) * 65536 + i64::from(rest)
}

/// Folds all frames of an open file.
fn fold_frames<D: Disk>(file: &mut File<'_, D, Read>) -> Result<Folded, Stop>
    ensures loan { loan_of file.new ≡ loan_of file.old }
    ensures name { (D.state (disk_of file.new)).name ≡ (D.state (disk_of file.old)).name }
{
    let channels = usize::from(file.params().channels).max(1);
    let mut block = [0; BLOCK];
    let whole = BLOCK / channels * channels;
    let frames = file.frames();
    let mut left = frames;
    let mut sum = 0i64;
    while left > 0 {
        let count = match file.read_frames(&mut block[..whole]) {
            Ok(count) => count,
            Err(ReadError::BadBlock) => return Err(Stop::BadBlock),
            Err(_) => return Err(Stop::Failed),
        };
        if count == 0 {
            break;
        }
        sum = sum.wrapping_add(sum_of(&block[..count.saturating_mul(channels).min(BLOCK)]));
        left = left.saturating_sub(count as u64);
    }
    Ok(Folded { frames, sum })
}

/// Folds the frames of the file that a disk holds.
fn fold_file<D: Disk>(alloc: Global, disk: &mut D) -> Result<Folded, Stop>
    ensures { (D.state disk.new).name ≡ (D.state disk.old).name }
{
    let mut file = match open_read(alloc, disk) {
        Ok(file) => file,
        Err((_, back)) => {
            let _ = back;
            return Err(Stop::Failed);
        }
    };
    let folded = fold_frames(&mut file);
    match file.close() {
        Ok(back) => {
            let _ = back;
            folded
        }
        Err((_, back)) => {
            let _ = back;
            Err(Stop::Failed)
        }
    }
}

fn name_of(rt: &HostRuntime) -> Option<String> {
    let mut args = env::args(rt).ok()?;
    let _ = args.next();
    args.next()
}

fn main(rt: HostRuntime) -> ExitCode {
    let Some(name) = name_of(&rt) else {
        return ExitCode::from(2);
    };
    let alloc = rt.alloc();
    let mut out = rt.stdout();
    let mut shelf = FolderShelf::new(rt);
    let Ok(mut disk) = shelf.take(name.as_str(), false) else {
        return ExitCode::from(3);
    };
    let folded = fold_file(alloc, &mut disk);
    shelf.give(name.as_str(), disk);
    let folded = match folded {
        Ok(folded) => folded,
        Err(Stop::Failed) => return ExitCode::from(1),
        Err(Stop::BadBlock) => return ExitCode::from(4),
    };
    match print(&mut out, folded) {
        Ok(()) => ExitCode::from(0),
        Err(_) => ExitCode::from(3),
    }
}

fn print<W: Write>(out: &mut W, folded: Folded) -> io::Result<()> {
    writeln!(out, "frames {} sum {}", folded.frames, folded.sum)
}

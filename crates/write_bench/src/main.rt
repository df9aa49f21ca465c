//! Writes frames through the library, for measuring. `write_bench create NAME BITS CHANNELS FRAMES` makes
//! a WAVE file of so many bits a sample; `ulaw` and `alaw` in place of the bits make one of G.711, `ima` and
//! `ms` one of ADPCM. `write_bench update NAME on|off FROM FRAMES` writes so many frames over those of a file
//! that is there, from a frame on, and past its end, with automatic updates or without. `write_bench both
//! NAME` makes a small file and updates it. A line tells after each step how many frames there are.
#![tactic(auto)]

mod job;
mod writing;

ghost use Rattle.std.specs.Prelude.{◌≡◌, ◌<◌, ◌≤◌, false};
ghost use Rattle.snd_file.specs.Handle.{disk_of, loan_of};

use job::{Change, Creation, Job, job_of};
use snd_container::{Fixed, fixed_form};
use snd_disk::{Disk, Shelf};
use snd_edits::Update;
use snd_file::File;
use snd_files::FolderShelf;
use snd_layout::Kind;
use snd_opening::{create, create_blocks, open_update};
use std::alloc::Global;
use std::io::Write;
use std::process::ExitCode;
use writing::Writing;

/// How many bytes are written at a time, at most.
const BLOCK_BYTES: usize = 16384;

/// Why a job is not done.
#[derive(Clone, Copy)]
enum Stop {
    Refused,
    Fault,
}

/// By how many bits a number of 32 bits is shortened to one of a form; ADPCM, which has none, takes 16.
fn shift_of(form: Option<Fixed>) -> u32
    ensures { result < 32 }
{
    match form {
        Some(form) => 32 - u32::from(form.range_form().width()),
        None => 16,
    }
}

/// Fills a slice with the numbers of a linear congruential generator, shortened.
fn fill(block: &mut [i32], shift: u32)
    requires { shift < 32 }
{
    let mut state = 1i32;
    for x in block.iter_mut() {
        state = state.wrapping_mul(1_664_525).wrapping_add(1_013_904_223);
        *x = state >> shift;
    }
}

/// How many numbers a slice has: those of as many frames as there is room for, in ADPCM as of 16 bits each.
fn numbers_of_block(form: Option<Fixed>, channels: u16) -> usize
    ensures some { 1 ≤ result }
    ensures most { result ≤ 16384 }
{
    let channels = usize::from(channels).max(1);
    let bytes = match form {
        Some(form) => form.bytes(),
        None => 2,
    };
    (BLOCK_BYTES / bytes / channels * channels).max(1)
}

/// Writes so many frames, slice by slice. The numbers of a slice are made once, but for the first one.
fn write_blocks<D: Disk, M: Writing>(file: &mut File<'_, D, M>, frames: u64) -> Option<()>
    ensures loan { loan_of file.new ≡ loan_of file.old }
    ensures name { (D.state (disk_of file.new)).name ≡ (D.state (disk_of file.old)).name }
{
    let params = file.params();
    let form = fixed_form(params.codec);
    let whole = numbers_of_block(form, params.channels);
    let numbers = frames.checked_mul(u64::from(params.channels))?;
    let mut block = [0; BLOCK_BYTES];
    fill(&mut block[..whole], shift_of(form));
    for i in 0..numbers / whole as u64 {
        block[0] = (i % 128) as i32;
        M::put(file, &block[..whole])?;
    }
    let rest = (numbers % whole as u64) as usize;
    M::put(file, &block[..rest])
}

/// Writes a file so many frames and closes it, and answers how many it has, with its disk.
fn finish_file<'d, D: Disk, M: Writing>(
    mut file: File<'d, D, M>,
    frames: u64,
) -> (Option<u64>, &'d mut D)
    ensures loan { result.1.ghost_name ≡ loan_of file.entry }
    ensures name { (D.state result.1.now).name ≡ (D.state (disk_of file.entry)).name }
{
    let written = write_blocks(&mut file, frames);
    let count = M::frames(&file);
    match file.close() {
        Ok(back) => (written.map(|()| count), back),
        Err((_, back)) => (None, back),
    }
}

/// Makes a disk a WAVE file of so many frames, and answers how many it has.
fn create_file<D: Disk>(alloc: Global, disk: &mut D, creation: Creation) -> Option<u64>
    ensures { (D.state disk.new).name ≡ (D.state disk.old).name }
{
    let Creation { params, frames } = creation;
    let (count, back) = if params.codec.is_adpcm() {
        match create_blocks(alloc, disk, Kind::Wave, params) {
            Ok(file) => finish_file(file, frames),
            Err((_, back)) => (None, back),
        }
    } else {
        match create(alloc, disk, Kind::Wave, params) {
            Ok(file) => finish_file(file, frames),
            Err((_, back)) => (None, back),
        }
    };
    let _ = back;
    count
}

/// Changes an open file.
fn change_frames<D: Disk, W: Write>(
    file: &mut File<'_, D, Update>,
    change: Change,
    out: &mut W,
) -> Result<(), Stop>
    ensures loan { loan_of file.new ≡ loan_of file.old }
    ensures name { (D.state (disk_of file.new)).name ≡ (D.state (disk_of file.old)).name }
{
    let count = file.set_auto(change.automatic).map_err(|_| Stop::Refused)?;
    say(out, "sealed", count)?;
    file.seek_write(change.from).map_err(|_| Stop::Refused)?;
    write_blocks(file, change.frames).ok_or(Stop::Refused)?;
    say(out, "written", file.frames())
}

/// Changes the file that a disk holds, and answers how many frames it has.
fn change_file<D: Disk, W: Write>(
    alloc: Global,
    disk: &mut D,
    change: Change,
    out: &mut W,
) -> Result<u64, Stop>
    ensures { (D.state disk.new).name ≡ (D.state disk.old).name }
{
    let mut file = match open_update(alloc, disk) {
        Ok(file) => file,
        Err((_, back)) => {
            let _ = back;
            return Err(Stop::Refused);
        }
    };
    let changed = change_frames(&mut file, change, out);
    let count = file.frames();
    match file.close() {
        Ok(back) => {
            let _ = back;
            changed.map(|()| count)
        }
        Err((_, back)) => {
            let _ = back;
            Err(Stop::Refused)
        }
    }
}

/// Makes a file, where that is asked.
fn make_if_asked<D: Disk, W: Write>(
    alloc: Global,
    disk: &mut D,
    asked: Option<Creation>,
    out: &mut W,
) -> Result<(), Stop>
    ensures { (D.state disk.new).name ≡ (D.state disk.old).name }
{
    let Some(creation) = asked else {
        return Ok(());
    };
    let count = create_file(alloc, disk, creation).ok_or(Stop::Refused)?;
    say(out, "closed", count)
}

/// Changes a file, where that is asked.
fn change_if_asked<D: Disk, W: Write>(
    alloc: Global,
    disk: &mut D,
    asked: Option<Change>,
    out: &mut W,
) -> Result<(), Stop>
    ensures { (D.state disk.new).name ≡ (D.state disk.old).name }
{
    let Some(change) = asked else {
        return Ok(());
    };
    let count = change_file(alloc, disk, change, out)?;
    say(out, "closed", count)
}

/// Does a job with the file that a disk holds.
fn carry_out<D: Disk, W: Write>(
    alloc: Global,
    disk: &mut D,
    job: Job,
    out: &mut W,
) -> Result<(), Stop>
    ensures { (D.state disk.new).name ≡ (D.state disk.old).name }
{
    make_if_asked(alloc, disk, job.creation, out)?;
    change_if_asked(alloc, disk, job.change, out)
}

fn run<S: Shelf, W: Write>(
    alloc: Global,
    shelf: &mut S,
    name: &str,
    job: Job,
    out: &mut W,
) -> Result<(), Stop>
    requires { (S.state shelf.old).out name.now ≡ false }
{
    let make = job.creation.is_some();
    let Ok(mut disk) = shelf.take(name, make) else {
        return Err(Stop::Fault);
    };
    let done = carry_out(alloc, &mut disk, job, out);
    shelf.give(name, disk);
    done
}

fn main(rt: HostRuntime) -> ExitCode {
    let Some((name, job)) = job_of(&rt) else {
        return ExitCode::from(2);
    };
    let alloc = rt.alloc();
    let mut out = rt.stdout();
    let mut shelf = FolderShelf::new(rt);
    match run(alloc, &mut shelf, name.as_str(), job, &mut out) {
        Ok(()) => ExitCode::from(0),
        Err(Stop::Refused) => ExitCode::from(1),
        Err(Stop::Fault) => ExitCode::from(3),
    }
}

fn say<W: Write>(out: &mut W, step: &str, count: u64) -> Result<(), Stop> {
    writeln!(out, "{step} {count}").map_err(|_| Stop::Fault)
}

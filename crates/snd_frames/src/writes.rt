//! Samples written on a disk, a block at a time.

ghost use Rattle.std.specs.Prelude.{◌+◌, ◌-◌, ◌*◌, ◌<◌, ◌≤◌, ◌^◌, All, IfOk, OnErr, OnOk, drop, length, take};
ghost use Rattle.snd_disk.specs.Device.{CountsOn};
ghost use Rattle.snd_disk.specs.State.{IsWritten};
ghost use Rattle.snd_container.specs.Fixed.{InRange, byte_count, samples_bytes};
ghost use Rattle.snd_block_writer.specs.Puts.{LeavesPartly};
ghost use Rattle.snd_frames.specs.Writing.{HasWritten, HoldsEarly, PutsAt, PutsSamples};

use snd_container::{Fixed, put_samples};
use snd_disk::{Disk, Failed, Step};
use snd_pcm::Linear;

/// The bytes of the block in which samples are tested, made and read.
pub const BLOCK_BYTES: usize = 16384;

// Writes bytes at a place.
fn write_bytes<D: Disk>(disk: &mut D, at: u64, bytes: &[u8]) -> Result<(), Step>
    requires { at + length bytes.now < 2 ^ 63 }
    ensures done { OnOk result (IsWritten at bytes.now (D.state disk.old) (D.state disk.new)) }
    ensures puts { PutsAt D.state D.left_between at (length bytes.now) disk.old disk.new }
    ensures partly { LeavesPartly D.Disk at bytes.now disk.old disk.new }
    ensures faults { CountsOn D.state disk.old disk.new result }
{
    match disk.write_at(at, bytes) {
        Ok(()) => Ok(()),
        Err(Failed) => Err(Step::Write),
    }
}

// Writes bytes that are samples at a place, which is at most the disk's end.
pub(crate) fn write_whole<D: Disk>(disk: &mut D, at: u64, bytes: &[u8]) -> Result<(), Step>
    requires there { at ≤ (D.state disk.old).size }
    requires fits { at + length bytes.now < 2 ^ 63 }
    ensures done { OnOk result (IsWritten at bytes.now (D.state disk.old) (D.state disk.new)) }
    ensures puts { PutsAt D.state D.left_between at (length bytes.now) disk.old disk.new }
    ensures partly { LeavesPartly D.Disk at bytes.now disk.old disk.new }
    ensures faults { CountsOn D.state disk.old disk.new result }
{
    // for no samples the disk is not called
    if bytes.is_empty() {
        return Ok(());
    }
    write_bytes(disk, at, bytes)
}

// Writes samples at a place, at most one block, in which their bytes are made.
fn write_block<D: Disk>(
    disk: &mut D,
    form: Fixed,
    at: u64,
    from: &[i32],
    block: &mut [u8; BLOCK_BYTES],
) -> Result<(), Step>
    requires fits { at + byte_count form * length from.now < 2 ^ 63 }
    requires small { byte_count form * length from.now ≤ 16384 }
    requires in_range { All (InRange form) from.now }
    ensures done { OnOk result (HasWritten D.state form at from.now disk.old disk.new) }
    ensures puts { PutsSamples D.state D.left_between form at (length from.now) disk.old disk.new }
    ensures partly { LeavesPartly D.Disk at (samples_bytes form from.now) disk.old disk.new }
    ensures faults { CountsOn D.state disk.old disk.new result }
{
    let bytes = &mut block[..form.bytes() * from.len()];
    put_samples(form, from, bytes);
    write_bytes(disk, at, bytes)
}

// Writes on behind the first `done` samples, as far as one block goes. The answer is how many are done
// then.
fn write_next<D: Disk>(
    disk: &mut D,
    form: Fixed,
    at: u64,
    from: &[i32],
    done: usize,
    block: &mut [u8; BLOCK_BYTES],
) -> Result<usize, Step>
    requires some { done < length from.now }
    requires fits { at + byte_count form * length from.now < 2 ^ 63 }
    requires in_range { All (InRange form) from.now }
    ensures more { IfOk result (λ n. (done < n) × (n ≤ length from.now)) }
    ensures done { IfOk result (λ n. HasWritten D.state form (at + byte_count form * done) (take (n - done) (drop done from.now)) disk.old disk.new) }
    ensures puts { IfOk result (λ n. PutsSamples D.state D.left_between form (at + byte_count form * done) (n - done) disk.old disk.new) }
    ensures broken { OnErr result (PutsSamples D.state D.left_between form (at + byte_count form * done) (length from.now - done) disk.old disk.new) }
    ensures partly { LeavesPartly D.Disk at (samples_bytes form from.now) disk.old disk.new }
    ensures faults { CountsOn D.state disk.old disk.new result }
{
    let width = form.bytes();
    let count = (from.len() - done).min(BLOCK_BYTES / width);
    let next = done + count;
    write_block(
        disk,
        form,
        at + (width * done) as u64,
        &from[done..next],
        block,
    )?;
    Ok(next)
}

// Writes samples, each in the range of the form, from a place on, a block at a time. The place is at most
// the disk's end.
fn write_blocks<D: Disk>(disk: &mut D, form: Fixed, at: u64, from: &[i32]) -> Result<(), Step>
    requires there { at ≤ (D.state disk.old).size }
    requires fits { at + byte_count form * length from.now < 2 ^ 63 }
    requires in_range { All (InRange form) from.now }
    ensures done { OnOk result (HasWritten D.state form at from.now disk.old disk.new) }
    ensures puts { PutsSamples D.state D.left_between form at (length from.now) disk.old disk.new }
    ensures partly { LeavesPartly D.Disk at (samples_bytes form from.now) disk.old disk.new }
    ensures faults { CountsOn D.state disk.old disk.new result }
{
    // once for all, since it is cleared where it is made
    let mut block = [0u8; BLOCK_BYTES];
    let mut done = 0;
    while done < from.len() {
        done = write_next(disk, form, at, from, done, &mut block)?;
    }
    Ok(())
}

// Writes samples, each in the range of the form, from a place on, which is at most the disk's end. Those
// that are made early stand at the front of a block.
pub(crate) fn write_run<D: Disk>(
    disk: &mut D,
    form: Fixed,
    at: u64,
    from: &[i32],
    block: &[u8],
) -> Result<(), Step>
    requires there { at ≤ (D.state disk.old).size }
    requires fits { at + byte_count form * length from.now < 2 ^ 63 }
    requires in_range { All (InRange form) from.now }
    requires held { HoldsEarly form from.now block.now }
    ensures done { OnOk result (HasWritten D.state form at from.now disk.old disk.new) }
    ensures puts { PutsSamples D.state D.left_between form at (length from.now) disk.old disk.new }
    ensures partly { LeavesPartly D.Disk at (samples_bytes form from.now) disk.old disk.new }
    ensures faults { CountsOn D.state disk.old disk.new result }
{
    let Fixed::Linear(Linear::S16(_)) = form else {
        return write_blocks(disk, form, at, from);
    };
    // for no samples the disk is not called
    if from.is_empty() || block.len() / 2 < from.len() {
        return write_blocks(disk, form, at, from);
    }
    write_bytes(disk, at, &block[..2 * from.len()])
}

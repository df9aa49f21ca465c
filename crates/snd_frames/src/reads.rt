//! Samples read from a disk, a block at a time.

ghost use Rattle.std.specs.Prelude.{◌+◌, ◌-◌, ◌*◌, ◌<◌, ◌≤◌, All, IfOk, OnOk, OnErr, length};
ghost use Rattle.snd_disk.specs.Device.{CountsOn, IfOkTold, OnlyReadsOn};
ghost use Rattle.snd_container.specs.Fixed.{InRange, byte_count};
ghost use Rattle.snd_frames.specs.Reading.{AreInRange, AreSamples, AsksFor, ReadsOn};

use crate::writes::BLOCK_BYTES;
use snd_container::{Fixed, read_samples};
use snd_disk::{Disk, Step, fill};

// Reads samples that the disk has from a place on, at most one block, into which their bytes are read.
fn read_block<D: Disk>(
    disk: &mut D,
    form: Fixed,
    at: u64,
    into: &mut [i32],
    block: &mut [u8; BLOCK_BYTES],
) -> Result<(), Step>
    requires held { at + byte_count form * length into.old ≤ (D.state disk.old).size }
    requires small { byte_count form * length into.old ≤ 16384 }
    ensures told { IfOkTold D.state disk.old result (λ b _. AreSamples form b at into.new) }
    ensures in_range { OnOk result (All (InRange form) into.new) }
    ensures faults { CountsOn D.state disk.old disk.new result }
    ensures reads { OnlyReadsOn D.state D.may_leave D.left_between disk.old disk.new }
    ensures asked { AsksFor D.state form (length into.old) disk.old disk.new }
{
    let bytes = &mut block[..form.bytes() * into.len()];
    fill(disk, at, bytes)?;
    read_samples(form, bytes, into);
    Ok(())
}

// Reads on behind the first `done` samples, as far as one block goes. The answer is how many are done then.
fn read_next<D: Disk>(
    disk: &mut D,
    form: Fixed,
    at: u64,
    into: &mut [i32],
    done: usize,
    block: &mut [u8; BLOCK_BYTES],
) -> Result<usize, Step>
    requires some { done < length into.old }
    requires held { at + byte_count form * length into.old ≤ (D.state disk.old).size }
    ensures more { IfOk result (λ n. (done < n) × (n ≤ length into.old)) }
    ensures told { IfOkTold D.state disk.old result (λ b n. ReadsOn form b at done n into.old into.new) }
    ensures in_range { IfOk result (λ n. AreInRange form done into.old → AreInRange form n into.new) }
    ensures faults { CountsOn D.state disk.old disk.new result }
    ensures reads { OnlyReadsOn D.state D.may_leave D.left_between disk.old disk.new }
    ensures asked { IfOk result (λ n. AsksFor D.state form (n - done) disk.old disk.new) }
    ensures in_vain { OnErr result (AsksFor D.state form (length into.old - done) disk.old disk.new) }
{
    let width = form.bytes();
    let count = (into.len() - done).min(BLOCK_BYTES / width);
    let next = done + count;
    read_block(
        disk,
        form,
        at + (width * done) as u64,
        &mut into[done..next],
        block,
    )?;
    Ok(next)
}

// Reads the samples that a disk has from a place on, a block at a time.
pub(crate) fn read_run<D: Disk>(
    disk: &mut D,
    form: Fixed,
    at: u64,
    into: &mut [i32],
    block: &mut [u8; BLOCK_BYTES],
) -> Result<(), Step>
    requires { at + byte_count form * length into.old ≤ (D.state disk.old).size }
    ensures told { IfOkTold D.state disk.old result (λ b _. AreSamples form b at into.new) }
    ensures in_range { OnOk result (All (InRange form) into.new) }
    ensures faults { CountsOn D.state disk.old disk.new result }
    ensures reads { OnlyReadsOn D.state D.may_leave D.left_between disk.old disk.new }
    ensures asked { AsksFor D.state form (length into.old) disk.old disk.new }
{
    let mut done = 0;
    while done < into.len() {
        done = read_next(disk, form, at, into, done, block)?;
    }
    Ok(())
}

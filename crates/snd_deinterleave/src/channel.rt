//! One channel of one file, behind the frames of another.

ghost use Rattle.std.specs.Prelude.{◌≡◌, ◌+◌, ◌*◌, ◌%◌, ◌<◌, ◌≤◌, IfOk, OnOk, length};
ghost use Rattle.snd_disk.specs.Device.{GoesOnFrom};
ghost use Rattle.snd_edits.specs.Editing.{moved_by};
ghost use Rattle.snd_file.specs.Calls.{AsksForFrames};
ghost use Rattle.snd_file.specs.Handle.{StandsAfter, channels_of, disk_of, known_of, loan_of};
ghost use Rattle.snd_file.specs.Outcomes.{AsksNothing, TellsOn};
ghost use Rattle.snd_output.specs.Appended.{AsksForLeft, CountsFiles, FindsChanged, LeavesFiles, OnlyReadsIn, frames_ahead, left_in, next_count, next_frames};
ghost use Rattle.snd_deinterleave.specs.Passing.{ArePicked, MayPut, StandsAtEnd, TakesLeft, TakesNext};

use snd_disk::Disk;
use snd_edits::Read;
use snd_file::File;
use snd_output::{Making, Stop, numbers_of, read_some};

// Picks one number of each frame of a block.
fn pick(block: &[i32], channels: usize, which: usize, into: &mut [i32])
    requires within { which < channels }
    requires size { length block.now ≡ length into.old * channels }
    ensures { ArePicked channels which block.now into.new (length into.new) }
{
    for j in 0..into.len() {
        into[j] = block[j * channels + which];
    }
}

// Puts a channel of as many frames of one file behind those of another as a block has places for, fewer only at the
// end. The answer is how many.
fn append_block<D: Disk, E: Disk, M: Making>(
    from: &mut File<'_, D, Read>,
    to: &mut File<'_, E, M>,
    which: usize,
    block: &mut [i32],
    picked: &mut [i32],
) -> Result<usize, Stop>
    requires may { MayPut which (known_of from.old) (known_of to.old) }
    requires whole { length block.old % channels_of from.old ≡ 0 }
    requires fits { length block.old ≤ length picked.old }
    ensures loan { loan_of from.new ≡ loan_of from.old }
    ensures to_loan { loan_of to.new ≡ loan_of to.old }
    ensures count { IfOk result (λ k. k ≡ next_count (length block.old) from.old) }
    ensures left { LeavesFiles (next_count (length block.old) from.old) from.old from.new to.old to.new result }
    ensures changed { FindsChanged D.state (next_frames (length block.old) from.old) from.old result }
    ensures stands { IfOk result (λ k. StandsAfter D.state from.old from.new (moved_by k)) }
    ensures lengthens { IfOk result (TakesNext D.state E.state which from.old to.old to.new) }
    ensures faults { CountsFiles D.state E.state from.old from.new to.old to.new result }
    ensures reads { OnlyReadsIn D.Disk from.old from.new }
    ensures tells { TellsOn E.state to.old to.new }
    ensures time { GoesOnFrom E.state E.left_between (disk_of to.old) (disk_of to.new) }
    ensures asked { AsksForFrames D.state (length block.old) from.old from.new }
    ensures to_asked { AsksNothing E.state to.old to.new }
{
    let (channels, _) = numbers_of(from);
    let count = read_some(from, block)?;
    let numbers = &mut picked[..count];
    pick(&block[..count * channels], channels, which, numbers);
    M::give(to, numbers)?;
    Ok(count)
}

/// Puts a channel of the frames that are left in one file, from the one to read next on, behind those of another, a block
/// at a time. What the blocks held is lost: the first has places for one frame at least, and the other for as many
/// numbers. It takes no memory, and asks the disk that is read for at most the bytes of the frames; in ADPCM for those of
/// their blocks, and in each call for two more.
///
/// The answer is `Fault` where a call of one of the two disks failed: from then on its file is broken; and `Changed` where
/// a block of the file that is read is bad.
pub(crate) fn append_left<D: Disk, E: Disk, M: Making>(
    from: &mut File<'_, D, Read>,
    to: &mut File<'_, E, M>,
    which: usize,
    block: &mut [i32],
    picked: &mut [i32],
) -> Result<(), Stop>
    requires may { MayPut which (known_of from.old) (known_of to.old) }
    requires places { channels_of from.old ≤ length block.old }
    requires fits { length block.old ≤ length picked.old }
    ensures loan { loan_of from.new ≡ loan_of from.old }
    ensures to_loan { loan_of to.new ≡ loan_of to.old }
    ensures left { LeavesFiles (left_in (known_of from.old)) from.old from.new to.old to.new result }
    ensures changed { FindsChanged D.state frames_ahead from.old result }
    ensures stands { OnOk result (StandsAtEnd D.state from.old from.new) }
    ensures lengthens { OnOk result (TakesLeft D.state E.state which from.old to.old to.new) }
    ensures faults { CountsFiles D.state E.state from.old from.new to.old to.new result }
    ensures reads { OnlyReadsIn D.Disk from.old from.new }
    ensures tells { TellsOn E.state to.old to.new }
    ensures time { GoesOnFrom E.state E.left_between (disk_of to.old) (disk_of to.new) }
    ensures asked { AsksForLeft D.state (length block.old) from.old from.new }
    ensures to_asked { AsksNothing E.state to.old to.new }
{
    let (channels, _) = numbers_of(from);
    let places = block.len() - block.len() % channels;
    let mut count = 1;
    while count > 0 {
        count = append_block(from, to, which, &mut block[..places], picked)?;
    }
    Ok(())
}

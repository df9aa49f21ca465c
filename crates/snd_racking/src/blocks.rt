//! The frames of one file, through a rack behind those of another.

ghost use Rattle.std.specs.Prelude.{◌≡◌, ◌%◌, ◌≤◌, IfOk, OnOk, length, map, take};
ghost use Rattle.snd_disk.specs.Device.{GoesOnFrom};
ghost use Rattle.snd_edits.specs.Editing.{moved_by};
ghost use Rattle.snd_file.specs.Calls.{AsksForFrames};
ghost use Rattle.snd_file.specs.Handle.{StandsAfter, channels_of, codec_of, disk_of, known_of, loan_of};
ghost use Rattle.snd_file.specs.Outcomes.{AsksNothing, TellsOn};
ghost use Rattle.snd_output.specs.Appended.{AsksForLeft, CountsFiles, FindsChanged, LeavesFiles, Lengthens, OnlyReadsIn, frames_ahead, left_in, next_count, next_frames};
ghost use Rattle.snd_rack.specs.Passing.{AllSettled, later};
ghost use Rattle.snd_rack.specs.Stage.{kind_of};
ghost use Rattle.snd_racking.specs.Appending.{IsPiece, MayAppendRacked, MayRack, next_passed, rack_at};
ghost use Rattle.snd_racking.specs.Racked.{racked_left};

use crate::bytes::append_bytes;
use crate::pieces::{PieceRoom, give_racked, piece_size};
use crate::range::range_of;
use snd_disk::Disk;
use snd_edits::Read;
use snd_file::File;
use snd_output::{Making, Stop, numbers_of, read_some};
use snd_rack::{RackSpec, Stage, start_all};

// Puts as many frames of one file through stages behind those of another as a block has places for, fewer only at the end.
// The answer is how many.
fn append_block<D: Disk, E: Disk, M: Making>(
    from: &mut File<'_, D, Read>,
    to: &mut File<'_, E, M>,
    stages: &mut [Box<dyn Stage>],
    block: &mut [i32],
    room: &mut PieceRoom,
    most: usize,
) -> Result<usize, Stop>
    requires may { MayAppendRacked (map (λ b. stage b) stages.old) (known_of from.old) (known_of to.old) }
    requires whole { length block.old % channels_of from.old ≡ 0 }
    requires piece { IsPiece (channels_of from.old) (channels_of to.old) most }
    ensures loan { loan_of from.new ≡ loan_of from.old }
    ensures to_loan { loan_of to.new ≡ loan_of to.old }
    ensures count { IfOk result (λ k. k ≡ next_count (length block.old) from.old) }
    ensures left { LeavesFiles (next_count (length block.old) from.old) from.old from.new to.old to.new result }
    ensures changed { FindsChanged D.state (next_frames (length block.old) from.old) from.old result }
    ensures stands { IfOk result (λ k. StandsAfter D.state from.old from.new (moved_by k)) }
    ensures lengthens { IfOk result (λ k. Lengthens D.state E.state (next_passed (map (λ b. stage b) stages.old) k) from.old to.old to.new) }
    ensures states { IfOk result (λ k. map (λ b. stage b) stages.new ≡ later k (map (λ b. stage b) stages.old)) }
    ensures faults { CountsFiles D.state E.state from.old from.new to.old to.new result }
    ensures reads { OnlyReadsIn D.Disk from.old from.new }
    ensures tells { TellsOn E.state to.old to.new }
    ensures time { GoesOnFrom E.state E.left_between (disk_of to.old) (disk_of to.new) }
    ensures asked { AsksForFrames D.state (length block.old) from.old from.new }
    ensures to_asked { AsksNothing E.state to.old to.new }
{
    let (channels, codec) = numbers_of(from);
    let count = read_some(from, block)?;
    let numbers = &block[..count * channels];
    give_racked(to, codec, channels, stages, numbers, room, most)?;
    Ok(count)
}

// Puts the frames that are left in one file behind those of another as `append_racked` does, through stages that were
// started.
#[inline(never)]
fn append_started<D: Disk, E: Disk, M: Making>(
    from: &mut File<'_, D, Read>,
    to: &mut File<'_, E, M>,
    rack: &RackSpec<'_>,
    stages: &mut [Box<dyn Stage>],
    block: &mut [i32],
) -> Result<(), Stop>
    requires may { MayRack rack.now (known_of from.old) (known_of to.old) }
    requires settled { AllSettled rack.now }
    requires started { map (λ b. stage b) stages.old ≡ rack_at 0 (codec_of from.old) rack.now }
    requires places { channels_of from.old ≤ length block.old }
    ensures loan { loan_of from.new ≡ loan_of from.old }
    ensures to_loan { loan_of to.new ≡ loan_of to.old }
    ensures left { LeavesFiles (left_in (known_of from.old)) from.old from.new to.old to.new result }
    ensures changed { FindsChanged D.state frames_ahead from.old result }
    ensures lengthens { OnOk result (Lengthens D.state E.state (racked_left rack.now) from.old to.old to.new) }
    ensures faults { CountsFiles D.state E.state from.old from.new to.old to.new result }
    ensures reads { OnlyReadsIn D.Disk from.old from.new }
    ensures tells { TellsOn E.state to.old to.new }
    ensures time { GoesOnFrom E.state E.left_between (disk_of to.old) (disk_of to.new) }
    ensures asked { AsksForLeft D.state (length block.old) from.old from.new }
    ensures to_asked { AsksNothing E.state to.old to.new }
{
    let (channels, _) = numbers_of(from);
    let (after, _) = numbers_of(to);
    let most = piece_size(channels, after);
    // there are no more frames than a stage counts
    let _ = from.frames();
    let places = block.len() - block.len() % channels;
    let mut room = PieceRoom::new();
    let mut count = 1;
    while count > 0 {
        count = append_block(from, to, stages, &mut block[..places], &mut room, most)?;
    }
    Ok(())
}

/// Puts the frames that are left in one file, from the one to read next on, through a rack behind those of another, a block
/// at a time. The first `rack.len()` stages are started and take them one after the other: the first frame that is left has
/// the number 0, and low and high are the ends of the range of the width of the file that is read. Then each number is changed
/// to the width of the other file: a wider one is a multiple by a power of two, a narrower one is divided by it and rounded
/// toward minus infinity. What the block held is lost; it has places for one frame of the file that is read at least. It takes
/// no memory, and asks the disk that is read for at most the bytes of the frames; in ADPCM for those of their blocks, and in
/// each call for two more.
///
/// The answer is `Fault` where a call of one of the two disks failed: from then on its file is broken; and `Changed` where a
/// block of the file that is read is bad, so never where `check_blocks` passed them all and the file has not changed since.
pub fn append_racked<D: Disk, E: Disk, M: Making>(
    from: &mut File<'_, D, Read>,
    to: &mut File<'_, E, M>,
    rack: &RackSpec<'_>,
    stages: &mut [Box<dyn Stage>],
    block: &mut [i32],
) -> Result<(), Stop>
    requires may { MayRack rack.now (known_of from.old) (known_of to.old) }
    requires kinds { map (λ b. (stage b).kind) (take (length rack.now) stages.old) ≡ map kind_of rack.now }
    requires places { channels_of from.old ≤ length block.old }
    ensures loan { loan_of from.new ≡ loan_of from.old }
    ensures to_loan { loan_of to.new ≡ loan_of to.old }
    ensures left { LeavesFiles (left_in (known_of from.old)) from.old from.new to.old to.new result }
    ensures changed { FindsChanged D.state frames_ahead from.old result }
    ensures lengthens { OnOk result (Lengthens D.state E.state (racked_left rack.now) from.old to.old to.new) }
    ensures faults { CountsFiles D.state E.state from.old from.new to.old to.new result }
    ensures reads { OnlyReadsIn D.Disk from.old from.new }
    ensures tells { TellsOn E.state to.old to.new }
    ensures time { GoesOnFrom E.state E.left_between (disk_of to.old) (disk_of to.new) }
    ensures asked { AsksForLeft D.state (length block.old) from.old from.new }
    ensures to_asked { AsksNothing E.state to.old to.new }
{
    let (_, codec) = numbers_of(from);
    let (low, high) = range_of(codec);
    let used = &mut stages[..rack.len()];
    rack.are_settled();
    start_all(used, rack, low, high);
    let (_, wanted) = numbers_of(to);
    if codec.is_adpcm() || wanted.is_adpcm() {
        return append_started(from, to, rack, used, block);
    }
    append_bytes(from, to, rack, used, block)
}

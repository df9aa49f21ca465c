//! The frames of one file, through stages behind those of another, as the bytes of their samples: each sample has bytes of
//! its own in both files.

ghost use Rattle.std.specs.Prelude.{◌≡◌, ◌*◌, ◌≤◌, IfOk, OnOk, length, map};
ghost use Rattle.snd_disk.specs.Device.{GoesOnFrom};
ghost use Rattle.snd_edits.specs.Bytes.{AreWhole};
ghost use Rattle.snd_edits.specs.Editing.{moved_by};
ghost use Rattle.snd_file.specs.Calls.{AsksForFrames};
ghost use Rattle.snd_file.specs.Handle.{StandsAfter, channels_of, codec_of, disk_of, known_of, loan_of};
ghost use Rattle.snd_file.specs.Outcomes.{AsksNothing, TellsOn};
ghost use Rattle.snd_layout.specs.Blocks.{block_align};
ghost use Rattle.snd_output.specs.Appended.{AsksForLeft, CountsFiles, FindsChanged, LeavesFiles, Lengthens, OnlyReadsIn, Pass, count_in, frames_ahead, frames_for, left_in, next_count};
ghost use Rattle.snd_rack.specs.Passing.{AllSettled, later};
ghost use Rattle.snd_racking.specs.Appending.{MayAppendRacked, MayRack, frames_of_bytes, next_passed, rack_at};
ghost use Rattle.snd_racking.specs.Racked.{racked_left};

use crate::coding::pass_samples;
use crate::giving::give_samples;
use crate::pieces::PieceRoom;
use snd_disk::Disk;
use snd_edits::Read;
use snd_file::File;
use snd_output::{Making, Stop, frames_first, read_some_bytes};
use snd_rack::{RackSpec, Stage};

// The most bytes that are read at a time, and that are written.
const MOST_BYTES: usize = 65536;

// Puts as many frames of one file through stages behind those of another as there are places for their bytes, fewer only
// at the end. The answer is how many. What the numbers and the room held is lost.
fn pass_block<D: Disk, E: Disk, M: Making>(
    from: &mut File<'_, D, Read>,
    to: &mut File<'_, E, M>,
    stages: &mut [Box<dyn Stage>],
    numbers: &mut [i32],
    room: &mut PieceRoom,
    bytes: &mut [u8],
    coded: &mut [u8],
) -> Result<usize, Stop>
    requires may { MayAppendRacked (map (λ b. stage b) stages.old) (known_of from.old) (known_of to.old) }
    requires pass { Pass (codec_of from.old) (codec_of to.old) }
    requires places { channels_of from.old ≤ length numbers.old }
    requires whole { AreWhole (known_of from.old).shape.params (length bytes.old) }
    requires fits { frames_of_bytes (known_of from.old).shape.params (length bytes.old) * block_align (channels_of to.old) (codec_of to.old) ≤ length coded.old }
    ensures loan { loan_of from.new ≡ loan_of from.old }
    ensures to_loan { loan_of to.new ≡ loan_of to.old }
    ensures count { IfOk result (λ k. k ≡ next_count (count_in from.old bytes.old) from.old) }
    ensures left { LeavesFiles (next_count (count_in from.old bytes.old) from.old) from.old from.new to.old to.new result }
    ensures changed { FindsChanged D.state (frames_for from.old bytes.old) from.old result }
    ensures stands { IfOk result (λ k. StandsAfter D.state from.old from.new (moved_by k)) }
    ensures lengthens { IfOk result (λ k. Lengthens D.state E.state (next_passed (map (λ b. stage b) stages.old) k) from.old to.old to.new) }
    ensures states { IfOk result (λ k. map (λ b. stage b) stages.new ≡ later k (map (λ b. stage b) stages.old)) }
    ensures faults { CountsFiles D.state E.state from.old from.new to.old to.new result }
    ensures reads { OnlyReadsIn D.Disk from.old from.new }
    ensures tells { TellsOn E.state to.old to.new }
    ensures time { GoesOnFrom E.state E.left_between (disk_of to.old) (disk_of to.new) }
    ensures asked { AsksForFrames D.state (count_in from.old bytes.old) from.old from.new }
    ensures to_asked { AsksNothing E.state to.old to.new }
{
    let params = from.params();
    let wanted = to.params();
    params.are_good();
    wanted.are_good();
    let align = usize::from(params.block_align());
    let to_align = usize::from(wanted.block_align());
    let count = read_some_bytes(from, bytes)?;
    let held = &bytes[..count * align];
    let given = &mut coded[..count * to_align];
    pass_samples(params, wanted, stages, held, numbers, room, given);
    give_samples(to, given)?;
    Ok(count)
}

// How many frames are read at a time, of so many bytes before the stages and so many behind them.
fn frames_of(align: usize, to_align: usize) -> usize
    requires some { (1 ≤ align) × (1 ≤ to_align) }
    requires most { (align ≤ 65536) × (to_align ≤ 65536) }
    ensures one { 1 ≤ result }
    ensures bytes { result * align ≤ 65536 }
    ensures coded { result * to_align ≤ 65536 }
{
    (MOST_BYTES / align).min(MOST_BYTES / to_align)
}

/// Puts the frames that are left in one file behind those of another as `append_racked` does, through stages that were
/// started. The first ones may be fewer at a time, so that the later ones end where the pages of the file do that is given
/// them.
#[inline(never)]
pub(crate) fn append_bytes<D: Disk, E: Disk, M: Making>(
    from: &mut File<'_, D, Read>,
    to: &mut File<'_, E, M>,
    rack: &RackSpec<'_>,
    stages: &mut [Box<dyn Stage>],
    block: &mut [i32],
) -> Result<(), Stop>
    requires may { MayRack rack.now (known_of from.old) (known_of to.old) }
    requires pass { Pass (codec_of from.old) (codec_of to.old) }
    requires settled { AllSettled rack.now }
    requires started { map (λ b. stage b) stages.old ≡ rack_at 0 (codec_of from.old) rack.now }
    requires places { channels_of from.old ≤ length block.old }
    ensures loan { loan_of from.new ≡ loan_of from.old }
    ensures to_loan { loan_of to.new ≡ loan_of to.old }
    ensures left { LeavesFiles (left_in (known_of from.old)) from.old from.new to.old to.new result }
    ensures changed { FindsChanged D.state frames_ahead from.old result }
    ensures lengthens { OnOk result (Lengthens D.state E.state (racked_left rack.now) from.old to.old to.new) }
    ensures faults { CountsFiles D.state E.state from.old from.new to.old to.new result }
    ensures reads { OnlyReadsIn D.Disk from.old from.new }
    ensures tells { TellsOn E.state to.old to.new }
    ensures time { GoesOnFrom E.state E.left_between (disk_of to.old) (disk_of to.new) }
    ensures asked { AsksForLeft D.state (length block.old) from.old from.new }
    ensures to_asked { AsksNothing E.state to.old to.new }
{
    let params = from.params();
    let wanted = to.params();
    params.are_good();
    wanted.are_good();
    let align = usize::from(params.block_align());
    let most = frames_of(align, usize::from(wanted.block_align()));
    // there are no more frames than a stage counts
    let _ = from.frames();
    let mut room = PieceRoom::new();
    let mut bytes = [0u8; MOST_BYTES];
    let mut coded = [0u8; MOST_BYTES];
    let mut frames = frames_first(to, most);
    let mut count = 1;
    while count > 0 {
        let held = &mut bytes[..frames * align];
        count = pass_block(from, to, stages, block, &mut room, held, &mut coded)?;
        frames = most;
    }
    Ok(())
}

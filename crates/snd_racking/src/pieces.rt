//! Frames that are given to a file through stages, a piece at a time.

ghost use Rattle.std.specs.Prelude.{◌≡◌, ◌*◌, ◌/◌, ◌≤◌, OnOk, length, map};
ghost use Rattle.snd_disk.specs.Device.{GoesOnFrom};
ghost use Rattle.snd_file.specs.Handle.{channels_of, codec_of, disk_of, known_of, loan_of};
ghost use Rattle.snd_file.specs.Outcomes.{AsksNothing, TellsOn};
ghost use Rattle.snd_output.specs.Appended.{CountsFile, Gains, LeavesFile};
ghost use Rattle.snd_output.specs.Widths.{change_numbers};
ghost use Rattle.snd_rack.specs.Passing.{later};
ghost use Rattle.snd_racking.specs.Appending.{IsPiece, MayGiveRacked, passed_groups};

use arrayvec::ArrayVec;
use snd_disk::Disk;
use snd_file::File;
use snd_layout::Codec;
use snd_output::{Making, Stop, change_numbers, numbers_of};
use snd_rack::{Room, Stage, pass_frames};

// The most numbers that are given at a time.
const MOST_NUMBERS: usize = 16384;

/// Room for what becomes of a piece, which is kept from piece to piece.
#[derive(Drop)]
pub(crate) struct PieceRoom {
    pub(crate) between: Room,
    pub(crate) passed: ArrayVec<i32, 16384>,
}

impl PieceRoom {
    pub(crate) fn new() -> PieceRoom {
        PieceRoom {
            between: Room::new(),
            passed: ArrayVec::new(),
        }
    }
}

/// How many numbers are passed at a time: whole frames, of so many numbers before the stages and so many behind them.
pub(crate) fn piece_size(channels: usize, after: usize) -> usize
    requires some { 1 ≤ channels }
    requires most { channels ≤ 256 }
    requires some_after { 1 ≤ after }
    requires most_after { after ≤ 256 }
    ensures { IsPiece channels after result }
{
    MOST_NUMBERS / after * channels
}

// Passes whole frames of numbers of a codec through stages, and gives a file what becomes of them, all at once.
fn give_piece<E: Disk, M: Making>(
    to: &mut File<'_, E, M>,
    codec: Codec,
    channels: usize,
    stages: &mut [Box<dyn Stage>],
    numbers: &[i32],
    room: &mut PieceRoom,
) -> Result<(), Stop>
    requires may { MayGiveRacked codec channels (map (λ b. stage b) stages.old) numbers.now (known_of to.old) }
    requires fits { length numbers.now / channels * channels_of to.old ≤ 16384 }
    ensures loan { loan_of to.new ≡ loan_of to.old }
    ensures left { LeavesFile (length numbers.now / channels) to.old to.new result }
    ensures gains { OnOk result (Gains E.state (change_numbers codec (codec_of to.old) (passed_groups channels (map (λ b. stage b) stages.old) numbers.now)) to.old to.new) }
    ensures states { map (λ b. stage b) stages.new ≡ later (length numbers.now / channels) (map (λ b. stage b) stages.old) }
    ensures faults { CountsFile E.state to.old to.new result }
    ensures tells { TellsOn E.state to.old to.new }
    ensures time { GoesOnFrom E.state E.left_between (disk_of to.old) (disk_of to.new) }
    ensures asked { AsksNothing E.state to.old to.new }
{
    let (_, wanted) = numbers_of(to);
    pass_frames(
        stages,
        channels,
        numbers,
        &mut room.between,
        &mut room.passed,
    );
    change_numbers(codec, wanted, room.passed.as_mut_slice());
    M::give(to, room.passed.as_slice())
}

/// Passes whole frames of numbers of a codec through stages, and gives a file what becomes of them, in its own codec, `most`
/// numbers at a time. What the room held is lost. `Fault` where a call of the disk failed.
pub(crate) fn give_racked<E: Disk, M: Making>(
    to: &mut File<'_, E, M>,
    codec: Codec,
    channels: usize,
    stages: &mut [Box<dyn Stage>],
    numbers: &[i32],
    room: &mut PieceRoom,
    most: usize,
) -> Result<(), Stop>
    requires may { MayGiveRacked codec channels (map (λ b. stage b) stages.old) numbers.now (known_of to.old) }
    requires piece { IsPiece channels (channels_of to.old) most }
    ensures loan { loan_of to.new ≡ loan_of to.old }
    ensures left { LeavesFile (length numbers.now / channels) to.old to.new result }
    ensures gains { OnOk result (Gains E.state (change_numbers codec (codec_of to.old) (passed_groups channels (map (λ b. stage b) stages.old) numbers.now)) to.old to.new) }
    ensures states { OnOk result (map (λ b. stage b) stages.new ≡ later (length numbers.now / channels) (map (λ b. stage b) stages.old)) }
    ensures faults { CountsFile E.state to.old to.new result }
    ensures tells { TellsOn E.state to.old to.new }
    ensures time { GoesOnFrom E.state E.left_between (disk_of to.old) (disk_of to.new) }
    ensures asked { AsksNothing E.state to.old to.new }
{
    let mut at = 0;
    while at < numbers.len() {
        let end = at + most.min(numbers.len() - at);
        give_piece(to, codec, channels, stages, &numbers[at..end], room)?;
        at = end;
    }
    Ok(())
}

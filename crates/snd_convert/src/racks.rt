//! The rack of a conversion, and the frames that pass it.

ghost use Rattle.std.specs.Prelude.{◌≡◌, ◌≤◌, IfOk, OnOk, length, map, take};
ghost use Rattle.snd_disk.specs.Device.{GoesOnFrom};
ghost use Rattle.snd_file.specs.Handle.{disk_of, known_of, loan_of};
ghost use Rattle.snd_file.specs.Outcomes.{AsksNothing, TellsOn};
ghost use Rattle.snd_output.specs.Appended.{AsksForLeft, CountsFiles, FindsChanged, LeavesFiles, Lengthens, OnlyReadsIn, frames_ahead, left_in};
ghost use Rattle.snd_rack.specs.Stage.{kind_of};
ghost use Rattle.snd_racking.specs.Appending.{MayRack};
ghost use Rattle.snd_racking.specs.Racked.{racked_left};
ghost use Rattle.snd_convert.specs.Convert.{behind_rack};
ghost use Rattle.snd_convert.specs.Making.{FitsRack};
ghost use Rattle.snd_convert.specs.Planning.{items_of};

use snd_disk::Disk;
use snd_edits::Read;
use snd_file::File;
use snd_lines::Refusal;
use snd_output::{Making, Stop, append};
use snd_rack::{RackSpec, Stage, choose};
use snd_racking::append_racked;

/// The numbers that are held at once.
const BLOCK: usize = 16384;

/// Takes a box for each item of a rack to the front of those that are there. The answer is how many channels frames
/// with so many have behind the rack; or why they pass none.
pub(crate) fn take_boxes(
    rack: &Option<RackSpec<'_>>,
    channels: u16,
    stages: &mut [Box<dyn Stage>],
) -> Result<u16, Refusal>
    requires { channels ≤ 256 }
    ensures value { result ≡ behind_rack (map (λ b. (stage b).kind) stages.old) (items_of rack.now) channels }
    ensures may { IfOk result (λ behind.
        FitsRack (items_of rack.now) (map (λ b. (stage b).kind) (take (length (items_of rack.now)) stages.new)) channels behind) }
{
    let Some(spec) = rack else {
        return Ok(channels);
    };
    if !choose(stages, spec) {
        return Err(Refusal::NoSuchStage);
    }
    let count = usize::from(channels);
    if spec.bad_place(count) {
        return Err(Refusal::BadPlace);
    }
    // a map leaves 256 channels at most, which fit
    spec.are_settled();
    Ok(spec.channels_after(count) as u16)
}

/// Puts the frames that are left in one file behind those of another, once they have passed the rack if there is one.
pub(crate) fn put_frames<D: Disk, E: Disk, M: Making>(
    from: &mut File<'_, D, Read>,
    to: &mut File<'_, E, M>,
    rack: &Option<RackSpec<'_>>,
    stages: &mut [Box<dyn Stage>],
) -> Result<(), Stop>
    requires may { MayRack (items_of rack.now) (known_of from.old) (known_of to.old) }
    requires boxes { map (λ b. (stage b).kind) (take (length (items_of rack.now)) stages.old) ≡ map kind_of (items_of rack.now) }
    ensures loan { loan_of from.new ≡ loan_of from.old }
    ensures to_loan { loan_of to.new ≡ loan_of to.old }
    ensures left { LeavesFiles (left_in (known_of from.old)) from.old from.new to.old to.new result }
    ensures changed { FindsChanged D.state frames_ahead from.old result }
    ensures lengthens { OnOk result (Lengthens D.state E.state (racked_left (items_of rack.now)) from.old to.old to.new) }
    ensures faults { CountsFiles D.state E.state from.old from.new to.old to.new result }
    ensures reads { OnlyReadsIn D.Disk from.old from.new }
    ensures tells { TellsOn E.state to.old to.new }
    ensures time { GoesOnFrom E.state E.left_between (disk_of to.old) (disk_of to.new) }
    ensures asked { AsksForLeft D.state 16384 from.old from.new }
    ensures to_asked { AsksNothing E.state to.old to.new }
{
    // the block has places for a frame, which has 256 numbers at most
    let params = from.params();
    params.are_good();
    let mut block = [0; BLOCK];
    match rack {
        Some(spec) => append_racked(from, to, spec, stages, &mut block),
        None => append(from, to, &mut block),
    }
}

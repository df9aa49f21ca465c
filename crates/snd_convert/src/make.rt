//! A file that is made of another, on two disks.

ghost use Rattle.std.specs.Prelude.{◌≡◌, [], None, OnOk, false, length, map, take};
ghost use Rattle.snd_disk.specs.Device.{GoesOnFrom};
ghost use Rattle.snd_inputs.specs.Copying.{CopiesInto, CountsFileAndDisk, OnlyReadsFile};
ghost use Rattle.snd_inputs.specs.Opening.{IsUnread};
ghost use Rattle.snd_layout.specs.Blocks.{is_adpcm};
ghost use Rattle.snd_layout.specs.Fit.{fit_refusal};
ghost use Rattle.snd_layout.specs.Params.{AreParams};
ghost use Rattle.snd_edits.specs.Known.{IsFresh};
ghost use Rattle.snd_file.specs.Handle.{channels_of, known_of, loan_of};
ghost use Rattle.snd_file.specs.Outcomes.{AsksNothing};
ghost use Rattle.snd_edits.specs.Relaid.{shape_with};
ghost use Rattle.snd_output.specs.Appended.{FindsChanged};
ghost use Rattle.snd_patch.specs.Steps.{StillTells};
ghost use Rattle.snd_convert.specs.Making.{AsksToFill, Fills, FitsRack, Makes, is_full_by};
ghost use Rattle.snd_convert.specs.Planning.{items_of, planned_by};

use crate::chunks::carry;
use crate::plan::Plan;
use crate::racks::put_frames;
use snd_disk::Disk;
use snd_edits::{Encode, Read, Write};
use snd_file::File;
use snd_output::{Making, Stop, finish};
use snd_rack::{RackSpec, Stage};
use std::alloc::Global;

// Puts the chunks that go with them, and all frames, behind the rack if there is one, into a file that was begun by a
// plan.
fn fill<D: Disk, E: Disk, M: Making>(
    alloc: Global,
    plan: &Plan,
    from: &mut File<'_, D, Read>,
    to: &mut File<'_, E, M>,
    rack: &Option<RackSpec<'_>>,
    stages: &mut [Box<dyn Stage>],
) -> Result<(), Stop>
    requires unread { IsUnread (known_of from.old) }
    requires good { AreParams plan.now.params }
    requires fits { fit_refusal plan.now.kind plan.now.params ≡ None }
    requires rack { FitsRack (items_of rack.now) (map (λ b. (stage b).kind) (take (length (items_of rack.now)) stages.old))
        (channels_of from.old) plan.now.params.channels }
    requires room { is_full_by (planned_by plan.now) (known_of from.old).shape ≡ false }
    requires fresh { IsFresh (known_of to.old) }
    requires begun { (known_of to.old).shape ≡ shape_with plan.now.kind plan.now.params [] }
    ensures fills { OnOk result (Fills D.state E.state (items_of rack.now) plan.now from.old to.old to.new) }
    ensures copies { CopiesInto D.Disk E.Disk from.old from.new to.old to.new result }
    ensures changed { FindsChanged D.state (λ e. e.frames) from.old result }
    ensures asked { AsksToFill D.state from.old from.new }
    ensures unasked { AsksNothing E.state to.old to.new }
{
    carry(alloc, plan, from, to)?;
    put_frames(from, to, rack, stages)
}

// Makes the whole file, in a mode of its codec.
fn make_in<D: Disk, E: Disk, M: Making>(
    alloc: Global,
    from: &mut File<'_, D, Read>,
    disk: &mut E,
    plan: &Plan,
    rack: &Option<RackSpec<'_>>,
    stages: &mut [Box<dyn Stage>],
) -> Result<(), Stop>
    requires unread { IsUnread (known_of from.old) }
    requires fits { fit_refusal plan.now.kind plan.now.params ≡ None }
    requires codec { is_adpcm plan.now.params.codec ≡ M.ENCODES }
    requires rack { FitsRack (items_of rack.now) (map (λ b. (stage b).kind) (take (length (items_of rack.now)) stages.old))
        (channels_of from.old) plan.now.params.channels }
    requires room { is_full_by (planned_by plan.now) (known_of from.old).shape ≡ false }
    ensures loan { loan_of from.new ≡ loan_of from.old }
    ensures made { OnOk result (Makes D.state E.state (items_of rack.now) plan.now from.old disk.old disk.new) }
    ensures faults { CountsFileAndDisk D.state E.state from.old from.new disk.old disk.new result }
    ensures reads { OnlyReadsFile D.Disk from.old from.new }
    ensures tells { StillTells (E.state disk.old) (E.state disk.new) }
    ensures time { GoesOnFrom E.state E.left_between disk.old disk.new }
    ensures changed { FindsChanged D.state (λ e. e.frames) from.old result }
    ensures asked { AsksToFill D.state from.old from.new }
    ensures unasked { (E.state disk.new).asked ≡ (E.state disk.old).asked }
{
    plan.params.are_good();
    let mut to = match M::begin(alloc, disk, plan.kind, plan.params) {
        Ok(to) => to,
        Err((stop, back)) => {
            let _ = back;
            return Err(stop);
        }
    };
    let filled = fill(alloc, plan, from, &mut to, rack, stages);
    match finish(to) {
        Ok(back) => {
            let _ = back;
            filled
        }
        Err((stop, back)) => {
            let _ = back;
            Err(stop)
        }
    }
}

/// Makes the whole file, of frames that pass the rack if there is one.
pub(crate) fn make<D: Disk, E: Disk>(
    alloc: Global,
    from: &mut File<'_, D, Read>,
    disk: &mut E,
    plan: &Plan,
    rack: &Option<RackSpec<'_>>,
    stages: &mut [Box<dyn Stage>],
) -> Result<(), Stop>
    requires unread { IsUnread (known_of from.old) }
    requires fits { fit_refusal plan.now.kind plan.now.params ≡ None }
    requires rack { FitsRack (items_of rack.now) (map (λ b. (stage b).kind) (take (length (items_of rack.now)) stages.old))
        (channels_of from.old) plan.now.params.channels }
    requires room { is_full_by (planned_by plan.now) (known_of from.old).shape ≡ false }
    ensures loan { loan_of from.new ≡ loan_of from.old }
    ensures made { OnOk result (Makes D.state E.state (items_of rack.now) plan.now from.old disk.old disk.new) }
    ensures faults { CountsFileAndDisk D.state E.state from.old from.new disk.old disk.new result }
    ensures reads { OnlyReadsFile D.Disk from.old from.new }
    ensures tells { StillTells (E.state disk.old) (E.state disk.new) }
    ensures time { GoesOnFrom E.state E.left_between disk.old disk.new }
    ensures changed { FindsChanged D.state (λ e. e.frames) from.old result }
    ensures asked { AsksToFill D.state from.old from.new }
    ensures unasked { (E.state disk.new).asked ≡ (E.state disk.old).asked }
{
    if plan.params.codec.is_adpcm() {
        make_in::<D, E, Encode>(alloc, from, disk, plan, rack, stages)
    } else {
        make_in::<D, E, Write>(alloc, from, disk, plan, rack, stages)
    }
}

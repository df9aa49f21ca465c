//! What a command does to an open file that it changes, and its reply.

ghost use Rattle.std.specs.Prelude.{◌≡◌, None};
ghost use Rattle.snd_file.specs.Handle.{known_of};
ghost use Rattle.snd_rules.specs.Rules.{auto_rule, encode_rule, promote_rule, trim_rule, truncate_rule, update_rule, write_rule};
ghost use Rattle.snd_session.specs.Follows.{Follows};

use snd_disk::{Disk, Sink};
use snd_edits::{
    AutoError, CanSeal, CanShrink, CanWrite, Encode, ShrinkError, Update, UpdateError, WriteError,
};
use snd_file::File;
use snd_lines::Refusal;
use snd_reservations::PromoteError;
use snd_rules::{Reply, StepFault, refuse, say_ok};

/// Writes the frames of these numbers.
#[tactic(auto, using(crate::proofs::Refused::write_part))]
pub fn write<'d, D: Disk, M: CanWrite, O: Sink>(
    file: &mut File<'d, D, M>,
    samples: &[i32],
    out: &mut O,
) -> Result<Reply, StepFault>
    requires { (known_of file.old).broken ≡ None }
    ensures { Follows D.Disk O.Sink (write_rule samples.now) result file.old out.old file.new out.new }
{
    let params = file.params();
    params.are_good();
    let frames = samples.len() / usize::from(params.channels);
    match file.write_frames(samples) {
        Ok(()) => say_ok(out, frames as u64),
        Err(WriteError::PartFrame) => refuse(out, Refusal::PartFrame),
        Err(WriteError::SampleRange) => refuse(out, Refusal::SampleRange),
        Err(WriteError::TrailingData) => refuse(out, Refusal::TrailingData),
        Err(WriteError::ContainerFull) => refuse(out, Refusal::ContainerFull),
        Err(WriteError::DiskFault(_)) => Err(StepFault::Disk),
        Err(WriteError::Broken(_)) => unreachable!(),
    }
}

/// Gives a file of ADPCM the frames of these numbers, behind all that it was given.
#[tactic(auto, using(crate::proofs::Refused::encode_part))]
pub fn encode<'d, D: Disk, O: Sink>(
    file: &mut File<'d, D, Encode>,
    samples: &[i32],
    out: &mut O,
) -> Result<Reply, StepFault>
    requires { (known_of file.old).broken ≡ None }
    ensures { Follows D.Disk O.Sink (encode_rule samples.now) result file.old out.old file.new out.new }
{
    let params = file.params();
    params.are_good();
    let frames = samples.len() / usize::from(params.channels);
    match file.encode_frames(samples) {
        Ok(()) => say_ok(out, frames as u64),
        Err(WriteError::PartFrame) => refuse(out, Refusal::PartFrame),
        Err(WriteError::SampleRange) => refuse(out, Refusal::SampleRange),
        Err(WriteError::ContainerFull) => refuse(out, Refusal::ContainerFull),
        Err(WriteError::DiskFault(_)) => Err(StepFault::Disk),
        Err(WriteError::TrailingData) => unreachable!(),
        Err(WriteError::Broken(_)) => unreachable!(),
    }
}

/// Cuts the file to so many frames.
#[tactic(auto, using(crate::proofs::Refused::truncate_past, crate::proofs::Refused::truncate_trailing))]
pub fn truncate<'d, D: Disk, M: CanShrink, O: Sink>(
    file: &mut File<'d, D, M>,
    to: u64,
    out: &mut O,
) -> Result<Reply, StepFault>
    requires { (known_of file.old).broken ≡ None }
    ensures { Follows D.Disk O.Sink (truncate_rule to) result file.old out.old file.new out.new }
{
    match file.truncate(to) {
        Ok(()) => say_ok(out, to),
        Err(ShrinkError::SeekRange) => refuse(out, Refusal::SeekRange),
        Err(ShrinkError::TrailingData) => refuse(out, Refusal::TrailingData),
        Err(ShrinkError::DiskFault(_)) => Err(StepFault::Disk),
        Err(ShrinkError::Broken(_)) => unreachable!(),
        Err(ShrinkError::AdpcmUpdate) => unreachable!(),
    }
}

/// Cuts off all that stands behind the data.
pub fn trim<'d, D: Disk, M: CanShrink, O: Sink>(
    file: &mut File<'d, D, M>,
    out: &mut O,
) -> Result<Reply, StepFault>
    requires { (known_of file.old).broken ≡ None }
    ensures { Follows D.Disk O.Sink trim_rule result file.old out.old file.new out.new }
{
    let frames = file.frames();
    match file.trim() {
        Ok(()) => say_ok(out, frames),
        Err(ShrinkError::TrailingData) => refuse(out, Refusal::TrailingData),
        Err(ShrinkError::DiskFault(_)) => Err(StepFault::Disk),
        Err(ShrinkError::Broken(_)) => unreachable!(),
        Err(ShrinkError::SeekRange) => unreachable!(),
        Err(ShrinkError::AdpcmUpdate) => unreachable!(),
    }
}

/// Brings the head up to the frames.
pub fn bring_up<'d, D: Disk, M: CanSeal, O: Sink>(
    file: &mut File<'d, D, M>,
    out: &mut O,
) -> Result<Reply, StepFault>
    requires { (known_of file.old).broken ≡ None }
    ensures { Follows D.Disk O.Sink update_rule result file.old out.old file.new out.new }
{
    match file.update_now() {
        Ok(frames) => say_ok(out, frames),
        Err(UpdateError::DiskFault(_)) => Err(StepFault::Disk),
        Err(UpdateError::Broken(_)) => unreachable!(),
    }
}

/// Brings the head up to the frames, and from then on after each write, or after none.
pub fn set_auto<'d, D: Disk, M: CanSeal, O: Sink>(
    file: &mut File<'d, D, M>,
    on: bool,
    out: &mut O,
) -> Result<Reply, StepFault>
    requires { (known_of file.old).broken ≡ None }
    ensures { Follows D.Disk O.Sink (auto_rule on) result file.old out.old file.new out.new }
{
    match file.set_auto(on) {
        Ok(frames) => say_ok(out, frames),
        Err(AutoError::Straddle) => refuse(out, Refusal::Straddle),
        Err(AutoError::DiskFault(_)) => Err(StepFault::Disk),
        Err(AutoError::Broken(_)) => unreachable!(),
    }
}

/// Turns a WAVE file into RF64 in place.
pub fn promote<'d, D: Disk, O: Sink>(
    file: &mut File<'d, D, Update>,
    out: &mut O,
) -> Result<Reply, StepFault>
    requires { (known_of file.old).broken ≡ None }
    ensures { Follows D.Disk O.Sink promote_rule result file.old out.old file.new out.new }
{
    match file.promote() {
        Ok(frames) => say_ok(out, frames),
        Err(PromoteError::NoRoom) => refuse(out, Refusal::NoRoom),
        Err(PromoteError::TrailingData) => refuse(out, Refusal::TrailingData),
        Err(PromoteError::DiskFault(_)) => Err(StepFault::Disk),
        Err(PromoteError::Broken(_)) => unreachable!(),
    }
}

//! A command on an open file, by the mode in which it is open.

ghost use Rattle.std.specs.Prelude.{◌≡◌, None, false};
ghost use Rattle.snd_file.specs.Handle.{known_of};
ghost use Rattle.snd_rules.specs.Desk.{encoding, reading, updating, writing};
ghost use Rattle.snd_session.specs.Tapped.{meter_taps};
ghost use Rattle.snd_session.specs.Follows.{FeedsWork, FollowsWork};
ghost use Rattle.snd_rules.specs.Work.{work_closes, work_sets};

use crate::asking::ask;
use crate::carry::{read, refuse_on, seek_both, seek_read, seek_write, tell, tell_given};
use crate::change::{bring_up, encode, promote, set_auto, trim, truncate, write};
use crate::room::Room;
use crate::setting::set;
use crate::tapping::{tap, untap};
use snd_disk::{Disk, Sink};
use snd_edits::{CanShrink, Encode, Read, Update, Write};
use snd_file::File;
use snd_lines::Refusal;
use snd_meters::Meters;
use snd_rules::{Reply, StepFault, Work};
use snd_taps::Tap;
use std::alloc::Global;

/// On a file that is read.
pub fn step_read<'d, D: Disk, O: Sink>(
    file: &mut File<'d, D, Read>,
    work: Work<'_>,
    room: &mut Room,
    meters: &mut Meters,
    out: &mut O,
) -> Result<Reply, StepFault>
    requires working { (known_of file.old).broken ≡ None }
    requires stays { work_closes work ≡ false }
    ensures follows { FollowsWork D.Disk O.Sink reading (meter_taps (λ b. meter b) meters.old) work.entry result file.old out.old file.new out.new }
    ensures taps { FeedsWork D.state reading work.entry result file.old (meter_taps (λ b. meter b) meters.old) (meter_taps (λ b. meter b) meters.new) }
{
    match work {
        Work::Tell => tell(file, out),
        Work::SeekRead(to) | Work::SeekBoth(to) => seek_read(file, to, out),
        Work::Read(count) => read(file, room, meters, count, out),
        Work::Ask(asking) => ask(file, room.alloc, asking, out),
        Work::Set(_)
        | Work::SeekWrite(_)
        | Work::Write(_)
        | Work::Truncate(_)
        | Work::Trim
        | Work::BringUp
        | Work::Auto(_)
        | Work::Promote => refuse_on(file, Refusal::WrongMode, out),
        Work::Open(_) | Work::Update(_) | Work::Make(..) => {
            refuse_on(file, Refusal::AlreadyOpen, out)
        }
        Work::Tap(kind) => tap(file, meters, kind, out),
        Work::Untap(kind) => untap(file, meters, kind, out),
        Work::Close => unreachable!(),
    }
}

/// On a file that was made.
#[tactic(auto, using(snd_rules::proofs::Public::sets_nothing))]
pub fn step_made<'d, D: Disk, O: Sink>(
    file: &mut File<'d, D, Write>,
    work: Work<'_>,
    alloc: Global,
    meters: &mut Meters,
    out: &mut O,
) -> Result<Reply, StepFault>
    requires working { (known_of file.old).broken ≡ None }
    requires stays { work_closes work ≡ false }
    ensures follows { FollowsWork D.Disk O.Sink writing (meter_taps (λ b. meter b) meters.old) work.entry result file.old out.old file.new out.new }
    ensures taps { FeedsWork D.state writing work.entry result file.old (meter_taps (λ b. meter b) meters.old) (meter_taps (λ b. meter b) meters.new) }
{
    match work {
        Work::Set(setting) => set(file, alloc, setting, out),
        other => step_write(file, other, alloc, meters, out),
    }
}

/// On a file of ADPCM that was made.
pub fn step_blocks<'d, D: Disk, O: Sink>(
    file: &mut File<'d, D, Encode>,
    work: Work<'_>,
    alloc: Global,
    meters: &mut Meters,
    out: &mut O,
) -> Result<Reply, StepFault>
    requires working { (known_of file.old).broken ≡ None }
    requires stays { work_closes work ≡ false }
    ensures follows { FollowsWork D.Disk O.Sink encoding (meter_taps (λ b. meter b) meters.old) work.entry result file.old out.old file.new out.new }
    ensures taps { FeedsWork D.state encoding work.entry result file.old (meter_taps (λ b. meter b) meters.old) (meter_taps (λ b. meter b) meters.new) }
{
    match work {
        Work::Tell => tell_given(file, out),
        Work::Write(samples) => encode(file, samples, out),
        Work::BringUp => bring_up(file, out),
        Work::Auto(on) => set_auto(file, on, out),
        Work::Set(setting) => set(file, alloc, setting, out),
        Work::Ask(asking) => ask(file, alloc, asking, out),
        Work::SeekWrite(_) | Work::SeekBoth(_) => refuse_on(file, Refusal::AdpcmSeek, out),
        Work::Truncate(_) | Work::Trim => refuse_on(file, Refusal::AdpcmUpdate, out),
        Work::SeekRead(_) | Work::Read(_) | Work::Promote => {
            refuse_on(file, Refusal::WrongMode, out)
        }
        Work::Open(_) | Work::Update(_) | Work::Make(..) => {
            refuse_on(file, Refusal::AlreadyOpen, out)
        }
        Work::Tap(kind) => tap(file, meters, kind, out),
        Work::Untap(kind) => untap(file, meters, kind, out),
        Work::Close => unreachable!(),
    }
}

// What is done alike on a file that was made and on one that is updated.
fn step_write<'d, D: Disk, M: CanShrink, O: Sink>(
    file: &mut File<'d, D, M>,
    work: Work<'_>,
    alloc: Global,
    meters: &mut Meters,
    out: &mut O,
) -> Result<Reply, StepFault>
    requires working { (known_of file.old).broken ≡ None }
    requires stays { work_closes work ≡ false }
    requires head { work_sets work ≡ false }
    ensures follows { FollowsWork D.Disk O.Sink writing (meter_taps (λ b. meter b) meters.old) work.entry result file.old out.old file.new out.new }
    ensures taps { FeedsWork D.state writing work.entry result file.old (meter_taps (λ b. meter b) meters.old) (meter_taps (λ b. meter b) meters.new) }
{
    match work {
        Work::Tell => tell(file, out),
        Work::SeekWrite(to) | Work::SeekBoth(to) => seek_write(file, to, out),
        Work::Write(samples) => write(file, samples, out),
        Work::Truncate(to) => truncate(file, to, out),
        Work::Trim => trim(file, out),
        Work::BringUp => bring_up(file, out),
        Work::Auto(on) => set_auto(file, on, out),
        Work::Ask(asking) => ask(file, alloc, asking, out),
        Work::SeekRead(_) | Work::Read(_) | Work::Promote => {
            refuse_on(file, Refusal::WrongMode, out)
        }
        Work::Open(_) | Work::Update(_) | Work::Make(..) => {
            refuse_on(file, Refusal::AlreadyOpen, out)
        }
        Work::Tap(kind) => tap(file, meters, kind, out),
        Work::Untap(kind) => untap(file, meters, kind, out),
        Work::Close | Work::Set(_) => unreachable!(),
    }
}

/// On a file that is read and updated.
#[tactic(auto, using(snd_rules::proofs::Public::sets_nothing))]
pub fn step_update<'d, D: Disk, O: Sink>(
    file: &mut File<'d, D, Update>,
    work: Work<'_>,
    room: &mut Room,
    meters: &mut Meters,
    out: &mut O,
) -> Result<Reply, StepFault>
    requires working { (known_of file.old).broken ≡ None }
    requires stays { work_closes work ≡ false }
    ensures follows { FollowsWork D.Disk O.Sink updating (meter_taps (λ b. meter b) meters.old) work.entry result file.old out.old file.new out.new }
    ensures taps { FeedsWork D.state updating work.entry result file.old (meter_taps (λ b. meter b) meters.old) (meter_taps (λ b. meter b) meters.new) }
{
    match work {
        Work::SeekRead(to) => seek_read(file, to, out),
        Work::SeekBoth(to) => seek_both(file, to, out),
        Work::Read(count) => read(file, room, meters, count, out),
        Work::Promote => promote(file, out),
        Work::Set(_) => refuse_on(file, Refusal::WrongMode, out),
        other => step_write(file, other, room.alloc, meters, out),
    }
}

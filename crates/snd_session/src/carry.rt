//! What a command does to an open file that it does not change, and its reply.

ghost use Rattle.std.specs.Prelude.{◌≡◌, None};
ghost use Rattle.snd_rules.specs.Desk.{encoding, reading};
ghost use Rattle.snd_file.specs.Handle.{known_of};
ghost use Rattle.snd_rules.specs.Rules.{read_rule, refused_rule, seek_both_rule, seek_read_rule, seek_write_rule, tell_rule};
ghost use Rattle.snd_session.specs.Tapped.{meter_taps};
ghost use Rattle.snd_session.specs.Follows.{FeedsFile, Follows};

use crate::reading::read_some;
use crate::room::Room;
use snd_disk::{Disk, Sink};
use snd_edits::{CanRead, CanWrite, Encode, Mode, SeekError, Update};
use snd_file::File;
use snd_lines::Refusal;
use snd_meters::Meters;
use snd_rules::{Reply, StepFault, refuse, say_file, say_frames, say_ok};
use snd_taps::Tap;

/// Refuses a command.
pub fn refuse_on<'d, D: Disk, M: Mode, O: Sink>(
    _file: &File<'d, D, M>,
    refusal: Refusal,
    out: &mut O,
) -> Result<Reply, StepFault>
    ensures { Follows D.Disk O.Sink (refused_rule refusal) result _file.now out.old _file.now out.new }
{
    refuse(out, refusal)
}

/// Tells of the file.
pub fn tell<'d, D: Disk, M: Mode, O: Sink>(
    file: &File<'d, D, M>,
    out: &mut O,
) -> Result<Reply, StepFault>
    ensures { Follows D.Disk O.Sink (tell_rule reading) result file.now out.old file.now out.new }
{
    say_file(out, file.frames(), file.params(), file.kind())
}

/// Tells of a file of ADPCM that is made, with all frames that it was given.
pub fn tell_given<'d, D: Disk, O: Sink>(
    file: &File<'d, D, Encode>,
    out: &mut O,
) -> Result<Reply, StepFault>
    ensures { Follows D.Disk O.Sink (tell_rule encoding) result file.now out.old file.now out.new }
{
    say_file(out, file.frames_given(), file.params(), file.kind())
}

// Why a frame is not sought in a file that is whole. In ADPCM no call seeks the frame to write next.
fn seek_refusal(error: SeekError) -> Refusal
    requires { error ≡ SeekError.SeekRange }
    ensures { result ≡ Refusal.SeekRange }
{
    match error {
        SeekError::SeekRange => Refusal::SeekRange,
        SeekError::Broken(_) | SeekError::AdpcmSeek => unreachable!(),
    }
}

/// Makes a frame the one to read next.
pub fn seek_read<'d, D: Disk, M: CanRead, O: Sink>(
    file: &mut File<'d, D, M>,
    to: u64,
    out: &mut O,
) -> Result<Reply, StepFault>
    requires { (known_of file.old).broken ≡ None }
    ensures { Follows D.Disk O.Sink (seek_read_rule to) result file.old out.old file.new out.new }
{
    match file.seek_read(to) {
        Ok(()) => say_ok(out, to),
        Err(error) => refuse(out, seek_refusal(error)),
    }
}

/// Makes a frame the one to write next.
pub fn seek_write<'d, D: Disk, M: CanWrite, O: Sink>(
    file: &mut File<'d, D, M>,
    to: u64,
    out: &mut O,
) -> Result<Reply, StepFault>
    requires { (known_of file.old).broken ≡ None }
    ensures { Follows D.Disk O.Sink (seek_write_rule to) result file.old out.old file.new out.new }
{
    match file.seek_write(to) {
        Ok(()) => say_ok(out, to),
        Err(error) => refuse(out, seek_refusal(error)),
    }
}

/// Makes a frame the one to read and to write next.
pub fn seek_both<'d, D: Disk, O: Sink>(
    file: &mut File<'d, D, Update>,
    to: u64,
    out: &mut O,
) -> Result<Reply, StepFault>
    requires { (known_of file.old).broken ≡ None }
    ensures { Follows D.Disk O.Sink (seek_both_rule to) result file.old out.old file.new out.new }
{
    match file.seek_read(to) {
        Ok(()) => match file.seek_write(to) {
            Ok(()) => say_ok(out, to),
            Err(_) => unreachable!(),
        },
        Err(error) => refuse(out, seek_refusal(error)),
    }
}

/// Reads frames, by way of the samples and the page, and feeds them to the taps, unless the block of one of
/// them is bad.
pub fn read<'d, D: Disk, M: CanRead, O: Sink>(
    file: &mut File<'d, D, M>,
    room: &mut Room,
    meters: &mut Meters,
    wanted: u64,
    out: &mut O,
) -> Result<Reply, StepFault>
    requires { (known_of file.old).broken ≡ None }
    ensures follows { Follows D.Disk O.Sink (read_rule wanted) result file.old out.old file.new out.new }
    ensures taps { FeedsFile D.state (read_rule wanted) result file.old (meter_taps (λ b. meter b) meters.old) (meter_taps (λ b. meter b) meters.new) }
{
    let channels = usize::from(file.params().channels);
    let Some(frames) = read_some(file, &mut room.samples, wanted)? else {
        return refuse(out, Refusal::BadBlock);
    };
    let read = &room.samples[..frames * channels];
    meters.feed(channels, read);
    say_frames(&mut room.page, out, read, channels, frames)
}

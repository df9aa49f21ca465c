//! Frames that are read, where nothing but the disk can fail.

ghost use Rattle.std.specs.Prelude.{◌≡◌, IfOk, false, length};
ghost use Rattle.snd_disk.specs.Device.{OnlyReadsOn};
ghost use Rattle.snd_layout.specs.Blocks.{is_adpcm};
ghost use Rattle.snd_edits.specs.Bytes.{AreWhole};
ghost use Rattle.snd_file.specs.Handle.{IfOkStanding, StandsAfter, channels_of, codec_of, disk_of, known_of, loan_of};
ghost use Rattle.snd_edits.specs.Editing.{frames_read, state_read};
ghost use Rattle.snd_edits.specs.Calls.{IsReady, count_read};
ghost use Rattle.snd_file.specs.Calls.{AsksForFrames};
ghost use Rattle.snd_edits.specs.Reading.{FitCodec, GivesFrames};
ghost use Rattle.snd_file.specs.Reading.{front_of};
ghost use Rattle.snd_output.specs.Appended.{CountsReadOf, FindsChanged, GivesBytes, OnlyReadsIn, SomeLeave, count_in, frames_for, next_count, next_frames};

use crate::stop::Stop;
use snd_disk::Disk;
use snd_edits::{Read, ReadError};
use snd_file::File;

/// Reads frames, as many as the slice has places for, fewer only at the end. `Fault` where a call of the disk failed, and
/// `Changed` where a block of ADPCM is bad.
pub fn read_some<D: Disk>(from: &mut File<'_, D, Read>, into: &mut [i32]) -> Result<usize, Stop>
    requires ready { IsReady (length into.old) (known_of from.old) }
    ensures loan { loan_of from.new ≡ loan_of from.old }
    ensures count { IfOk result (λ k. k ≡ next_count (length into.old) from.old) }
    ensures left { SomeLeave (known_of from.old) (known_of from.new) result }
    ensures changed { FindsChanged D.state (next_frames (length into.old) from.old) from.old result }
    ensures read { IfOkStanding D.state from.old result (GivesFrames (channels_of from.old) into.new) }
    ensures in_range { IfOk result (λ k. FitCodec (codec_of from.old) (front_of from.old k into.new)) }
    ensures stands { StandsAfter D.state from.old from.new (state_read result) }
    ensures faults { CountsReadOf D.state from.old from.new result }
    ensures reads { OnlyReadsIn D.Disk from.old from.new }
    ensures asked { AsksForFrames D.state (length into.old) from.old from.new }
{
    match from.read_frames(into) {
        Ok(count) => Ok(count),
        Err(ReadError::BadBlock) => Err(Stop::Changed),
        Err(ReadError::DiskFault(_)) => Err(Stop::Fault),
        Err(_) => unreachable!(),
    }
}

/// Reads frames as `read_some` does, as the bytes of their samples: each sample of the codec has bytes of its own.
/// `Fault` where a call of the disk failed.
pub fn read_some_bytes<D: Disk>(
    from: &mut File<'_, D, Read>,
    into: &mut [u8],
) -> Result<usize, Stop>
    requires ready { IsReady (count_in from.old into.old) (known_of from.old) }
    requires fixed { is_adpcm (codec_of from.old) ≡ false }
    requires whole { AreWhole (known_of from.old).shape.params (length into.old) }
    ensures loan { loan_of from.new ≡ loan_of from.old }
    ensures count { IfOk result (λ k. k ≡ next_count (count_in from.old into.old) from.old) }
    ensures left { SomeLeave (known_of from.old) (known_of from.new) result }
    ensures changed { FindsChanged D.state (frames_for from.old into.old) from.old result }
    ensures read { IfOkStanding D.state from.old result (GivesBytes from.old into.new) }
    ensures stands { StandsAfter D.state from.old from.new (state_read result) }
    ensures faults { CountsReadOf D.state from.old from.new result }
    ensures reads { OnlyReadsIn D.Disk from.old from.new }
    ensures asked { AsksForFrames D.state (count_in from.old into.old) from.old from.new }
{
    match from.read_bytes(into) {
        Ok(count) => Ok(count),
        Err(ReadError::DiskFault(_)) => Err(Stop::Fault),
        Err(_) => unreachable!(),
    }
}

//! Frames read for a command.

ghost use Rattle.std.specs.Prelude.{◌≡◌, ◌+◌, ◌*◌, ◌≤◌, None, IfOk, IfErr, IfSome, OnOk, length};
ghost use Rattle.snd_file.specs.Handle.{channels_of, known_of, loan_of};
ghost use Rattle.snd_session.specs.Follows.{CountsLeft, FileAsks, FileCalm, FileFault, FileReads, HasBadFrame, KnowsRead, MovesOn, ReadsFrames};

use snd_disk::Disk;
use snd_edits::{CanRead, ReadError};
use snd_file::File;
use snd_rules::StepFault;

/// Reads as many frames as are wanted and are left, into the front of the samples. Memory for as many as
/// the file could give is taken first.
///
/// `None` exactly where the block of one of them is bad, which happens in ADPCM alone: then the place stays.
pub fn read_some<'d, D: Disk, M: CanRead>(
    file: &mut File<'d, D, M>,
    samples: &mut Vec<i32>,
    wanted: u64,
) -> Result<Option<usize>, StepFault>
    requires { (known_of file.old).broken ≡ None }
    ensures loan { loan_of file.new ≡ loan_of file.old }
    ensures held { IfOk result (KnowsRead wanted (known_of file.old) (known_of file.new)) }
    ensures size { IfOk result (λ r. IfSome r (λ k. k * channels_of file.old ≤ length samples.new.items)) }
    ensures count { IfOk result (λ r. IfSome r (CountsLeft D.state wanted file.old)) }
    ensures read { IfOk result (λ r. IfSome r (λ k. ReadsFrames D.state k file.old samples.new.items)) }
    ensures bad { IfOk result (λ r. r ≡ None → HasBadFrame D.state wanted file.old) }
    ensures stands { MovesOn D.state result file.old file.new }
    ensures cause { IfErr result (FileFault D.state file.old file.new) }
    ensures calm { OnOk result (FileCalm D.state file.old file.new) }
    ensures reads { FileReads D.state D.may_leave D.left_between file.old file.new }
    ensures asked { FileAsks D.state (1024 * wanted + 16384) file.old file.new }
{
    file.keeps_rule();
    let params = file.params();
    params.are_good();
    let count = wanted.min(file.frames()) as usize;
    let channels = usize::from(params.channels);
    let Ok(()) = samples.resize(count * channels, 0) else {
        return Err(StepFault::Memory);
    };
    match file.read_frames(samples) {
        Ok(frames) => Ok(Some(frames)),
        Err(ReadError::BadBlock) => Ok(None),
        Err(ReadError::DiskFault(_)) => Err(StepFault::Disk),
        Err(ReadError::Broken(_)) => unreachable!(),
        Err(ReadError::PartFrame) => unreachable!(),
    }
}

//! How a file that is made ends.

ghost use Rattle.std.specs.Prelude.{◌≡◌, OnOk};
ghost use Rattle.snd_disk.specs.Device.{GoesOnFrom, IsStable, WritesAtMost};
ghost use Rattle.snd_edits.specs.Closing.{most_closed};
ghost use Rattle.snd_file.specs.Handle.{disk_of, known_of, loan_of};
ghost use Rattle.snd_file.specs.Loans.{disk_back, loan_back};
ghost use Rattle.snd_patch.specs.Steps.{StillTells};
ghost use Rattle.snd_output.specs.Ends.{IsFinishCause, MakesWhole};

use crate::making::Making;
use crate::stop::Stop;
use snd_disk::Disk;
use snd_file::File;

/// Finishes a file: its head says how many frames it has, what closes them stands behind them, and all is
/// stable; in ADPCM zeros fill the last block before that. It writes at most 64 bytes, and such a block, reads
/// none and takes no memory.
///
/// The answer is `Fault` where a call of the disk failed: before, and then nothing is done; or now.
pub fn finish<'d, E: Disk, M: Making>(to: File<'d, E, M>) -> Result<&'d mut E, (Stop, &'d mut E)>
    ensures lends { loan_back result ≡ loan_of to.entry }
    ensures made { MakesWhole E.state to.entry result }
    ensures stable { OnOk result (IsStable E.state E.may_leave (disk_back result)) }
    ensures cause { IsFinishCause E.state to.entry result }
    ensures tells { StillTells (E.state (disk_of to.entry)) (E.state (disk_back result)) }
    ensures time { GoesOnFrom E.state E.left_between (disk_of to.entry) (disk_back result) }
    ensures written { WritesAtMost E.state (most_closed M.ENCODES (known_of to.entry).shape.params) (disk_of to.entry) (disk_back result) }
    ensures asked { (E.state (disk_back result)).asked ≡ (E.state (disk_of to.entry)).asked }
{
    match to.close() {
        Ok(disk) => Ok(disk),
        Err((_, disk)) => Err((Stop::Fault, disk)),
    }
}

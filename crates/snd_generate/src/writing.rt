//! What stops a part, and numbers that are written to an open file.

ghost use Rattle.std.specs.Prelude.{◌≡◌, None, OnOk};
ghost use Rattle.snd_edits.specs.Edits.{written_to};
ghost use Rattle.snd_file.specs.Handle.{StandsAfter, known_of, loan_of};
ghost use Rattle.snd_generate.specs.Steps.{Calls, MayWriteTo, stop_of};

use snd_disk::Disk;
use snd_edits::{CanWrite, WriteError};
use snd_file::File;
use snd_layout::OpenError;
use snd_output::Stop;

/// Why a file is given up that is not what was made: over a disk that tells what it holds this does not
/// come, and no call has failed, so it is no fault.
pub(crate) const CHANGED: Stop = Stop::Memory;

/// What stops a part whose file does not open.
pub(crate) fn stop_of(error: OpenError) -> Stop
    ensures { result ≡ stop_of error }
{
    match error {
        OpenError::DiskFault(_) => Stop::Fault,
        OpenError::Memory => Stop::Memory,
        _ => CHANGED,
    }
}

/// Writes the numbers of frames.
pub(crate) fn write<E: Disk, M: CanWrite>(
    file: &mut File<'_, E, M>,
    numbers: &[i32],
) -> Result<(), Stop>
    requires working { (known_of file.old).broken ≡ None }
    ensures loan { loan_of file.new ≡ loan_of file.old }
    ensures may { OnOk result (MayWriteTo file.old numbers.now) }
    ensures stands { OnOk result (StandsAfter E.state file.old file.new (written_to numbers.now)) }
    ensures calls { Calls E.state E.left_between file.old file.new result }
{
    match file.write_frames(numbers) {
        Ok(()) => Ok(()),
        Err(WriteError::DiskFault(_)) => Err(Stop::Fault),
        Err(WriteError::Broken(_)) => unreachable!(),
        Err(_) => Err(CHANGED),
    }
}

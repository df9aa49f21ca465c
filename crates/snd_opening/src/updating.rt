//! Files that are opened to be updated.

ghost use Rattle.std.specs.Prelude.{◌≡◌, None, IfOk, false};
ghost use Rattle.snd_disk.specs.Device.{AsksAtMost, OnlyReadsOn};
ghost use Rattle.snd_edits.specs.Known.{IsFresh};
ghost use Rattle.snd_file.specs.Handle.{known_of};
ghost use Rattle.snd_opening.specs.Opening.{answer_of, disk_after, loan_after};
ghost use Rattle.snd_file.specs.Rest.{OpensAtRest};
ghost use Rattle.snd_opening.specs.Updating.{CountsUpdating, UpdatesFile};

use snd_container::open_layout;
use snd_disk::Disk;
use snd_edits::Update;
use snd_file::{File, at_first_frame};
use snd_frames::is_adpcm;
use snd_layout::OpenError;
use std::alloc::Global;

/// Opens a sound file to be read and updated in place, at its first frame. It asks at most 16384 bytes of
/// the disk and writes nothing.
///
/// The answer is `Refused` with the first reason, by number, for which the file is not opened; then
/// `AdpcmUpdate` exactly where its samples stand in blocks, and `UnknownLength` exactly where its head
/// does not say its length; `DiskFault` where a call of the disk failed; `Memory` where there is none. The
/// disk comes back with it.
///
/// Where a crash leaves the disk's contents alone, these hold all the data that their head declares, and the
/// field that decides the count lies in one sector, the file is at rest, as `File::set_auto` says.
pub fn open_update<'d, D: Disk>(
    alloc: Global,
    disk: &'d mut D,
) -> Result<File<'d, D, Update>, (OpenError, &'d mut D)>
    ensures lends { loan_after result ≡ disk.entry.ghost_name }
    ensures opened { UpdatesFile D.state disk.old (answer_of result) }
    ensures fresh { IfOk result (λ f. IsFresh (known_of f)) }
    ensures rests { IfOk result (OpensAtRest D.Disk disk.old) }
    ensures faults { CountsUpdating D.state disk.old (disk_after result) (answer_of result) }
    ensures reads { OnlyReadsOn D.state D.may_leave D.left_between disk.old (disk_after result) }
    ensures asked { AsksAtMost D.state 16384 disk.old (disk_after result) }
{
    let layout = match open_layout(alloc, disk) {
        Ok(layout) => layout,
        Err(error) => return Err((error, disk)),
    };
    if is_adpcm(layout.params.codec) {
        return Err((OpenError::AdpcmUpdate, disk));
    }
    if layout.unknown_length {
        return Err((OpenError::UnknownLength, disk));
    }
    Ok(at_first_frame(disk, layout, None, None))
}

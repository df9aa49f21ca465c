//! What the chunks of an open file say.

ghost use Rattle.std.specs.Prelude.{◌≡◌, codes};
ghost use Rattle.snd_disk.specs.Device.{AsksAtMost, OnlyReadsOn};
ghost use Rattle.snd_file.specs.Handle.{StandsAfter, disk_of, known_of, loan_of};
ghost use Rattle.snd_edits.specs.Pieces.{GetLeaves};
ghost use Rattle.snd_tags.specs.Found.{Answers, CountsFinding, FindsInfo, body_given};
ghost use Rattle.snd_edits.specs.TagsHeld.{broadcast_of, points_of, texts_of};

use crate::lists::info_body;
use snd_disk::Disk;
use snd_edits::{Mode, TagError};
use snd_fields::Id4;
use snd_file::File;
use snd_meta::{Bext, CueList, InfoList};
use std::alloc::Global;

/// The texts of the first INFO list of a file. It asks at most 81920 bytes of the disk, and never writes.
///
/// `Broken` where a call of the disk failed before; then `NoSuchChunk` exactly where no `LIST` chunk among
/// the first 256 chunks begins with `INFO`, `ChunkTooLarge` exactly where the first one that does has more than 65536 bytes, and
/// `BadBody` exactly where it does not read; `Memory` where there is none: these leave all as it was.
/// `DiskFault` where a call of the disk failed now: from then on the file is broken.
pub fn texts<'d, D: Disk, M: Mode>(
    file: &mut File<'d, D, M>,
    alloc: Global,
) -> Result<InfoList, TagError>
    ensures loan { loan_of file.new ≡ loan_of file.old }
    ensures left { FindsInfo (known_of file.old) (known_of file.new) result }
    ensures answers { Answers D.state file.old texts_of result }
    ensures stands { StandsAfter D.state file.old file.new (λ e. e) }
    ensures faults { CountsFinding D.state file.old file.new result }
    ensures reads { OnlyReadsOn D.state D.may_leave D.left_between (disk_of file.old) (disk_of file.new) }
    ensures asked { AsksAtMost D.state 81920 (disk_of file.old) (disk_of file.new) }
{
    let body = info_body(file, alloc)?;
    Ok(InfoList::read(alloc, &body)?)
}

/// The broadcast extension of a file: its first `bext` chunk. It asks at most 65536 bytes of the disk.
///
/// The answers are those of `texts`, of that chunk: `BadBody` exactly where it has fewer than 602 bytes.
pub fn broadcast<'d, D: Disk, M: Mode>(
    file: &mut File<'d, D, M>,
    alloc: Global,
) -> Result<Bext, TagError>
    ensures loan { loan_of file.new ≡ loan_of file.old }
    ensures left { GetLeaves (codes "bext") (known_of file.old) (known_of file.new) (body_given result) }
    ensures answers { Answers D.state file.old broadcast_of result }
    ensures stands { StandsAfter D.state file.old file.new (λ e. e) }
    ensures faults { CountsFinding D.state file.old file.new result }
    ensures reads { OnlyReadsOn D.state D.may_leave D.left_between (disk_of file.old) (disk_of file.new) }
    ensures asked { AsksAtMost D.state 65536 (disk_of file.old) (disk_of file.new) }
{
    let body = file.piece_bytes(alloc, Id4(*b"bext"))?;
    Ok(Bext::read(alloc, &body)?)
}

/// The cue points of a file: its first `cue ` chunk. It asks at most 65536 bytes of the disk.
///
/// The answers are those of `texts`, of that chunk: `BadBody` exactly where it is shorter than its count and
/// the points that this says.
pub fn points<'d, D: Disk, M: Mode>(
    file: &mut File<'d, D, M>,
    alloc: Global,
) -> Result<CueList, TagError>
    ensures loan { loan_of file.new ≡ loan_of file.old }
    ensures left { GetLeaves (codes "cue ") (known_of file.old) (known_of file.new) (body_given result) }
    ensures answers { Answers D.state file.old points_of result }
    ensures stands { StandsAfter D.state file.old file.new (λ e. e) }
    ensures faults { CountsFinding D.state file.old file.new result }
    ensures reads { OnlyReadsOn D.state D.may_leave D.left_between (disk_of file.old) (disk_of file.new) }
    ensures asked { AsksAtMost D.state 65536 (disk_of file.old) (disk_of file.new) }
{
    let body = file.piece_bytes(alloc, Id4(*b"cue "))?;
    Ok(CueList::read(alloc, &body)?)
}

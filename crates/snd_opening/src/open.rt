//! Files that are opened.

ghost use Rattle.std.specs.Prelude.{◌≡◌, ◌+◌, ◌≤◌, ◌^◌, List, ℕ, None, All, IfOk, is_some};
ghost use Rattle.snd_disk.specs.Device.{AsksAtMost, OnlyReadsOn, Tells};
ghost use Rattle.snd_layout.specs.Opened.{CountsOpening, EndsIn};
ghost use Rattle.snd_layout.specs.Shape.{end, room};
ghost use Rattle.snd_layout.specs.Blocks.{is_adpcm};
ghost use Rattle.snd_frames.specs.Caching.{IsEmpty};
ghost use Rattle.snd_edits.specs.Editing.{first_editing};
ghost use Rattle.snd_edits.specs.Known.{IsFresh};
ghost use Rattle.snd_file.specs.Handle.{Stands, known_of};
ghost use Rattle.snd_opening.specs.Opening.{OpensFile, answer_of, disk_after, loan_after};

use snd_blocks::BlockCache;
use snd_container::open_layout;
use snd_disk::Disk;
use snd_edits::Read;
use snd_file::{File, at_first_frame};
use snd_frames::is_adpcm;
use snd_layout::{Codec, Layout, OpenError};
use std::alloc::{AllocError, Global};

// What a file needs to be read by blocks, where its codec is ADPCM.
fn cache_for(alloc: Global, codec: Codec) -> Result<Option<Box<BlockCache>>, AllocError>
    ensures blocks { IfOk result (λ cache. is_some cache ≡ is_adpcm codec) }
    ensures empty { IfOk result IsEmpty }
{
    if !is_adpcm(codec) {
        return Ok(None);
    }
    Ok(Some(Box::new(alloc, BlockCache::new())?))
}

/// Opens a file whose layout is known already, to be read, at its first frame: one that `open_layout` gave of
/// this disk, which has not changed since. The disk is not touched.
///
/// Where there is no memory the disk comes back.
pub fn open_laid<'d, D: Disk>(
    alloc: Global,
    disk: &'d mut D,
    layout: Layout,
) -> Result<File<'d, D, Read>, (AllocError, &'d mut D)>
    requires held { end layout layout.frames ≤ (D.state disk.old).size }
    requires room_ends { layout.start + room layout + 8 ≤ 2 ^ 63 }
    requires pieces_held { All (EndsIn (D.state disk.old).size) layout.pieces }
    ensures lends { loan_after result ≡ disk.entry.ghost_name }
    ensures same_disk { disk_after result ≡ disk.old }
    ensures fresh { IfOk result (λ f. IsFresh (known_of f)) }
    ensures shape { IfOk result (λ f. (known_of f).shape ≡ layout) }
    ensures stands { IfOk result (λ f. (b : List ℕ) → Tells D.state disk.old b → Stands D.state f (first_editing b layout)) }
{
    match cache_for(alloc, layout.params.codec) {
        Ok(cache) => Ok(at_first_frame(disk, layout, cache, None)),
        Err(error) => Err((error, disk)),
    }
}

/// Opens a sound file to be read, at its first frame. It asks at most 16384 bytes of the disk and never
/// writes.
///
/// The answer is `Refused` with the first reason, by number, for which the file is not opened;
/// `DiskFault` where a call of the disk failed; `Memory` where there is none. The disk comes back with it.
pub fn open_read<'d, D: Disk>(
    alloc: Global,
    disk: &'d mut D,
) -> Result<File<'d, D, Read>, (OpenError, &'d mut D)>
    ensures lends { loan_after result ≡ disk.entry.ghost_name }
    ensures opened { OpensFile D.state disk.old (answer_of result) }
    ensures fresh { IfOk result (λ f. ((known_of f).place ≡ 0) × ((known_of f).broken ≡ None)) }
    ensures faults { CountsOpening D.state disk.old (disk_after result) (answer_of result) }
    ensures reads { OnlyReadsOn D.state D.may_leave D.left_between disk.old (disk_after result) }
    ensures asked { AsksAtMost D.state 16384 disk.old (disk_after result) }
{
    let layout = match open_layout(alloc, disk) {
        Ok(layout) => layout,
        Err(error) => return Err((error, disk)),
    };
    match cache_for(alloc, layout.params.codec) {
        Ok(cache) => Ok(at_first_frame(disk, layout, cache, None)),
        Err(AllocError) => Err((OpenError::Memory, disk)),
    }
}

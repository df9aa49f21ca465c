//! Where the INFO list stands among the chunks, and the chunks with those that are changed.

ghost use Rattle.std.specs.Prelude.{◌≡◌, ◌+◌, ◌*◌, ◌<◌, ◌≤◌, All, IfOk, None, OnOk, codes, false, length};
ghost use Rattle.std.specs.Str.{bytes_eq};
ghost use Rattle.snd_disk.specs.Device.{AsksAtMost};
ghost use Rattle.snd_fields.specs.Laws.{IsByte};
ghost use Rattle.snd_file.specs.Handle.{IfOkStanding, disk_of, known_of};
ghost use Rattle.snd_metadata.specs.Looking.{Looks};
ghost use Rattle.snd_metadata.specs.Places.{HasChunks, IsInfoPlace, PutsInfoList, SaysInfo, SaysInfoList};
ghost use Rattle.snd_metadata.specs.Planned.{IsPlan, MayStand, bytes_planned};
ghost use Rattle.snd_metadata.specs.Retagged.{are_too_large};

use crate::bodies::Bodies;
use crate::chunks::{PlannedChunk, kept_chunks, put_at, put_extension};
use crate::settings::Summary;
use snd_disk::Disk;
use snd_edits::{PieceReadError, Read};
use snd_fields::Id4;
use snd_file::File;
use snd_output::Stop;
use std::alloc::Global;

const LIST: Id4 = Id4(*b"LIST");

fn names_list(id: Id4) -> bool
    ensures { result ≡ bytes_eq id.0 (codes "LIST") }
{
    id.0.as_slice() == b"LIST".as_slice()
}

fn names_info(head: &[u8]) -> bool
    ensures { result ≡ bytes_eq head.now (codes "INFO") }
{
    head == b"INFO".as_slice()
}

// Whether the body of the chunk at a place of the list begins with `INFO`.
fn begins_info<D: Disk>(file: &mut File<'_, D, Read>, place: usize) -> Result<bool, Stop>
    requires working { (known_of file.old).broken ≡ None }
    requires there { place < length (known_of file.old).shape.pieces }
    ensures says { IfOkStanding D.state file.old result (SaysInfo place) }
    ensures looks { Looks D.Disk file.old file.new result }
    ensures asked { AsksAtMost D.state 4 (disk_of file.old) (disk_of file.new) }
{
    let mut head = [0u8; 4];
    match file.piece_read(place, &mut head) {
        Ok(count) => Ok(names_info(&head[..count])),
        Err(PieceReadError::DiskFault(_)) => Err(Stop::Fault),
        Err(PieceReadError::Broken(_)) => unreachable!(),
    }
}

// Whether a chunk is an INFO list.
fn is_info_list<D: Disk>(file: &mut File<'_, D, Read>, chunk: &PlannedChunk) -> Result<bool, Stop>
    requires working { (known_of file.old).broken ≡ None }
    requires stands { MayStand (known_of file.old).shape.pieces chunk.now }
    ensures says { IfOkStanding D.state file.old result (SaysInfoList chunk.now) }
    ensures looks { Looks D.Disk file.old file.new result }
    ensures asked { AsksAtMost D.state 4 (disk_of file.old) (disk_of file.new) }
{
    match chunk {
        PlannedChunk::Kept(place, piece) => {
            if names_list(piece.id) {
                begins_info(file, *place)
            } else {
                Ok(false)
            }
        }
        PlannedChunk::Given(id, body) => {
            let head = &body[..body.len().min(4)];
            Ok(names_list(*id) && names_info(head))
        }
    }
}

// The place of the first INFO list, or how many chunks there are.
fn info_place<D: Disk>(file: &mut File<'_, D, Read>, plan: &[PlannedChunk]) -> Result<usize, Stop>
    requires working { (known_of file.old).broken ≡ None }
    requires stand { All (MayStand (known_of file.old).shape.pieces) plan.now }
    ensures place { IfOkStanding D.state file.old result (IsInfoPlace plan.now) }
    ensures within { IfOk result (λ at. at ≤ length plan.now) }
    ensures looks { Looks D.Disk file.old file.new result }
    ensures asked { AsksAtMost D.state (4 * length plan.now) (disk_of file.old) (disk_of file.new) }
{
    for at in 0..plan.len() {
        if is_info_list(file, &plan[at])? {
            return Ok(at);
        }
    }
    Ok(plan.len())
}

// Puts an INFO list of this body among chunks, where it is changed.
fn put_info_list<D: Disk>(
    file: &mut File<'_, D, Read>,
    plan: &mut Vec<PlannedChunk>,
    changed: bool,
    body: Vec<u8>,
) -> Result<(), Stop>
    requires working { (known_of file.old).broken ≡ None }
    requires stand { All (MayStand (known_of file.old).shape.pieces) plan.old.items }
    requires small { length body.items ≤ 65536 }
    requires bytes { All IsByte body.items }
    ensures put { OnOk result (PutsInfoList D.state file.old changed body.items plan.old plan.new) }
    ensures stand { OnOk result (All (MayStand (known_of file.old).shape.pieces) plan.new.items) }
    ensures few { OnOk result (length plan.new.items ≤ length plan.old.items + 1) }
    ensures no_more { OnOk result (bytes_planned plan.new.items ≤ bytes_planned plan.old.items) }
    ensures looks { Looks D.Disk file.old file.new result }
    ensures asked { AsksAtMost D.state (4 * length plan.old.items) (disk_of file.old) (disk_of file.new) }
{
    if !changed {
        return Ok(());
    }
    let at = info_place(file, plan)?;
    put_at(plan, at, PlannedChunk::Given(LIST, body))
}

/// The chunks of the file that is made, with these bodies of those that are changed.
pub(crate) fn chunks_of<D: Disk>(
    alloc: Global,
    summary: Summary,
    bodies: Bodies,
    file: &mut File<'_, D, Read>,
) -> Result<Vec<PlannedChunk>, Stop>
    requires working { (known_of file.old).broken ≡ None }
    requires small { are_too_large bodies.extension.items bodies.texts.items ≡ false }
    requires bytes { All IsByte bodies.extension.items × All IsByte bodies.texts.items }
    ensures chunks { IfOkStanding D.state file.old result (HasChunks summary bodies) }
    ensures plan { IfOk result (λ plan. IsPlan (known_of file.old).shape.pieces plan.items) }
    ensures looks { Looks D.Disk file.old file.new result }
    ensures asked { AsksAtMost D.state 1024 (disk_of file.old) (disk_of file.new) }
{
    let Bodies { extension, texts } = bodies;
    let mut plan = kept_chunks(alloc, file.pieces())?;
    put_extension(&mut plan, summary.fields, extension)?;
    put_info_list(file, &mut plan, summary.texts, texts)?;
    Ok(plan)
}

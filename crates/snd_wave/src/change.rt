//! The head that a disk holds, changed as a piece is put into it.

ghost use Rattle.std.specs.Prelude.{◌≡◌, IfErr, OnOk, is_some};
ghost use Rattle.snd_disk.specs.Device.{AsksAtMost, GoesOnFrom, OnlyReadsOn, WritesAtMost};
ghost use Rattle.snd_layout.specs.declared.error.PieceError.TheVariants.{Memory};
ghost use Rattle.snd_wave.specs.Changes.{CanChange, IsChanged};
ghost use Rattle.snd_chunks.specs.Heads.{CountsPutting, new_piece};

use crate::plan::Plan;
use crate::rest::{Closing, rest_of};
use snd_chunks::replace_from;
use snd_disk::Disk;
use snd_fields::Id4;
use snd_layout::PieceError;
use std::alloc::Global;

/// Changes the head that a disk holds as it was planned: the piece, those behind it and what closes the
/// head are put from the piece's place on, and then the size of the whole. It reads the pieces behind it,
/// and writes at most 16777216 bytes. The answer is `DiskFault` where a call of the disk failed, and
/// `Memory` where there is none: then nothing was changed.
pub fn change_head<D: Disk>(
    alloc: Global,
    disk: &mut D,
    plan: &Plan,
    closing: &Closing,
    id: Id4,
    body: &[u8],
) -> Result<(), PieceError>
    requires { CanChange plan.now closing.now (new_piece id.0 body.now) (D.state disk.old).size }
    ensures done { OnOk result (IsChanged plan.now closing.now (new_piece id.0 body.now) (D.state disk.old) (D.state disk.new)) }
    ensures unchanged { IfErr result (λ e. e ≡ Memory → OnlyReadsOn D.state D.may_leave D.left_between disk.old disk.new) }
    ensures faults { CountsPutting D.state disk.old disk.new result }
    ensures name { (D.state disk.new).name ≡ (D.state disk.old).name }
    ensures told { is_some (D.state disk.new).contents ≡ is_some (D.state disk.old).contents }
    ensures time { GoesOnFrom D.state D.left_between disk.old disk.new }
    ensures written { WritesAtMost D.state 16777216 disk.old disk.new }
    ensures asked { AsksAtMost D.state plan.now.count disk.old disk.new }
{
    let rest = rest_of(alloc, disk, plan, closing, id, body)?;
    match replace_from(
        disk,
        plan.at,
        rest.as_slice(),
        closing.size_at,
        closing.size.as_slice(),
    ) {
        Ok(()) => Ok(()),
        Err(step) => Err(PieceError::DiskFault(step)),
    }
}

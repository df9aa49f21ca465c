//! A further chunk that is put into the head of a file.

ghost use Rattle.std.specs.Prelude.{◌≡◌, ◌≤◌, ◌==◌, ◌<◌, IfErr, OnErr, OnOk, if◌then◌else◌, length};
ghost use Rattle.snd_disk.specs.Device.{AsksAtMost, GoesOnFrom, OnlyReadsOn, WritesAtMost};
ghost use Rattle.snd_layout.specs.declared.error.PieceError.TheVariants.{Memory};
ghost use Rattle.snd_layout.specs.Params.{AreParams};
ghost use Rattle.snd_layout.specs.Shape.{KeepsRule};
ghost use Rattle.snd_container.specs.Put.{HoldsHead, MayBePieceOf, PutsPiece};
ghost use Rattle.snd_patch.specs.Steps.{StillTells};
ghost use Rattle.snd_chunks.specs.Heads.{CountsPutting, new_piece};

use crate::frames::keeps_rules;
use snd_container::put_piece;
use snd_disk::Disk;
use snd_fields::Id4;
use snd_layout::{Layout, PieceError};

/// Puts a chunk into the head of a layout, and tells what holds of the layout then.
pub fn put_ruled<D: Disk>(
    disk: &mut D,
    layout: &mut Layout,
    place: usize,
    id: Id4,
    body: &[u8],
) -> Result<(), PieceError>
    requires head { HoldsHead (D.state disk.old) layout.old }
    requires place { place ≤ length layout.old.pieces }
    requires few { place < 240 }
    requires may { MayBePieceOf layout.old.kind (new_piece id.0 body.now) }
    ensures rule { OnOk result (KeepsRule layout.new) }
    ensures params { OnOk result (AreParams layout.new.params) }
    ensures put { OnOk result (PutsPiece D.state disk.old disk.new layout.old layout.new place (new_piece id.0 body.now)) }
    ensures head { OnOk result (HoldsHead (D.state disk.new) layout.new) }
    ensures kept { OnErr result (layout.new ≡ layout.old) }
    ensures unchanged { IfErr result (λ e. e ≡ Memory → OnlyReadsOn D.state D.may_leave D.left_between disk.old disk.new) }
    ensures faults { CountsPutting D.state disk.old disk.new result }
    ensures tells { StillTells (D.state disk.old) (D.state disk.new) }
    ensures time { GoesOnFrom D.state D.left_between disk.old disk.new }
    ensures written { WritesAtMost D.state 16777216 disk.old disk.new }
    ensures asked { AsksAtMost D.state (if place == length layout.old.pieces then 0 else 16711680) disk.old disk.new }
{
    put_piece(disk, layout, place, id, body)?;
    keeps_rules(layout);
    Ok(())
}

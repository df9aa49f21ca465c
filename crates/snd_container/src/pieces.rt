//! Pieces that are put into files of every kind that are made.

ghost use Rattle.std.specs.Prelude.{◌≡◌, ◌<◌, ◌≤◌, ◌==◌, IfErr, OnErr, OnOk, if◌then◌else◌, is_some, length};
ghost use Rattle.snd_disk.specs.Device.{AsksAtMost, GoesOnFrom, OnlyReadsOn, WritesAtMost};
ghost use Rattle.snd_layout.specs.declared.error.PieceError.TheVariants.{Memory};
ghost use Rattle.snd_chunks.specs.Heads.{CountsPutting, new_piece};
ghost use Rattle.snd_container.specs.Put.{AddsPiece, HoldsHead, MayBePieceOf, PutsPiece};

use snd_disk::Disk;
use snd_fields::Id4;
use snd_layout::{Kind, Layout, PieceError};

/// Puts a piece into a file that is made, in the place of the piece at `place`, or behind them all where
/// `place` is their number. The disk holds the head of the layout, with no frames; afterwards it holds
/// the head with that piece, and the layout is that of this head. The kind lets the identifier be a
/// piece's, the body has at most 65536 bytes, and at most 240 pieces stand afterwards.
///
/// It writes at most 16777216 bytes. It reads none where it adds a piece, and at most 16711680 where it
/// replaces one. The answer is `DiskFault` where a call of the disk failed: what the disk holds then is
/// not said. It is `Memory` where there is none: then nothing was changed.
pub fn put_piece<D: Disk>(
    disk: &mut D,
    layout: &mut Layout,
    place: usize,
    id: Id4,
    body: &[u8],
) -> Result<(), PieceError>
    requires head { HoldsHead (D.state disk.old) layout.old }
    requires place { place ≤ length layout.old.pieces }
    requires few { place < 240 }
    requires may { MayBePieceOf layout.old.kind (new_piece id.0 body.now) }
    ensures put { OnOk result (PutsPiece D.state disk.old disk.new layout.old layout.new place (new_piece id.0 body.now)) }
    ensures head { OnOk result (HoldsHead (D.state disk.new) layout.new) }
    ensures kept { OnErr result (layout.new ≡ layout.old) }
    ensures unchanged { IfErr result (λ e. e ≡ Memory → OnlyReadsOn D.state D.may_leave D.left_between disk.old disk.new) }
    ensures faults { CountsPutting D.state disk.old disk.new result }
    ensures name { (D.state disk.new).name ≡ (D.state disk.old).name }
    ensures told { is_some (D.state disk.new).contents ≡ is_some (D.state disk.old).contents }
    ensures time { GoesOnFrom D.state D.left_between disk.old disk.new }
    ensures written { WritesAtMost D.state 16777216 disk.old disk.new }
    ensures asked { AsksAtMost D.state (if place == length layout.old.pieces then 0 else 16711680) disk.old disk.new }
{
    match layout.kind {
        Kind::Wave => snd_wave::put_piece(disk, layout, place, id, body),
        Kind::Rf64 => snd_rf64::put_piece(disk, layout, place, id, body),
        Kind::Svx => snd_svx::put_piece(disk, layout, place, id, body),
        Kind::W64 | Kind::Au | Kind::Dns | Kind::Voc | Kind::Sphere => unreachable!(),
    }
}

/// Puts a piece behind the others of a file that is made, under the conditions and with the answers of
/// `put_piece`. It reads nothing.
pub fn add_piece<D: Disk>(
    disk: &mut D,
    layout: &mut Layout,
    id: Id4,
    body: &[u8],
) -> Result<(), PieceError>
    requires head { HoldsHead (D.state disk.old) layout.old }
    requires few { length layout.old.pieces < 240 }
    requires may { MayBePieceOf layout.old.kind (new_piece id.0 body.now) }
    ensures added { OnOk result (AddsPiece D.state disk.old disk.new layout.old layout.new (new_piece id.0 body.now)) }
    ensures head { OnOk result (HoldsHead (D.state disk.new) layout.new) }
    ensures kept { OnErr result (layout.new ≡ layout.old) }
    ensures unchanged { IfErr result (λ e. e ≡ Memory → OnlyReadsOn D.state D.may_leave D.left_between disk.old disk.new) }
    ensures faults { CountsPutting D.state disk.old disk.new result }
    ensures name { (D.state disk.new).name ≡ (D.state disk.old).name }
    ensures told { is_some (D.state disk.new).contents ≡ is_some (D.state disk.old).contents }
    ensures time { GoesOnFrom D.state D.left_between disk.old disk.new }
    ensures written { WritesAtMost D.state 16777216 disk.old disk.new }
    ensures asked { (D.state disk.new).asked ≡ (D.state disk.old).asked }
{
    let place = layout.pieces.len();
    put_piece(disk, layout, place, id, body)
}

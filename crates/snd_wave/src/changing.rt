//! Pieces that are put into a file that is made.

ghost use Rattle.std.specs.Prelude.{◌≡◌, ◌<◌, ◌≤◌, ◌^◌, ◌==◌, All, IfErr, IfSome, None, OnErr, OnOk, if◌then◌else◌, is_some, length};
ghost use Rattle.snd_disk.specs.Device.{AsksAtMost, GoesOnFrom, OnlyReadsOn, WritesAtMost};
ghost use Rattle.snd_layout.specs.Fit.{fit_refusal};
ghost use Rattle.snd_layout.specs.Shape.{IsPlaced, IsReserve};
ghost use Rattle.snd_layout.specs.declared.error.PieceError.TheVariants.{Memory};
ghost use Rattle.snd_layout.specs.declared.kind.Kind.TheVariants.{Wave};
ghost use Rattle.snd_chunks.specs.Heads.{CountsPutting, HoldsHeadIn, PutsPieceIn, new_piece};
ghost use Rattle.snd_wave.specs.Put.{head_shape, reserved_heads};
ghost use Rattle.snd_wave.specs.Written.{MayBePiece};

use crate::change::change_head;
use crate::closing::{closing_of, first_place};
use crate::head::{inner_of, side_of};
use crate::plan::{Plan, plan_piece};
use snd_disk::Disk;
use snd_fields::Id4;
use snd_layout::{Field, Kind, Layout, Params, PieceError, PieceList};
use std::alloc::Global;

// The layout of a head without frames whose data begin at a place.
fn layout_with(params: Params, start: u64, reserve: Option<u32>, pieces: PieceList) -> Layout
    requires fits { fit_refusal Wave params ≡ None }
    requires least { 44 ≤ start }
    requires most { start < 2 ^ 32 }
    requires reserve { IfSome reserve (IsReserve Wave params.codec start) }
    requires placed { All IsPlaced pieces }
    ensures { result ≡ head_shape reserve params start pieces }
{
    params.are_good();
    Layout {
        kind: Kind::Wave,
        params,
        start,
        frames: 0,
        declared: 0,
        inner: inner_of(&params, start),
        outer: Some(Field { at: 4, size: 4 }),
        side: side_of(&params, start),
        trailing: false,
        unknown_length: false,
        reserve,
        pieces,
    }
}

/// Puts a piece into a WAVE file that is made, in the place of the piece at `place`, or behind them all
/// where `place` is their number. The disk holds the head of the layout, with no frames; afterwards it
/// holds the head with that piece, and the layout is that of this head. A reservation stays. The
/// identifier may be a piece's, the body has at most 65536 bytes, and at most 240 pieces stand afterwards.
///
/// It writes at most 16777216 bytes. It reads none where it adds a piece, and at most 16711680 where it
/// replaces one. The answer is `DiskFault` where a call of the disk failed: what the disk holds then is
/// not said. It is `Memory` where there is none: then nothing was changed.
pub fn put_piece<D: Disk>(
    disk: &mut D,
    layout: &mut Layout,
    place: usize,
    id: Id4,
    body: &[u8],
) -> Result<(), PieceError>
    requires head { HoldsHeadIn (reserved_heads layout.old.reserve) (D.state disk.old) layout.old }
    requires place { place ≤ length layout.old.pieces }
    requires few { place < 240 }
    requires may { MayBePiece (new_piece id.0 body.now) }
    ensures put { OnOk result (PutsPieceIn (reserved_heads layout.old.reserve) D.state disk.old disk.new layout.old layout.new place (new_piece id.0 body.now)) }
    ensures head { OnOk result (HoldsHeadIn (reserved_heads layout.old.reserve) (D.state disk.new) layout.new) }
    ensures kept { OnErr result (layout.new ≡ layout.old) }
    ensures unchanged { IfErr result (λ e. e ≡ Memory → OnlyReadsOn D.state D.may_leave D.left_between disk.old disk.new) }
    ensures faults { CountsPutting D.state disk.old disk.new result }
    ensures name { (D.state disk.new).name ≡ (D.state disk.old).name }
    ensures told { is_some (D.state disk.new).contents ≡ is_some (D.state disk.old).contents }
    ensures time { GoesOnFrom D.state D.left_between disk.old disk.new }
    ensures written { WritesAtMost D.state 16777216 disk.old disk.new }
    ensures asked { AsksAtMost D.state (if place == length layout.old.pieces then 0 else 16711680) disk.old disk.new }
{
    let alloc = layout.pieces.allocator();
    let first = first_place(&layout.params, layout.reserve);
    let plan = plan_piece(&layout.pieces, first, place, id, body)?;
    let closing = closing_of(&layout.params, plan.end);
    change_head(alloc, disk, &plan, &closing, id, body)?;
    let start = plan.end + closing.bytes.len() as u64;
    let Plan { pieces, .. } = plan;
    *layout = layout_with(layout.params, start, layout.reserve, pieces);
    Ok(())
}

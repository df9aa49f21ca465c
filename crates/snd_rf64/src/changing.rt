//! Pieces that are put into a file that is made.

ghost use Rattle.std.specs.Prelude.{◌≡◌, ◌+◌, ◌-◌, ◌<◌, ◌≤◌, ◌^◌, ◌==◌, All, IfErr, None, false, OnErr, OnOk, if◌then◌else◌, is_some, length};
ghost use Rattle.snd_disk.specs.Device.{AsksAtMost, GoesOnFrom, OnlyReadsOn, WritesAtMost};
ghost use Rattle.snd_fields.specs.Field.{bytes_of};
ghost use Rattle.snd_fields.specs.declared.field.Order.TheVariants.{Little};
ghost use Rattle.snd_layout.specs.Fit.{fit_refusal};
ghost use Rattle.snd_layout.specs.Shape.{IsPlaced};
ghost use Rattle.snd_layout.specs.declared.error.PieceError.TheVariants.{Memory};
ghost use Rattle.snd_layout.specs.declared.kind.Kind.TheVariants.{Rf64};
ghost use Rattle.snd_rf64.specs.Layout.{shape_at};
ghost use Rattle.snd_rf64.specs.Put.{data_head, first_place, rf64_heads};
ghost use Rattle.snd_chunks.specs.Heads.{CountsPutting, HoldsHeadIn, PutsPieceIn, new_piece};
ghost use Rattle.snd_wave.specs.Written.{MayBePiece};

use crate::head::{NO_SIZE, plain_start};
use crate::layout::{INNER, OUTER, SIDE};
use crate::values::NOT_COUNTED;
use arrayvec::ArrayVec;
use snd_disk::Disk;
use snd_fields::{Id4, Order, put_all, put_long, put_number};
use snd_layout::{Kind, Layout, Params, PieceError, PieceList};
use snd_wave::{Closing, Plan, change_head, plan_piece};

/// The head of a chunk: its identifier and its size.
const HEAD_SIZE: u64 = 8;

// The layout of a head without frames whose data begin at a place.
fn layout_with(params: Params, start: u64, pieces: PieceList) -> Layout
    requires fits { fit_refusal Rf64 params ≡ None }
    requires least { 56 ≤ start }
    requires most { start < 2 ^ 32 }
    requires placed { All IsPlaced pieces }
    ensures { result ≡ shape_at params start 0 0 false pieces }
{
    params.are_good();
    Layout {
        kind: Kind::Rf64,
        params,
        start,
        frames: 0,
        declared: 0,
        inner: INNER,
        outer: Some(OUTER),
        side: Some(SIDE),
        trailing: false,
        unknown_length: false,
        reserve: None,
        pieces,
    }
}

// The place behind the format.
fn first_place(params: &Params) -> u64
    requires { fit_refusal Rf64 params.now ≡ None }
    ensures place { result ≡ first_place params.now }
    ensures least { 72 ≤ result }
    ensures most { result ≤ 74 }
{
    plain_start(params) - HEAD_SIZE
}

// How a head is closed whose pieces end at a place.
fn closing_of(end: u64) -> Closing
    requires { end < 2 ^ 32 }
    ensures order { result.order ≡ Little }
    ensures bytes { result.bytes.items ≡ data_head }
    ensures size_at { result.size_at ≡ 20 }
    ensures size { result.size.items ≡ bytes_of Little 8 (end + length result.bytes.items - 8) }
{
    let mut bytes = ArrayVec::new();
    put_all(&mut bytes, b"data");
    put_number(&mut bytes, Order::Little, NO_SIZE);
    let mut size = ArrayVec::new();
    put_long(&mut size, end + HEAD_SIZE - NOT_COUNTED);
    Closing {
        order: Order::Little,
        bytes,
        size_at: OUTER.at,
        size,
    }
}

/// Puts a piece into an RF64 file that is made, in the place of the piece at `place`, or behind them all
/// where `place` is their number. The disk holds the head of the layout, with no frames; afterwards it
/// holds the head with that piece, and the layout is that of this head. The identifier may be a piece's,
/// the body has at most 65536 bytes, and at most 240 pieces stand afterwards.
///
/// It writes at most 16777216 bytes. It reads none where it adds a piece, and at most 16711680 where it
/// replaces one. The answer is `DiskFault` where a call of the disk failed: what the disk holds then is
/// not said. It is `Memory` where there is none: then nothing was changed.
pub fn put_piece<D: Disk>(
    disk: &mut D,
    layout: &mut Layout,
    place: usize,
    id: Id4,
    body: &[u8],
) -> Result<(), PieceError>
    requires head { HoldsHeadIn rf64_heads (D.state disk.old) layout.old }
    requires place { place ≤ length layout.old.pieces }
    requires few { place < 240 }
    requires may { MayBePiece (new_piece id.0 body.now) }
    ensures put { OnOk result (PutsPieceIn rf64_heads D.state disk.old disk.new layout.old layout.new place (new_piece id.0 body.now)) }
    ensures head { OnOk result (HoldsHeadIn rf64_heads (D.state disk.new) layout.new) }
    ensures kept { OnErr result (layout.new ≡ layout.old) }
    ensures unchanged { IfErr result (λ e. e ≡ Memory → OnlyReadsOn D.state D.may_leave D.left_between disk.old disk.new) }
    ensures faults { CountsPutting D.state disk.old disk.new result }
    ensures name { (D.state disk.new).name ≡ (D.state disk.old).name }
    ensures told { is_some (D.state disk.new).contents ≡ is_some (D.state disk.old).contents }
    ensures time { GoesOnFrom D.state D.left_between disk.old disk.new }
    ensures written { WritesAtMost D.state 16777216 disk.old disk.new }
    ensures asked { AsksAtMost D.state (if place == length layout.old.pieces then 0 else 16711680) disk.old disk.new }
{
    let alloc = layout.pieces.allocator();
    let plan = plan_piece(&layout.pieces, first_place(&layout.params), place, id, body)?;
    let closing = closing_of(plan.end);
    change_head(alloc, disk, &plan, &closing, id, body)?;
    let start = plan.end + closing.bytes.len() as u64;
    let Plan { pieces, .. } = plan;
    *layout = layout_with(layout.params, start, pieces);
    Ok(())
}

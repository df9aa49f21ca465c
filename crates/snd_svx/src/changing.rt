//! Pieces that are put into a file that is made.

ghost use Rattle.std.specs.Prelude.{◌≡◌, ◌+◌, ◌-◌, ◌<◌, ◌≤◌, ◌^◌, ◌==◌, All, IfErr, None, OnErr, OnOk, false, if◌then◌else◌, is_some, length};
ghost use Rattle.arrayvec.specs.ArrayVec.{array_vec_len};
ghost use Rattle.snd_disk.specs.Device.{AsksAtMost, GoesOnFrom, OnlyReadsOn, WritesAtMost};
ghost use Rattle.snd_fields.specs.Field.{bytes_of};
ghost use Rattle.snd_fields.specs.declared.field.Order.TheVariants.{Big};
ghost use Rattle.snd_layout.specs.Fit.{fit_refusal};
ghost use Rattle.snd_layout.specs.Shape.{IsPlaced};
ghost use Rattle.snd_layout.specs.declared.error.PieceError.TheVariants.{Memory};
ghost use Rattle.snd_layout.specs.declared.kind.Kind.TheVariants.{Svx};
ghost use Rattle.snd_chunks.specs.Heads.{CountsPutting, HoldsHeadIn, PutsPieceIn, new_piece};
ghost use Rattle.snd_svx.specs.Layout.{shape_of};
ghost use Rattle.snd_svx.specs.Put.{closing_behind, svx_heads};
ghost use Rattle.snd_svx.specs.Written.{MayBePiece};

use crate::head::COUNT_AT;
use crate::layout::FORM_SIZE;
use arrayvec::ArrayVec;
use snd_disk::Disk;
use snd_fields::{Id4, Order, put_all, put_number};
use snd_layout::{Field, Kind, Layout, Params, PieceError, PieceList};
use snd_wave::{Closing, Plan, change_head, plan_piece, put_filler};

/// The place behind the voice header.
const FIRST_PLACE: u64 = 40;

/// The head of a chunk: its identifier and its size.
const HEAD_SIZE: u64 = 8;

/// The bytes at the beginning that the size of the whole does not count.
const NOT_COUNTED: u64 = 8;

// The size of a body that begins at a place.
fn inner_of(start: u64) -> Field
    requires { 4 ≤ start }
    ensures { result ≡ record { at = start - 4; size = 4 } }
{
    Field {
        at: start - 4,
        size: 4,
    }
}

// The layout of a head without frames whose data begin at a place.
fn layout_with(params: Params, start: u64, pieces: PieceList) -> Layout
    requires fits { fit_refusal Svx params ≡ None }
    requires least { 48 ≤ start }
    requires most { start < 2 ^ 32 }
    requires placed { All IsPlaced pieces }
    ensures { result ≡ shape_of params start 0 0 20 false pieces }
{
    params.are_good();
    Layout {
        kind: Kind::Svx,
        params,
        start,
        frames: 0,
        declared: 0,
        inner: inner_of(start),
        outer: Some(FORM_SIZE),
        side: Some(Field {
            at: COUNT_AT,
            size: 4,
        }),
        trailing: false,
        unknown_length: false,
        reserve: None,
        pieces,
    }
}

// What stands in a head whose pieces end at a place: the filler where it is needed, and the head of a body
// of no bytes.
fn closing_bytes(end: u64) -> ArrayVec<u8, 128>
    requires { end < 2 ^ 32 }
    ensures items { result.items ≡ closing_behind end }
    ensures least { 8 ≤ array_vec_len result }
    ensures few { array_vec_len result ≤ 24 }
{
    let mut bytes = ArrayVec::new();
    put_filler(&mut bytes, Order::Big, inner_of(end + HEAD_SIZE));
    put_all(&mut bytes, b"BODY");
    put_number(&mut bytes, Order::Big, 0);
    bytes
}

// How a head is closed whose pieces end at a place.
fn closing_of(end: u64) -> Closing
    requires { end < 2 ^ 32 }
    ensures order { result.order ≡ Big }
    ensures bytes { result.bytes.items ≡ closing_behind end }
    ensures least { 8 ≤ length result.bytes.items }
    ensures few { length result.bytes.items ≤ 24 }
    ensures size_at { result.size_at ≡ 4 }
    ensures size { result.size.items ≡ bytes_of Big 4 (end + length result.bytes.items - 8) }
{
    let bytes = closing_bytes(end);
    let mut size = ArrayVec::new();
    put_number(
        &mut size,
        Order::Big,
        end + bytes.len() as u64 - NOT_COUNTED,
    );
    Closing {
        order: Order::Big,
        bytes,
        size_at: FORM_SIZE.at,
        size,
    }
}

/// Puts a piece into an 8SVX file that is made, in the place of the piece at `place`, or behind them all
/// where `place` is their number. The disk holds the head of the layout, with no frames; afterwards it
/// holds the head with that piece, and the layout is that of this head. The identifier may be a piece's,
/// the body has at most 65536 bytes, and at most 240 pieces stand afterwards.
///
/// It writes at most 16777216 bytes. It reads none where it adds a piece, and at most 16711680 where it
/// replaces one. The answer is `DiskFault` where a call of the disk failed: what the disk holds then is
/// not said. It is `Memory` where there is none: then nothing was changed.
pub fn put_piece<D: Disk>(
    disk: &mut D,
    layout: &mut Layout,
    place: usize,
    id: Id4,
    body: &[u8],
) -> Result<(), PieceError>
    requires head { HoldsHeadIn svx_heads (D.state disk.old) layout.old }
    requires place { place ≤ length layout.old.pieces }
    requires few { place < 240 }
    requires may { MayBePiece (new_piece id.0 body.now) }
    ensures put { OnOk result (PutsPieceIn svx_heads D.state disk.old disk.new layout.old layout.new place (new_piece id.0 body.now)) }
    ensures head { OnOk result (HoldsHeadIn svx_heads (D.state disk.new) layout.new) }
    ensures kept { OnErr result (layout.new ≡ layout.old) }
    ensures unchanged { IfErr result (λ e. e ≡ Memory → OnlyReadsOn D.state D.may_leave D.left_between disk.old disk.new) }
    ensures faults { CountsPutting D.state disk.old disk.new result }
    ensures name { (D.state disk.new).name ≡ (D.state disk.old).name }
    ensures told { is_some (D.state disk.new).contents ≡ is_some (D.state disk.old).contents }
    ensures time { GoesOnFrom D.state D.left_between disk.old disk.new }
    ensures written { WritesAtMost D.state 16777216 disk.old disk.new }
    ensures asked { AsksAtMost D.state (if place == length layout.old.pieces then 0 else 16711680) disk.old disk.new }
{
    let alloc = layout.pieces.allocator();
    let plan = plan_piece(&layout.pieces, FIRST_PLACE, place, id, body)?;
    let closing = closing_of(plan.end);
    change_head(alloc, disk, &plan, &closing, id, body)?;
    let start = plan.end + closing.bytes.len() as u64;
    let Plan { pieces, .. } = plan;
    *layout = layout_with(layout.params, start, pieces);
    Ok(())
}

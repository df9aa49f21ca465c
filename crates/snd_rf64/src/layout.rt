//! What an RF64 file says of itself.

ghost use Rattle.std.specs.Prelude.{◌≡◌, ◌+◌, ◌<◌, ◌≤◌, ◌^◌, All, IfOk, None, nat_lt};
ghost use Rattle.snd_chunks.specs.Walks.{CountsWalk, EndsBy};
ghost use Rattle.snd_disk.specs.Device.{AsksAtMost, IfOkTold, OnlyReadsOn};
ghost use Rattle.snd_layout.specs.Fit.{fit_refusal};
ghost use Rattle.snd_layout.specs.Format.{format_of};
ghost use Rattle.snd_layout.specs.Opened.{CountsOpening, EndsIn, OpensAs};
ghost use Rattle.snd_layout.specs.Params.{data_bytes};
ghost use Rattle.snd_layout.specs.Shape.{IsPlaced, end, room};
ghost use Rattle.snd_layout.specs.declared.kind.Kind.TheVariants.{Rf64};
ghost use Rattle.snd_rf64.specs.Layout.{fitted, rf64_layout};
ghost use Rattle.snd_rf64.specs.Parts.{ArePlaced, AreSizes, IsHeld, all_pieces, layout_with, shape_of};
ghost use Rattle.snd_chunks.specs.Parts.{body_of, whole_frames};

use crate::ends::{Ends, ends_of};
use crate::sizes::{Sizes, read_sizes};
use snd_chunks::{Chunk, Front, Parts, WalkError, parts_of, read_format, walk_front, walk_tail};
use snd_disk::{Disk, Step};
use snd_fields::{Id4, Order};
use snd_layout::{Field, Kind, Layout, OpenError, Params, PieceList};
use snd_wave::add_pieces;
use std::alloc::Global;

/// How many chunks there are at most but for `ds64` and the data.
const MOST_CHUNKS: usize = 255;

/// The identifier of the chunk that holds the data.
const DATA: Id4 = Id4(*b"data");

/// The bytes of the count of a `fact`, which is not read.
const COUNT_SIZE: u8 = 4;

/// The size of the whole, in `ds64`.
pub(crate) const OUTER: Field = Field { at: 20, size: 8 };

/// The data size.
pub(crate) const INNER: Field = Field { at: 28, size: 8 };

/// The count that is not read.
pub(crate) const SIDE: Field = Field { at: 36, size: 8 };

// The frames of so many data bytes.
fn whole_frames(params: &Params, bytes: u64) -> u64
    requires { fit_refusal Rf64 params.now ≡ None }
    ensures { result ≡ whole_frames params.now bytes }
{
    params.are_good();
    bytes / u64::from(params.block_align())
}

// The layout that the parameters, the data size, the ends and the pieces give.
fn layout_of(params: Params, start: u64, sound: u64, ends: Ends, pieces: PieceList) -> Layout
    requires fits { fit_refusal Rf64 params ≡ None }
    requires least { 56 ≤ start }
    requires most { start < 2 ^ 62 }
    requires held { start + ends.held + 8 ≤ 2 ^ 63 }
    requires few { ends.held ≤ sound }
    requires sound { sound < 2 ^ 63 }
    requires pieces { All IsPlaced pieces }
    ensures value { result ≡ shape_of params start sound ends pieces }
    ensures short { data_bytes result.params result.frames ≤ ends.held }
{
    params.are_good();
    Layout {
        kind: Kind::Rf64,
        params,
        start,
        frames: whole_frames(&params, ends.held),
        declared: sound,
        inner: INNER,
        outer: Some(OUTER),
        side: Some(SIDE),
        trailing: ends.data_end < ends.outer_end,
        unknown_length: false,
        reserve: None,
        pieces,
    }
}

// The pieces before the data and behind them.
fn find_pieces<D: Disk>(
    alloc: Global,
    disk: &mut D,
    size: u64,
    front: &Front,
    ends: Ends,
) -> Result<PieceList, WalkError>
    requires size { size ≡ (D.state disk.old).size }
    requires whole { All (EndsBy size) front.now.chunks }
    requires outer { ends.outer_end ≤ size }
    ensures told { IfOkTold D.state disk.old result (λ b pieces. pieces ≡ all_pieces b front.now ends) }
    ensures held { IfOk result (All (EndsIn size)) }
    ensures faults { CountsWalk D.state disk.old disk.new result }
    ensures reads { OnlyReadsOn D.state D.may_leave D.left_between disk.old disk.new }
    ensures asked { AsksAtMost D.state 2040 disk.old disk.new }
{
    let most = MOST_CHUNKS.saturating_sub(front.chunks.len());
    let tail = walk_tail(
        alloc,
        disk,
        Order::Little,
        size,
        ends.outer_end,
        ends.data_end,
        most,
    )?;
    let mut pieces = PieceList::new(alloc);
    add_pieces(&mut pieces, front.chunks.as_slice(), false)?;
    add_pieces(&mut pieces, tail.as_slice(), true)?;
    Ok(pieces)
}

// The parameters that a format states, or why it is refused.
fn read_params<D: Disk>(disk: &mut D, format: Chunk) -> Result<Params, OpenError>
    requires within { format.at + format.len ≤ (D.state disk.old).size }
    requires long { 16 ≤ format.len }
    ensures told { OpensAs D.state disk.old (λ b. fitted (format_of (body_of b format))) result }
    ensures fits { IfOk result (λ p. fit_refusal Rf64 p ≡ None) }
    ensures faults { CountsOpening D.state disk.old disk.new result }
    ensures reads { OnlyReadsOn D.state D.may_leave D.left_between disk.old disk.new }
    ensures asked { AsksAtMost D.state 50 disk.old disk.new }
{
    let params = read_format(disk, format)?;
    match Kind::Rf64.refusal_of(&params) {
        Some(refusal) => Err(OpenError::Refused(refusal)),
        None => Ok(params),
    }
}

// The layout of a file with these parts, or why its format is refused.
fn layout_at<D: Disk>(
    alloc: Global,
    disk: &mut D,
    size: u64,
    sizes: Sizes,
    front: &Front,
    parts: Parts,
) -> Result<Layout, OpenError>
    requires size { size ≡ (D.state disk.old).size }
    requires sizes { AreSizes sizes }
    requires whole { All (EndsBy size) front.now.chunks }
    requires placed { ArePlaced size sizes parts }
    ensures told { OpensAs D.state disk.old (λ b. layout_with b sizes front.now parts) result }
    ensures held { IfOk result (IsHeld size) }
    ensures faults { CountsOpening D.state disk.old disk.new result }
    ensures reads { OnlyReadsOn D.state D.may_leave D.left_between disk.old disk.new }
    ensures asked { AsksAtMost D.state 2090 disk.old disk.new }
{
    let params = read_params(disk, parts.format)?;
    let start = parts.sound.at;
    let ends = ends_of(size, sizes, start);
    let pieces = find_pieces(alloc, disk, size, front, ends)?;
    Ok(layout_of(params, start, sizes.sound, ends, pieces))
}

// The layout of a file of this size, or why it is refused.
fn find_layout<D: Disk>(alloc: Global, disk: &mut D, size: u64) -> Result<Layout, OpenError>
    requires { size ≡ (D.state disk.old).size }
    ensures told { OpensAs D.state disk.old rf64_layout result }
    ensures held { IfOk result (IsHeld size) }
    ensures faults { CountsOpening D.state disk.old disk.new result }
    ensures reads { OnlyReadsOn D.state D.may_leave D.left_between disk.old disk.new }
    ensures asked { AsksAtMost D.state 4186 disk.old disk.new }
{
    let sizes = read_sizes(disk, size)?;
    let front = walk_front(
        alloc,
        disk,
        Order::Little,
        DATA,
        size,
        sizes.next,
        MOST_CHUNKS + 1,
    )?;
    let parts = parts_of(&front, COUNT_SIZE)?;
    layout_at(alloc, disk, size, sizes, &front, parts)
}

/// Reads what an RF64 file says of itself, after EBU Tech 3306 (2009). It reads heads, `ds64` and the
/// format alone, at most 8192 bytes, and never writes.
///
/// The answer is `Refused` with the first reason, by number, for which the file has no layout;
/// `DiskFault` where a call of the disk failed; `Memory` where there is none.
#[tactic(auto, using(snd_layout::proofs::Answered::opens_from))]
pub fn open_layout<D: Disk>(alloc: Global, disk: &mut D) -> Result<Layout, OpenError>
    ensures opened { OpensAs D.state disk.old rf64_layout result }
    ensures held { IfOk result (λ l. end l l.frames ≤ (D.state disk.old).size) }
    ensures room_ends { IfOk result (λ l. l.start + room l + 8 ≤ 2 ^ 63) }
    ensures pieces_held { IfOk result (λ l. All (EndsIn (D.state disk.old).size) l.pieces) }
    ensures faults { CountsOpening D.state disk.old disk.new result }
    ensures reads { OnlyReadsOn D.state D.may_leave D.left_between disk.old disk.new }
    ensures asked { AsksAtMost D.state 8192 disk.old disk.new }
{
    let Ok(size) = disk.len() else {
        return Err(OpenError::DiskFault(Step::Len));
    };
    find_layout(alloc, disk, size)
}

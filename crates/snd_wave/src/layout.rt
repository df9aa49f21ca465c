//! What a WAVE file says of itself.

ghost use Rattle.std.specs.Prelude.{◌≡◌, ◌+◌, ◌^◌, ◌<◌, ◌≤◌, None, All, IfSome, IfOk};
ghost use Rattle.snd_disk.specs.Device.{AsksAtMost, OnlyReadsOn, IfOkTold};
ghost use Rattle.snd_chunks.specs.Walks.{CountsWalk, EndsBy, IsSound};
ghost use Rattle.snd_layout.specs.Fit.{fit_refusal};
ghost use Rattle.snd_layout.specs.Opened.{CountsOpening, EndsIn, OpensAs};
ghost use Rattle.snd_layout.specs.Params.{data_bytes};
ghost use Rattle.snd_layout.specs.Shape.{IsPlaced, IsReserve, end, room};
ghost use Rattle.snd_layout.specs.declared.kind.Kind.TheVariants.{Wave};
ghost use Rattle.snd_wave.specs.Layout.{wave_layout};
ghost use Rattle.snd_chunks.specs.Parts.{IsFact};
ghost use Rattle.snd_wave.specs.Parts.{ArePlaced, IsBefore, IsHeld, all_pieces, layout_with, shape_of};

use crate::ends::{Ends, ends_of, frame_count};
use crate::pieces::add_pieces;
use crate::reads::{read_count, read_number};
use crate::reserve::reserve_of;
use snd_chunks::{
    Front, Parts, WalkError, inner_field, parts_of, read_format, side_field, walk_front, walk_tail,
};
use snd_disk::{Disk, Step};
use snd_fields::{Id4, Order};
use snd_layout::{Field, Kind, Layout, OpenError, Params, PieceList};
use std::alloc::Global;

/// The place of the first chunk, behind `RIFF`, its size and `WAVE`.
const FIRST_CHUNK: u64 = 12;

/// How many chunks a walk sees, but for the data.
const MOST_CHUNKS: usize = 256;

/// The identifier of the chunk that holds the data.
const DATA: Id4 = Id4(*b"data");

/// The bytes of a size and of a count.
const COUNT_SIZE: u8 = 4;

/// The head of a chunk: its identifier and its size.
const HEAD_SIZE: u8 = 8;

/// The size of the whole.
const RIFF_SIZE: Field = Field { at: 4, size: 4 };

// The layout that the parts, the count of the `fact`, the ends, the reservation and the pieces give.
fn layout_of(
    params: Params,
    parts: Parts,
    count: Option<u32>,
    ends: Ends,
    reserve: Option<u32>,
    pieces: PieceList,
) -> Layout
    requires fits { fit_refusal Wave params ≡ None }
    requires fact { IfSome parts.fact (IsFact 4 8 parts.sound) }
    requires sound { IsSound (2 ^ 63) 12 257 parts.sound }
    requires held { ends.held ≤ parts.sound.len }
    requires reserve { IfSome reserve (IsReserve Wave params.codec parts.sound.at) }
    requires pieces { All IsPlaced pieces }
    ensures value { result ≡ shape_of params parts count ends reserve pieces }
    ensures short { data_bytes result.params result.frames ≤ ends.held }
{
    params.are_good();
    let frames = frame_count(&params, ends.held, count);
    let inner = inner_field(&params, parts.fact, parts.sound, COUNT_SIZE, HEAD_SIZE);
    let side = side_field(&params, parts.fact, COUNT_SIZE);
    Layout {
        kind: Kind::Wave,
        params,
        start: parts.sound.at,
        frames,
        declared: parts.sound.len,
        inner,
        outer: Some(RIFF_SIZE),
        side,
        trailing: ends.data_end < ends.outer_end,
        unknown_length: false,
        reserve,
        pieces,
    }
}

// The pieces before the data and behind them.
fn find_pieces<D: Disk>(
    alloc: Global,
    disk: &mut D,
    size: u64,
    front: &Front,
    ends: Ends,
) -> Result<PieceList, WalkError>
    requires size { size ≡ (D.state disk.old).size }
    requires whole { All (EndsBy size) front.now.chunks }
    requires outer { ends.outer_end ≤ size }
    ensures told { IfOkTold D.state disk.old result (λ b pieces. pieces ≡ all_pieces b front.now ends) }
    ensures held { IfOk result (All (EndsIn size)) }
    ensures faults { CountsWalk D.state disk.old disk.new result }
    ensures reads { OnlyReadsOn D.state D.may_leave D.left_between disk.old disk.new }
    ensures asked { AsksAtMost D.state 2048 disk.old disk.new }
{
    let most = MOST_CHUNKS.saturating_sub(front.chunks.len());
    let tail = walk_tail(
        alloc,
        disk,
        Order::Little,
        size,
        ends.outer_end,
        ends.data_end,
        most,
    )?;
    let mut pieces = PieceList::new(alloc);
    add_pieces(&mut pieces, front.chunks.as_slice(), false)?;
    add_pieces(&mut pieces, tail.as_slice(), true)?;
    Ok(pieces)
}

// The layout of a file with these parts, or why its format is refused.
fn layout_at<D: Disk>(
    alloc: Global,
    disk: &mut D,
    size: u64,
    front: &Front,
    parts: Parts,
) -> Result<Layout, OpenError>
    requires size { size ≡ (D.state disk.old).size }
    requires whole { All (EndsBy size) front.now.chunks }
    requires placed { ArePlaced size parts }
    requires before { All (IsBefore parts.sound) front.now.chunks }
    ensures told { OpensAs D.state disk.old (λ b. layout_with b front.now parts) result }
    ensures held { IfOk result (IsHeld size) }
    ensures faults { CountsOpening D.state disk.old disk.new result }
    ensures reads { OnlyReadsOn D.state D.may_leave D.left_between disk.old disk.new }
    ensures asked { AsksAtMost D.state 2106 disk.old disk.new }
{
    let params = read_format(disk, parts.format)?;
    let count = read_count(disk, parts.fact)?;
    let riff = read_number(disk, RIFF_SIZE.at)?;
    let ends = ends_of(size, riff, parts.sound);
    let pieces = find_pieces(alloc, disk, size, front, ends)?;
    let reserve = reserve_of(&params, front.chunks.as_slice());
    Ok(layout_of(params, parts, count, ends, reserve, pieces))
}

// The layout of a file of this size, or why it is refused.
fn find_layout<D: Disk>(alloc: Global, disk: &mut D, size: u64) -> Result<Layout, OpenError>
    requires { size ≡ (D.state disk.old).size }
    ensures told { OpensAs D.state disk.old wave_layout result }
    ensures held { IfOk result (IsHeld size) }
    ensures faults { CountsOpening D.state disk.old disk.new result }
    ensures reads { OnlyReadsOn D.state D.may_leave D.left_between disk.old disk.new }
    ensures asked { AsksAtMost D.state 4162 disk.old disk.new }
{
    let front = walk_front(
        alloc,
        disk,
        Order::Little,
        DATA,
        size,
        FIRST_CHUNK,
        MOST_CHUNKS + 1,
    )?;
    let parts = parts_of(&front, COUNT_SIZE)?;
    layout_at(alloc, disk, size, &front, parts)
}

/// Reads what a WAVE file says of itself, after the RIFF specification of IBM and Microsoft (1991). It
/// reads heads and the format alone, at most 8192 bytes, and never writes.
///
/// The answer is `Refused` with the first reason, by number, for which the file has no layout;
/// `DiskFault` where a call of the disk failed; `Memory` where there is none.
#[tactic(auto, using(snd_layout::proofs::Answered::opens_from))]
pub fn open_layout<D: Disk>(alloc: Global, disk: &mut D) -> Result<Layout, OpenError>
    ensures opened { OpensAs D.state disk.old wave_layout result }
    ensures held { IfOk result (λ l. end l l.frames ≤ (D.state disk.old).size) }
    ensures pieces_held { IfOk result (λ l. All (EndsIn (D.state disk.old).size) l.pieces) }
    ensures declared { IfOk result (λ l. l.declared < 2 ^ 32) }
    ensures room_ends { IfOk result (λ l. l.start + room l + 8 ≤ 2 ^ 63) }
    ensures faults { CountsOpening D.state disk.old disk.new result }
    ensures reads { OnlyReadsOn D.state D.may_leave D.left_between disk.old disk.new }
    ensures asked { AsksAtMost D.state 8192 disk.old disk.new }
{
    let Ok(size) = disk.len() else {
        return Err(OpenError::DiskFault(Step::Len));
    };
    find_layout(alloc, disk, size)
}

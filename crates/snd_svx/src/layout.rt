//! What an 8SVX file says of itself.

ghost use Rattle.std.specs.Prelude.{◌≡◌, ◌+◌, ◌<◌, ◌≤◌, ◌^◌, All, IfOk, length};
ghost use Rattle.snd_disk.specs.Device.{AsksAtMost, OnlyReadsOn, IfOkTold};
ghost use Rattle.snd_chunks.specs.Walks.{CountsWalk, EndsBy, IsSound};
ghost use Rattle.snd_layout.specs.Opened.{CountsOpening, EndsIn, OpensAs};
ghost use Rattle.snd_layout.specs.Params.{data_bytes};
ghost use Rattle.snd_layout.specs.Shape.{IsPlaced, end, room};
ghost use Rattle.snd_svx.specs.Layout.{svx_layout, voice};
ghost use Rattle.snd_svx.specs.Parts.{ArePlaced, IsHeld, all_pieces, layout_with, shape_with};

use crate::ends::{Ends, ends_of};
use crate::header::Header;
use crate::parts::{Parts, parts_of};
use crate::pieces::add_pieces;
use crate::reads::{read_number, read_voice};
use snd_chunks::{Front, WalkError, walk_front, walk_tail};
use snd_disk::{Disk, Step};
use snd_fields::{Id4, Order};
use snd_layout::{Codec, Field, Kind, Layout, OpenError, OpenRefusal, Params, PieceList};
use std::alloc::Global;

/// The place of the first chunk, behind `FORM`, its size and `8SVX`.
const FIRST_CHUNK: u64 = 12;

/// How many chunks a walk sees, but for the body.
const MOST_CHUNKS: usize = 256;

/// The identifier of the chunk that holds the data.
const BODY: Id4 = Id4(*b"BODY");

/// The size of the whole.
pub(crate) const FORM_SIZE: Field = Field { at: 4, size: 4 };

/// The greatest declared length.
const MOST_DECLARED: u64 = (1 << 63) - 1;

// The parameters of a voice: one channel of signed bytes.
fn params_of(rate: u16) -> Params
    requires { 1 ≤ rate }
    ensures { result ≡ voice rate }
{
    Params {
        channels: 1,
        rate: u32::from(rate),
        codec: Codec::S8,
    }
}

// The layout that the voice header, the parts, the ends and the pieces give.
fn layout_of(header: Header, parts: Parts, ends: Ends, pieces: PieceList) -> Layout
    requires rate { 1 ≤ header.rate }
    requires long { 20 ≤ parts.header.len }
    requires before { parts.header.at + parts.header.len + 8 ≤ parts.sound.at }
    requires sound { IsSound (2 ^ 63) 12 257 parts.sound }
    requires held { ends.held ≤ parts.sound.len }
    requires pieces { All IsPlaced pieces }
    ensures value { result ≡ shape_with header parts ends pieces }
{
    let start = parts.sound.at;
    Layout {
        kind: Kind::Svx,
        params: params_of(header.rate),
        start,
        frames: ends.held,
        declared: parts.sound.len.min(MOST_DECLARED),
        inner: Field {
            at: start - 4,
            size: 4,
        },
        outer: Some(FORM_SIZE),
        side: Some(Field {
            at: parts.header.at,
            size: 4,
        }),
        trailing: ends.data_end < ends.outer_end,
        unknown_length: false,
        reserve: None,
        pieces,
    }
}

// The pieces before the data and behind them.
fn find_pieces<D: Disk>(
    alloc: Global,
    disk: &mut D,
    size: u64,
    front: &Front,
    ends: Ends,
) -> Result<PieceList, WalkError>
    requires size { size ≡ (D.state disk.old).size }
    requires whole { All (EndsBy size) front.now.chunks }
    requires outer { ends.outer_end ≤ size }
    ensures told { IfOkTold D.state disk.old result (λ b pieces. pieces ≡ all_pieces b front.now ends) }
    ensures held { IfOk result (All (EndsIn size)) }
    ensures faults { CountsWalk D.state disk.old disk.new result }
    ensures reads { OnlyReadsOn D.state D.may_leave D.left_between disk.old disk.new }
    ensures asked { AsksAtMost D.state 2048 disk.old disk.new }
{
    let most = MOST_CHUNKS.saturating_sub(front.chunks.len());
    let tail = walk_tail(
        alloc,
        disk,
        Order::Big,
        size,
        ends.outer_end,
        ends.data_end,
        most,
    )?;
    let mut pieces = PieceList::new(alloc);
    add_pieces(&mut pieces, front.chunks.as_slice(), false)?;
    add_pieces(&mut pieces, tail.as_slice(), true)?;
    Ok(pieces)
}

// The layout of a file with these parts, or why its voice is refused.
fn layout_at<D: Disk>(
    alloc: Global,
    disk: &mut D,
    size: u64,
    front: &Front,
    parts: Parts,
) -> Result<Layout, OpenError>
    requires size { size ≡ (D.state disk.old).size }
    requires whole { All (EndsBy size) front.now.chunks }
    requires few { length front.now.chunks ≤ 256 }
    requires placed { ArePlaced size parts }
    ensures told { OpensAs D.state disk.old (λ b. layout_with b front.now parts) result }
    ensures held { IfOk result (IsHeld size) }
    ensures faults { CountsOpening D.state disk.old disk.new result }
    ensures reads { OnlyReadsOn D.state D.may_leave D.left_between disk.old disk.new }
    ensures asked { AsksAtMost D.state 3080 disk.old disk.new }
{
    let header = read_voice(disk, front.chunks.as_slice(), parts.header)?;
    let form = read_number(disk, FORM_SIZE.at)?;
    let ends = ends_of(size, form, parts.sound);
    let pieces = find_pieces(alloc, disk, size, front, ends)?;
    Ok(layout_of(header, parts, ends, pieces))
}

// The layout of a file of this size, or why it is refused.
fn find_layout<D: Disk>(alloc: Global, disk: &mut D, size: u64) -> Result<Layout, OpenError>
    requires { size ≡ (D.state disk.old).size }
    ensures told { OpensAs D.state disk.old svx_layout result }
    ensures held { IfOk result (IsHeld size) }
    ensures faults { CountsOpening D.state disk.old disk.new result }
    ensures reads { OnlyReadsOn D.state D.may_leave D.left_between disk.old disk.new }
    ensures asked { AsksAtMost D.state 5136 disk.old disk.new }
{
    let front = walk_front(
        alloc,
        disk,
        Order::Big,
        BODY,
        size,
        FIRST_CHUNK,
        MOST_CHUNKS + 1,
    )?;
    let parts = parts_of(&front)?;
    // No walk to a body sees more, but the walk does not say so of a disk that tells nothing.
    if front.chunks.len() > MOST_CHUNKS {
        return Err(OpenError::Refused(OpenRefusal::TooManyChunks));
    }
    layout_at(alloc, disk, size, &front, parts)
}

/// Reads what an 8SVX file says of itself, after "8SVX IFF 8-Bit Sampled Voice" of Electronic Arts
/// (1985). It reads heads, the voice header and channel chunks alone, at most 8192 bytes, and never
/// writes.
///
/// The answer is `Refused` with the first reason, by number, for which the file has no layout;
/// `DiskFault` where a call of the disk failed; `Memory` where there is none.
#[tactic(auto, using(snd_layout::proofs::Answered::opens_from))]
pub fn open_layout<D: Disk>(alloc: Global, disk: &mut D) -> Result<Layout, OpenError>
    ensures opened { OpensAs D.state disk.old svx_layout result }
    ensures held { IfOk result (λ l. end l l.frames ≤ (D.state disk.old).size) }
    ensures room_ends { IfOk result (λ l. l.start + room l + 8 ≤ 2 ^ 63) }
    ensures pieces_held { IfOk result (λ l. All (EndsIn (D.state disk.old).size) l.pieces) }
    ensures faults { CountsOpening D.state disk.old disk.new result }
    ensures reads { OnlyReadsOn D.state D.may_leave D.left_between disk.old disk.new }
    ensures asked { AsksAtMost D.state 8192 disk.old disk.new }
{
    let Ok(size) = disk.len() else {
        return Err(OpenError::DiskFault(Step::Len));
    };
    find_layout(alloc, disk, size)
}

//! What a Wave64 file says of itself.

ghost use Rattle.std.specs.Prelude.{◌≡◌, ◌+◌, ◌≤◌, ◌^◌, None, All, IfSome, IfOk};
ghost use Rattle.snd_disk.specs.Device.{AsksAtMost, OnlyReadsOn};
ghost use Rattle.snd_layout.specs.Fit.{fit_refusal};
ghost use Rattle.snd_layout.specs.Opened.{CountsOpening, EndsIn, OpensAs};
ghost use Rattle.snd_layout.specs.Shape.{end, room};
ghost use Rattle.snd_layout.specs.declared.kind.Kind.TheVariants.{W64};
ghost use Rattle.snd_w64.specs.Layout.{shape_of, w64_layout};
ghost use Rattle.snd_chunks.specs.Parts.{IsFact};
ghost use Rattle.snd_w64.specs.Parts.{ArePlaced, IsHeld, IsSound, layout_with};

use crate::count::{frame_count, goes_on, held};
use crate::reads::{read_count, read_number};
use crate::walk::walk_front;
use snd_chunks::{Parts, inner_field, parts_of, read_format, side_field};
use snd_disk::{Disk, Step};
use snd_layout::{Field, Kind, Layout, OpenError, Params, PieceList};
use std::alloc::Global;

/// The bytes of a size and of a count.
const COUNT_SIZE: u8 = 8;

/// The head of a chunk: its identifier and its size.
const HEAD_SIZE: u8 = 24;

/// The size of the whole.
pub(crate) const WHOLE_SIZE: Field = Field { at: 16, size: 8 };

// The layout that the parts, the count of the `fact` and the sizes of the file and of the whole give.
fn layout_of(
    alloc: Global,
    params: Params,
    parts: Parts,
    count: Option<u64>,
    size: u64,
    whole: u64,
) -> Layout
    requires fits { fit_refusal W64 params ≡ None }
    requires fact { IfSome parts.fact (IsFact 8 24 parts.sound) }
    requires sound { IsSound size parts.sound }
    ensures value { result ≡ shape_of params parts.fact parts.sound count size whole }
    ensures held { IsHeld size result }
{
    params.are_good();
    let held = held(size, parts.sound);
    let frames = frame_count(&params, held, count);
    let inner = inner_field(&params, parts.fact, parts.sound, COUNT_SIZE, HEAD_SIZE);
    let side = side_field(&params, parts.fact, COUNT_SIZE);
    Layout {
        kind: Kind::W64,
        params,
        start: parts.sound.at,
        frames,
        declared: parts.sound.len,
        inner,
        outer: Some(WHOLE_SIZE),
        side,
        trailing: goes_on(size, whole, parts.sound),
        unknown_length: false,
        reserve: None,
        pieces: PieceList::new(alloc),
    }
}

// The layout of a file with these parts, or why its format is refused.
fn layout_at<D: Disk>(
    alloc: Global,
    disk: &mut D,
    size: u64,
    parts: Parts,
) -> Result<Layout, OpenError>
    requires size { size ≡ (D.state disk.old).size }
    requires placed { ArePlaced size parts }
    ensures told { OpensAs D.state disk.old (λ b. layout_with b parts) result }
    ensures held { IfOk result (IsHeld size) }
    ensures faults { CountsOpening D.state disk.old disk.new result }
    ensures reads { OnlyReadsOn D.state D.may_leave D.left_between disk.old disk.new }
    ensures asked { AsksAtMost D.state 66 disk.old disk.new }
{
    let params = read_format(disk, parts.format)?;
    let count = read_count(disk, parts.fact)?;
    let whole = read_number(disk, WHOLE_SIZE.at)?;
    Ok(layout_of(alloc, params, parts, count, size, whole))
}

// The layout of a file of this size, or why it is refused.
fn find_layout<D: Disk>(alloc: Global, disk: &mut D, size: u64) -> Result<Layout, OpenError>
    requires { size ≡ (D.state disk.old).size }
    ensures told { OpensAs D.state disk.old w64_layout result }
    ensures held { IfOk result (IsHeld size) }
    ensures faults { CountsOpening D.state disk.old disk.new result }
    ensures reads { OnlyReadsOn D.state D.may_leave D.left_between disk.old disk.new }
    ensures asked { AsksAtMost D.state 6234 disk.old disk.new }
{
    let front = walk_front(alloc, disk, size)?;
    let parts = parts_of(&front, COUNT_SIZE)?;
    layout_at(alloc, disk, size, parts)
}

/// Reads what a Wave64 file says of itself, after the white paper "Sony Wave64" of Sony Media Software.
/// It reads heads and the format alone, at most 8192 bytes, and never writes.
///
/// The answer is `Refused` with the first reason, by number, for which the file has no layout;
/// `DiskFault` where a call of the disk failed; `Memory` where there is none.
#[tactic(auto, using(snd_layout::proofs::Answered::opens_from))]
pub fn open_layout<D: Disk>(alloc: Global, disk: &mut D) -> Result<Layout, OpenError>
    ensures opened { OpensAs D.state disk.old w64_layout result }
    ensures held { IfOk result (λ l. end l l.frames ≤ (D.state disk.old).size) }
    ensures room_ends { IfOk result (λ l. l.start + room l + 8 ≤ 2 ^ 63) }
    ensures pieces_held { IfOk result (λ l. All (EndsIn (D.state disk.old).size) l.pieces) }
    ensures faults { CountsOpening D.state disk.old disk.new result }
    ensures reads { OnlyReadsOn D.state D.may_leave D.left_between disk.old disk.new }
    ensures asked { AsksAtMost D.state 8192 disk.old disk.new }
{
    let Ok(size) = disk.len() else {
        return Err(OpenError::DiskFault(Step::Len));
    };
    find_layout(alloc, disk, size)
}

//! What an AU file says of itself.

ghost use Rattle.std.specs.Prelude.{◌≡◌, ◌+◌, ◌<◌, ◌≤◌, ◌^◌, All, IfErr, IfOk, None, Ok as ok, Err as err, Some};
ghost use Rattle.snd_disk.specs.Device.{AsksAtMost, OnlyReadsOn};
ghost use Rattle.snd_layout.specs.Fit.{fit_refusal};
ghost use Rattle.snd_layout.specs.Opened.{CountsOpening, EndsIn, OpensAs};
ghost use Rattle.snd_layout.specs.Shape.{end, room};
ghost use Rattle.snd_au.specs.Layout.{au_layout, au_shape, held, is_unknown, kind_of, layout_of, params_in, place_refusal};

use crate::codecs::params_in;
use crate::numbers::{HEAD_SIZE, Numbers, read_numbers};
use snd_disk::{Disk, Step};
use snd_fields::Order;
use snd_layout::{Field, Kind, LAST_PLACE, Layout, OpenError, OpenRefusal, Params, PieceList};
use std::alloc::Global;

/// The field that decides the count of the frames: the size of the data.
pub(crate) const DATA_SIZE: Field = Field { at: 8, size: 4 };

/// The kind of a byte order.
pub(crate) fn kind_of(order: Order) -> Kind
    ensures { result ≡ kind_of order }
{
    match order {
        Order::Big => Kind::Au,
        Order::Little => Kind::Dns,
    }
}

// Whether a size of the data says that it is not known.
fn is_unknown(bytes: u32) -> bool
    ensures { result ≡ is_unknown bytes }
{
    bytes == u32::MAX
}

// The data bytes that a file of this size holds.
fn held(size: u64, numbers: Numbers) -> u64
    ensures { result ≡ held size numbers }
{
    let behind = size
        .min(LAST_PLACE)
        .saturating_sub(u64::from(numbers.offset));
    if is_unknown(numbers.bytes) {
        behind
    } else {
        u64::from(numbers.bytes).min(behind)
    }
}

// Why no data begin at a place, in a file of this size.
fn place_refusal(size: u64, offset: u64) -> Option<OpenRefusal>
    ensures { result ≡ place_refusal size offset }
{
    if offset < HEAD_SIZE {
        return Some(OpenRefusal::BadField);
    }
    if size < offset {
        return Some(OpenRefusal::NoData);
    }
    None
}

// The layout that the numbers of a head and the parameters give.
fn layout_with(alloc: Global, order: Order, size: u64, numbers: Numbers, params: Params) -> Layout
    requires fits { fit_refusal (kind_of order) params ≡ None }
    requires placed { place_refusal size numbers.offset ≡ None }
    requires size { size < 2 ^ 63 }
    ensures { result ≡ au_shape order size numbers params }
{
    params.are_good();
    Layout {
        kind: kind_of(order),
        params,
        start: u64::from(numbers.offset),
        frames: held(size, numbers) / u64::from(params.block_align()),
        declared: u64::from(numbers.bytes),
        inner: DATA_SIZE,
        outer: None,
        side: None,
        trailing: false,
        unknown_length: is_unknown(numbers.bytes),
        reserve: None,
        pieces: PieceList::new(alloc),
    }
}

// The layout that the numbers of a head give in a file of this size, or why it has none.
fn layout_of(
    alloc: Global,
    order: Order,
    size: u64,
    numbers: Numbers,
) -> Result<Layout, OpenRefusal>
    requires { size < 2 ^ 63 }
    ensures value { IfOk result (λ l. layout_of order size numbers ≡ ok l) }
    ensures refused { IfErr result (λ r. layout_of order size numbers ≡ err r) }
    ensures held { IfOk result (λ l. end l l.frames ≤ size) }
    ensures room_ends { IfOk result (λ l. l.start + room l + 8 ≤ 2 ^ 63) }
    ensures pieces_held { IfOk result (λ l. All (EndsIn size) l.pieces) }
{
    if let Some(refusal) = place_refusal(size, u64::from(numbers.offset)) {
        return Err(refusal);
    }
    let params = params_in(order, numbers)?;
    Ok(layout_with(alloc, order, size, numbers, params))
}

// The layout of a file of this size, or why it is refused.
fn find_layout<D: Disk>(
    alloc: Global,
    disk: &mut D,
    order: Order,
    size: u64,
) -> Result<Layout, OpenError>
    requires { size ≡ (D.state disk.old).size }
    ensures opened { OpensAs D.state disk.old (au_layout order) result }
    ensures held { IfOk result (λ l. end l l.frames ≤ size) }
    ensures room_ends { IfOk result (λ l. l.start + room l + 8 ≤ 2 ^ 63) }
    ensures pieces_held { IfOk result (λ l. All (EndsIn size) l.pieces) }
    ensures faults { CountsOpening D.state disk.old disk.new result }
    ensures reads { OnlyReadsOn D.state D.may_leave D.left_between disk.old disk.new }
    ensures asked { AsksAtMost D.state 24 disk.old disk.new }
{
    if size < HEAD_SIZE {
        return Err(OpenError::Refused(OpenRefusal::ShortHeader));
    }
    let numbers = read_numbers(disk, order)?;
    Ok(layout_of(alloc, order, size, numbers)?)
}

/// Reads what an AU file says of itself, after Sun's au(4): its head of 24 bytes alone. It never writes.
/// The caller has recognised the mark, which gives the byte order: `.snd` the highest byte first, `dns.`
/// the lowest.
///
/// The answer is `Refused` with the first reason, by number, for which the file has no layout, or
/// `DiskFault` where a call of the disk failed.
#[tactic(auto, using(snd_layout::proofs::Answered::opens_from))]
pub fn open_layout<D: Disk>(alloc: Global, disk: &mut D, order: Order) -> Result<Layout, OpenError>
    ensures opened { OpensAs D.state disk.old (au_layout order) result }
    ensures held { IfOk result (λ l. end l l.frames ≤ (D.state disk.old).size) }
    ensures room_ends { IfOk result (λ l. l.start + room l + 8 ≤ 2 ^ 63) }
    ensures pieces_held { IfOk result (λ l. All (EndsIn (D.state disk.old).size) l.pieces) }
    ensures faults { CountsOpening D.state disk.old disk.new result }
    ensures reads { OnlyReadsOn D.state D.may_leave D.left_between disk.old disk.new }
    ensures asked { AsksAtMost D.state 8192 disk.old disk.new }
{
    let Ok(size) = disk.len() else {
        return Err(OpenError::DiskFault(Step::Len));
    };
    find_layout(alloc, disk, order, size)
}

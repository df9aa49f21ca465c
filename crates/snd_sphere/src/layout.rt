//! What a SPHERE file says of itself.

ghost use Rattle.std.specs.Prelude.{◌≡◌, ◌+◌, ◌<◌, ◌≤◌, ◌^◌, All, IfOk, [], length, true};
ghost use Rattle.snd_disk.specs.Device.{AsksAtMost, OnlyReadsOn};
ghost use Rattle.snd_layout.specs.Fit.{is_sphere_codec};
ghost use Rattle.snd_layout.specs.Opened.{CountsOpening, EndsIn, OpensAs};
ghost use Rattle.snd_layout.specs.Shape.{end, room};
ghost use Rattle.snd_sphere.specs.Layout.{codec_of, count_of, heading_of, layout_with, params_of, sample_bytes, sound_of, sphere_layout, sphere_shape};

use crate::heading::{Coding, Heading};
use crate::reads::{find_count, read_heading};
use crate::stated::Stated;
use snd_disk::{Disk, Step, fill};
use snd_fields::Order;
use snd_layout::{
    Codec, Field, Kind, LAST_PLACE, Layout, OpenError, OpenRefusal, Params, PieceList,
};
use std::alloc::Global;

/// The size of the header, behind which the data begin.
const HEADER: u64 = 1024;

/// The greatest declared length.
const MOST_DECLARED: u64 = (1 << 63) - 1;

fn codec_of(coding: Coding, order: Option<Order>) -> Codec
    ensures value { result ≡ codec_of coding order }
    ensures fits { is_sphere_codec result ≡ true }
{
    match (coding, order) {
        (Coding::Pcm, Some(order)) => Codec::S16(order),
        (Coding::Pcm, None) => Codec::S16(Order::Little),
        (Coding::ALaw, _) => Codec::ALaw,
        _ => Codec::MuLaw,
    }
}

fn sample_bytes(coding: Coding) -> u64
    ensures { result ≡ sample_bytes coding }
{
    match coding {
        Coding::Pcm => 2,
        _ => 1,
    }
}

// The parameters with these numbers, or why they are refused.
fn sound_of(
    coding: Coding,
    codec: Codec,
    channels: u64,
    rate: u64,
    width: u64,
) -> Result<Params, OpenRefusal>
    ensures { result ≡ sound_of coding codec channels rate width }
{
    if coding == Coding::Other {
        return Err(OpenRefusal::UnknownCodec);
    }
    match Params::new(channels, rate, codec) {
        Err(refusal) => Err(refusal),
        Ok(params) => {
            if width == sample_bytes(coding) {
                Ok(params)
            } else {
                Err(OpenRefusal::BadBits)
            }
        }
    }
}

// The parameters that a header states, or why they are refused.
#[tactic(auto, unfolding(crate::specs::Layout::params_of))]
fn params_of(heading: &Heading) -> Result<Params, OpenRefusal>
    ensures value { result ≡ params_of heading.now }
    ensures fits { IfOk result (λ p. is_sphere_codec p.codec ≡ true) }
{
    let Some(channels) = heading.channels else {
        return Err(OpenRefusal::NoFormat);
    };
    let Some(rate) = heading.rate else {
        return Err(OpenRefusal::NoFormat);
    };
    let Some(width) = heading.width else {
        return Err(OpenRefusal::NoFormat);
    };
    let codec = codec_of(heading.coding, heading.order);
    sound_of(
        heading.coding,
        codec,
        channels.value,
        rate.value,
        width.value,
    )
}

// The layout of a file of this size with these parameters and this count.
fn layout_of(alloc: Global, size: u64, params: Params, count: Stated) -> Layout
    requires fits { is_sphere_codec params.codec ≡ true }
    requires digits { (1 ≤ count.size) × (count.size ≤ 18) }
    requires within { count.at + count.size ≤ 1024 }
    requires whole { 1024 ≤ size }
    ensures value { result ≡ sphere_shape size params count }
    ensures held { end result result.frames ≤ size }
    ensures room_ends { result.start + room result + 8 ≤ 2 ^ 63 }
{
    params.are_good();
    let align = u64::from(params.block_align());
    let declared = match count.value.checked_mul(align) {
        Some(bytes) => bytes.min(MOST_DECLARED),
        None => MOST_DECLARED,
    };
    let held = declared.min(size.min(LAST_PLACE).saturating_sub(HEADER));
    Layout {
        kind: Kind::Sphere,
        params,
        start: HEADER,
        frames: held / align,
        declared,
        inner: Field {
            at: count.at,
            size: count.size,
        },
        outer: None,
        side: None,
        trailing: false,
        unknown_length: false,
        reserve: None,
        pieces: PieceList::new(alloc),
    }
}

// The layout of a file of this size with this header, or why it is refused.
fn layout_in(alloc: Global, size: u64, header: &[u8]) -> Result<Layout, OpenRefusal>
    requires header { length header.now ≡ 1024 }
    requires whole { 1024 ≤ size }
    ensures value { result ≡ layout_with size (heading_of header.now) (count_of header.now) }
    ensures held { IfOk result (λ l. end l l.frames ≤ size) }
    ensures room_ends { IfOk result (λ l. l.start + room l + 8 ≤ 2 ^ 63) }
    ensures pieces { IfOk result (λ l. l.pieces ≡ []) }
{
    let heading = read_heading(header)?;
    let Some(count) = find_count(header)? else {
        return Err(OpenRefusal::NoFormat);
    };
    let params = params_of(&heading)?;
    Ok(layout_of(alloc, size, params, count))
}

// The layout of a file of this size, or why it is refused.
fn find_layout<D: Disk>(alloc: Global, disk: &mut D, size: u64) -> Result<Layout, OpenError>
    requires { size ≡ (D.state disk.old).size }
    ensures told { OpensAs D.state disk.old sphere_layout result }
    ensures held { IfOk result (λ l. end l l.frames ≤ size) }
    ensures room_ends { IfOk result (λ l. l.start + room l + 8 ≤ 2 ^ 63) }
    ensures pieces { IfOk result (λ l. l.pieces ≡ []) }
    ensures faults { CountsOpening D.state disk.old disk.new result }
    ensures reads { OnlyReadsOn D.state D.may_leave D.left_between disk.old disk.new }
    ensures asked { AsksAtMost D.state 1024 disk.old disk.new }
{
    if size < HEADER {
        return Err(OpenError::Refused(OpenRefusal::ShortHeader));
    }
    let mut header = [0; HEADER as usize];
    fill(disk, 0, &mut header)?;
    Ok(layout_in(alloc, size, &header)?)
}

/// Reads what a SPHERE file says of itself, after NIST's SPeech HEader REsources. It reads the header of
/// 1024 bytes alone, and never writes.
///
/// The answer is `Refused` with the first reason, by number, for which the file has no layout;
/// `DiskFault` where a call of the disk failed.
#[tactic(auto, using(snd_layout::proofs::Answered::opens_from))]
pub fn open_layout<D: Disk>(alloc: Global, disk: &mut D) -> Result<Layout, OpenError>
    ensures opened { OpensAs D.state disk.old sphere_layout result }
    ensures held { IfOk result (λ l. end l l.frames ≤ (D.state disk.old).size) }
    ensures room_ends { IfOk result (λ l. l.start + room l + 8 ≤ 2 ^ 63) }
    ensures pieces_held { IfOk result (λ l. All (EndsIn (D.state disk.old).size) l.pieces) }
    ensures faults { CountsOpening D.state disk.old disk.new result }
    ensures reads { OnlyReadsOn D.state D.may_leave D.left_between disk.old disk.new }
    ensures asked { AsksAtMost D.state 8192 disk.old disk.new }
{
    let Ok(size) = disk.len() else {
        return Err(OpenError::DiskFault(Step::Len));
    };
    find_layout(alloc, disk, size)
}

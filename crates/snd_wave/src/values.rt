//! What the fields of a head say of a number of frames, and what closes their data.

ghost use Rattle.std.specs.Prelude.{◌≡◌, ◌+◌, ◌<◌, ◌^◌, None, true, ◌-◌, ◌≤◌};
ghost use Rattle.snd_fields.specs.Field.{bytes_of};
ghost use Rattle.snd_fields.specs.declared.field.Order.TheVariants.{Little};
ghost use Rattle.snd_layout.specs.Blocks.{is_adpcm};
ghost use Rattle.snd_layout.specs.Container.{HasRoomFor};
ghost use Rattle.snd_layout.specs.Fit.{fit_refusal};
ghost use Rattle.snd_layout.specs.Params.{data_bytes};
ghost use Rattle.snd_layout.specs.Shape.{room as shape_room};
ghost use Rattle.snd_layout.specs.declared.kind.Kind.TheVariants.{Wave};
ghost use Rattle.snd_wave.specs.Values.{closing, inner_value, outer_value, riff_size, side_value};

use arrayvec::ArrayVec;
use snd_fields::{Order, put_all, put_number};
use snd_layout::{Layout, Params};

/// The bytes of the field that holds the count of a `fact`, the identifier of the data chunk and the data
/// size.
const JOINED_SIZE: u8 = 12;

/// The greatest place at which data may end: the RIFF size, in which the first 8 bytes are not counted, is
/// even and has 32 bits.
const MOST_END: u64 = (1 << 32) + 6;

// The bytes of so many frames, which stand in whole blocks.
#[tactic(auto, using(crate::proofs::Sizes::frames_fit, snd_layout::proofs::Frames::blocks_have_frames))]
fn data_bytes(params: &Params, frames: u64) -> u64
    requires fits { fit_refusal Wave params.now ≡ None }
    requires few { data_bytes params.now frames < 2 ^ 63 }
    requires counted { is_adpcm params.now.codec ≡ true → frames < 2 ^ 32 }
    ensures { result ≡ data_bytes params.now frames }
{
    params.are_good();
    let per_block = u64::from(params.block_frames());
    let align = u64::from(params.block_align());
    (frames + per_block - 1) / per_block * align
}

// The data bytes of so many frames of a layout.
fn bytes_in(layout: &Layout, frames: u64) -> u64
    requires kind { layout.now.kind ≡ Wave }
    requires room { HasRoomFor layout.now frames }
    ensures { result ≡ data_bytes layout.now.params frames }
{
    layout.keeps_rule();
    data_bytes(&layout.params, frames)
}

// The lowest 4 bytes of a number, the lowest first.
fn number_bytes(value: u64) -> ArrayVec<u8, 64>
    ensures { result.items ≡ bytes_of Little 4 value }
{
    let mut bytes = ArrayVec::new();
    put_number(&mut bytes, Order::Little, value);
    bytes
}

// The RIFF size of a file whose data begin at a place.
fn riff_size(start: u64, bytes: u64) -> u64
    requires { start + bytes < 2 ^ 63 }
    ensures { result ≡ riff_size start bytes }
{
    let end = start + bytes + bytes % 2;
    end.saturating_sub(8).min(u64::from(u32::MAX))
}

/// What the field that decides the count says of so many frames: the data size; where the field has 12
/// bytes, the count, the identifier of the data chunk and the data size.
pub fn inner_bytes(layout: &Layout, frames: u64) -> ArrayVec<u8, 64>
    requires kind { layout.now.kind ≡ Wave }
    requires room { HasRoomFor layout.now frames }
    ensures { result.items ≡ inner_value layout.now frames }
{
    let bytes = bytes_in(layout, frames);
    if layout.inner.size != JOINED_SIZE {
        return number_bytes(bytes);
    }
    let mut value = number_bytes(frames);
    put_all(&mut value, b"data");
    put_number(&mut value, Order::Little, bytes);
    value
}

/// What the size of the whole says of so many frames.
pub fn outer_bytes(layout: &Layout, frames: u64) -> ArrayVec<u8, 64>
    requires kind { layout.now.kind ≡ Wave }
    requires room { HasRoomFor layout.now frames }
    ensures { result.items ≡ outer_value layout.now frames }
{
    let bytes = bytes_in(layout, frames);
    number_bytes(riff_size(layout.start, bytes))
}

/// What the size of the whole says of a file that ends at a place.
pub fn outer_to(end: u64) -> ArrayVec<u8, 64>
    requires { 8 ≤ end }
    ensures { result.items ≡ bytes_of Little 4 (end - 8) }
{
    number_bytes(end - 8)
}

/// What the count says that is not read: nothing where there is none.
pub fn side_bytes(layout: &Layout, frames: u64) -> ArrayVec<u8, 64>
    requires kind { layout.now.kind ≡ Wave }
    requires room { HasRoomFor layout.now frames }
    ensures { result.items ≡ side_value layout.now frames }
{
    match layout.side {
        Some(_) => number_bytes(frames),
        None => ArrayVec::new(),
    }
}

/// What closes the data of so many frames: a pad byte behind an odd number of bytes.
pub fn closing_bytes(layout: &Layout, frames: u64) -> ArrayVec<u8, 8>
    requires kind { layout.now.kind ≡ Wave }
    requires room { HasRoomFor layout.now frames }
    ensures { result.items ≡ closing layout.now frames }
{
    let mut pad = ArrayVec::new();
    if bytes_in(layout, frames) % 2 == 1 {
        pad.push(0);
    }
    pad
}

/// The greatest number of data bytes for which the fields of the head have room.
pub fn room(layout: &Layout) -> u64
    requires { layout.now.kind ≡ Wave }
    ensures { result ≡ shape_room layout.now }
{
    MOST_END.saturating_sub(layout.start)
}

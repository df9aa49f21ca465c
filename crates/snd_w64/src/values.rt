//! What the fields of a head say of a number of frames, and what closes their data.

ghost use Rattle.std.specs.Prelude.{◌≡◌, ◌+◌, ◌-◌, ◌<◌, ◌≤◌, ◌^◌, None};
ghost use Rattle.snd_fields.specs.Field.{bytes_of};
ghost use Rattle.snd_fields.specs.declared.field.Order.TheVariants.{Little};
ghost use Rattle.snd_layout.specs.Container.{HasRoomFor};
ghost use Rattle.snd_layout.specs.Fit.{fit_refusal};
ghost use Rattle.snd_layout.specs.Params.{data_bytes};
ghost use Rattle.snd_layout.specs.Shape.{end, room as shape_room};
ghost use Rattle.snd_layout.specs.declared.kind.Kind.TheVariants.{W64};
ghost use Rattle.snd_w64.specs.Values.{closing, inner_value, outer_value, side_value};

use crate::count::raised;
use crate::put::{HEAD_SIZE, put_zeros};
use crate::walk::ID_END;
use arrayvec::ArrayVec;
use snd_fields::{put_all, put_long};
use snd_layout::{Layout, Params};

/// The bytes of the field that holds the count of a `fact`, the identifier of the data chunk and the data
/// size.
const JOINED_SIZE: u8 = 32;

/// The greatest place at which data may end.
const MOST_END: u64 = 1 << 62;

// The bytes of so many frames, which stand in whole blocks.
#[tactic(auto, using(crate::proofs::Blocks::rounded_up, snd_layout::proofs::Frames::blocks_have_frames))]
fn data_bytes(params: &Params, frames: u64) -> u64
    requires fits { fit_refusal W64 params.now ≡ None }
    requires few { data_bytes params.now frames < 2 ^ 63 }
    ensures { result ≡ data_bytes params.now frames }
{
    params.are_good();
    frames.div_ceil(u64::from(params.block_frames())) * u64::from(params.block_align())
}

// The data bytes of so many frames of a layout.
fn bytes_in(layout: &Layout, frames: u64) -> u64
    requires kind { layout.now.kind ≡ W64 }
    requires room { HasRoomFor layout.now frames }
    ensures value { result ≡ data_bytes layout.now.params frames }
    ensures few { layout.now.start + result < 2 ^ 63 }
{
    layout.keeps_rule();
    data_bytes(&layout.params, frames)
}

// The place behind the data of so many frames.
fn end_of(layout: &Layout, frames: u64) -> u64
    requires kind { layout.now.kind ≡ W64 }
    requires room { HasRoomFor layout.now frames }
    ensures value { result ≡ end layout.now frames }
    ensures few { result < 2 ^ 63 }
{
    let bytes = bytes_in(layout, frames);
    layout.start + bytes
}

// The 8 bytes of a number, the lowest first.
fn number_bytes(value: u64) -> ArrayVec<u8, 64>
    ensures { result.items ≡ bytes_of Little 8 value }
{
    let mut bytes = ArrayVec::new();
    put_long(&mut bytes, value);
    bytes
}

/// What the field that decides the count says of so many frames: the data size; where the field has 32
/// bytes, the count, the identifier of the data chunk and the data size.
pub fn inner_bytes(layout: &Layout, frames: u64) -> ArrayVec<u8, 64>
    requires kind { layout.now.kind ≡ W64 }
    requires room { HasRoomFor layout.now frames }
    ensures { result.items ≡ inner_value layout.now frames }
{
    let size = bytes_in(layout, frames) + HEAD_SIZE;
    if layout.inner.size != JOINED_SIZE {
        return number_bytes(size);
    }
    let mut value = number_bytes(frames);
    put_all(&mut value, b"data");
    put_all(&mut value, &ID_END);
    put_long(&mut value, size);
    value
}

/// What the size of the whole says of so many frames: the place behind their data, raised to a multiple
/// of 8.
pub fn outer_bytes(layout: &Layout, frames: u64) -> ArrayVec<u8, 64>
    requires kind { layout.now.kind ≡ W64 }
    requires room { HasRoomFor layout.now frames }
    ensures { result.items ≡ outer_value layout.now frames }
{
    let end = end_of(layout, frames);
    number_bytes(raised(end))
}

/// What the count says that is not read: nothing where there is none.
pub fn side_bytes(layout: &Layout, frames: u64) -> ArrayVec<u8, 64>
    requires kind { layout.now.kind ≡ W64 }
    requires room { HasRoomFor layout.now frames }
    ensures { result.items ≡ side_value layout.now frames }
{
    match layout.side {
        Some(_) => number_bytes(frames),
        None => ArrayVec::new(),
    }
}

/// What closes the data of so many frames: zeros up to the next multiple of 8.
pub fn closing_bytes(layout: &Layout, frames: u64) -> ArrayVec<u8, 8>
    requires kind { layout.now.kind ≡ W64 }
    requires room { HasRoomFor layout.now frames }
    ensures { result.items ≡ closing layout.now frames }
{
    let end = end_of(layout, frames);
    let mut zeros = ArrayVec::new();
    put_zeros(&mut zeros, raised(end) - end);
    zeros
}

/// The greatest number of data bytes for which the fields of the head have room.
pub fn room(layout: &Layout) -> u64
    requires { layout.now.kind ≡ W64 }
    ensures { result ≡ shape_room layout.now }
{
    MOST_END.saturating_sub(layout.start)
}

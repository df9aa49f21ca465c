//! What the fields of a head say of a number of frames, and what closes their data.

ghost use Rattle.std.specs.Prelude.{◌≡◌, ◌+◌, ◌<◌, ◌≤◌, ◌^◌, ◌++◌, ◌-◌};
ghost use Rattle.arrayvec.specs.ArrayVec.{array_vec_len};
ghost use Rattle.snd_fields.specs.Field.{bytes_of};
ghost use Rattle.snd_fields.specs.declared.field.Order.TheVariants.{Big};
ghost use Rattle.snd_layout.specs.Container.{HasRoomFor};
ghost use Rattle.snd_layout.specs.Params.{data_bytes};
ghost use Rattle.snd_layout.specs.Shape.{room as shape_room};
ghost use Rattle.snd_layout.specs.declared.kind.Kind.TheVariants.{Svx};
ghost use Rattle.snd_svx.specs.Values.{closing, form_size, inner_value, outer_value, side_value};

use arrayvec::ArrayVec;
use snd_fields::{Order, put_number};
use snd_layout::Layout;

/// The greatest place at which data may end: the size of the FORM, in which the first 8 bytes are not
/// counted, is even and has 32 bits.
const MOST_END: u64 = (1 << 32) + 6;

// The data bytes of so many frames of a layout: each is one byte.
fn bytes_in(layout: &Layout, frames: u64) -> u64
    requires kind { layout.now.kind ≡ Svx }
    ensures { result ≡ data_bytes layout.now.params frames }
{
    layout.keeps_rule();
    layout.params.are_good();
    frames
}

// The lowest 4 bytes of a number, the highest first.
fn number_bytes(value: u64) -> ArrayVec<u8, 64>
    ensures { result.items ≡ bytes_of Big 4 value }
{
    let mut bytes = ArrayVec::new();
    put_number(&mut bytes, Order::Big, value);
    bytes
}

// The size of the FORM of a file whose data begin at a place.
fn form_size(start: u64, bytes: u64) -> u64
    requires { start + bytes < 2 ^ 63 }
    ensures { result ≡ form_size start bytes }
{
    let end = start + bytes + bytes % 2;
    end.saturating_sub(8).min(u64::from(u32::MAX))
}

/// What the field that decides the count says of so many frames: the size of the body.
pub fn inner_bytes(layout: &Layout, frames: u64) -> ArrayVec<u8, 64>
    requires kind { layout.now.kind ≡ Svx }
    requires room { HasRoomFor layout.now frames }
    ensures { result.items ≡ inner_value layout.now frames }
{
    number_bytes(bytes_in(layout, frames))
}

/// What the size of the whole says of so many frames.
pub fn outer_bytes(layout: &Layout, frames: u64) -> ArrayVec<u8, 64>
    requires kind { layout.now.kind ≡ Svx }
    requires room { HasRoomFor layout.now frames }
    ensures { result.items ≡ outer_value layout.now frames }
{
    let bytes = bytes_in(layout, frames);
    number_bytes(form_size(layout.start, bytes))
}

/// What the size of the whole says of a file that ends at a place.
pub fn outer_to(end: u64) -> ArrayVec<u8, 64>
    requires { 8 ≤ end }
    ensures { result.items ≡ bytes_of Big 4 (end - 8) }
{
    number_bytes(end - 8)
}

/// What the one-shot samples of the voice header say, which are not read: the frames.
pub fn side_bytes(layout: &Layout, frames: u64) -> ArrayVec<u8, 64>
    requires kind { layout.now.kind ≡ Svx }
    requires room { HasRoomFor layout.now frames }
    ensures { result.items ≡ side_value layout.now frames }
{
    number_bytes(frames)
}

/// What closes the data of so many frames: a pad byte behind an odd number of bytes.
pub fn closing_bytes(layout: &Layout, frames: u64) -> ArrayVec<u8, 8>
    requires kind { layout.now.kind ≡ Svx }
    requires room { HasRoomFor layout.now frames }
    ensures { result.items ≡ closing layout.now frames }
{
    let mut pad = ArrayVec::new();
    if bytes_in(layout, frames) % 2 == 1 {
        pad.push(0);
    }
    pad
}

/// The greatest number of data bytes for which the fields of the head have room.
pub fn room(layout: &Layout) -> u64
    requires kind { layout.now.kind ≡ Svx }
    ensures { result ≡ shape_room layout.now }
{
    MOST_END.saturating_sub(layout.start)
}

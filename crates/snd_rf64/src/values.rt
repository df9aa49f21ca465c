//! What the fields of a head say of a number of frames, and what closes their data.

ghost use Rattle.std.specs.Prelude.{◌≡◌, ◌+◌, ◌≤◌, ◌++◌, ◌-◌};
ghost use Rattle.arrayvec.specs.ArrayVec.{array_vec_len};
ghost use Rattle.snd_fields.specs.Field.{bytes_of};
ghost use Rattle.snd_fields.specs.declared.field.Order.TheVariants.{Little};
ghost use Rattle.snd_layout.specs.Container.{HasRoomFor};
ghost use Rattle.snd_layout.specs.Params.{data_bytes};
ghost use Rattle.snd_layout.specs.Shape.{room as shape_room};
ghost use Rattle.snd_layout.specs.declared.kind.Kind.TheVariants.{Rf64};
ghost use Rattle.snd_rf64.specs.Values.{closing, inner_value, outer_value, side_value};

use arrayvec::ArrayVec;
use snd_fields::put_long;
use snd_layout::Layout;

/// The place by which data end for which a head has room.
const MOST_END: u64 = 1 << 62;

/// The bytes at the beginning that the size of the whole does not count.
pub(crate) const NOT_COUNTED: u64 = 8;

// The data bytes of so many frames of a layout.
fn bytes_in(layout: &Layout, frames: u64) -> u64
    requires kind { layout.now.kind ≡ Rf64 }
    requires room { HasRoomFor layout.now frames }
    ensures { result ≡ data_bytes layout.now.params frames }
{
    layout.keeps_rule();
    frames * u64::from(layout.params.block_align())
}

// The 8 bytes of a number, the lowest first.
fn number_bytes(value: u64) -> ArrayVec<u8, 64>
    ensures { result.items ≡ bytes_of Little 8 value }
{
    let mut bytes = ArrayVec::new();
    put_long(&mut bytes, value);
    bytes
}

/// What the data size says of so many frames.
pub fn inner_bytes(layout: &Layout, frames: u64) -> ArrayVec<u8, 64>
    requires kind { layout.now.kind ≡ Rf64 }
    requires room { HasRoomFor layout.now frames }
    ensures { result.items ≡ inner_value layout.now frames }
{
    number_bytes(bytes_in(layout, frames))
}

/// What the size of the whole says of so many frames.
pub fn outer_bytes(layout: &Layout, frames: u64) -> ArrayVec<u8, 64>
    requires kind { layout.now.kind ≡ Rf64 }
    requires room { HasRoomFor layout.now frames }
    ensures { result.items ≡ outer_value layout.now frames }
{
    let bytes = bytes_in(layout, frames);
    let end = layout.start + bytes + bytes % 2;
    number_bytes(end.saturating_sub(NOT_COUNTED))
}

/// What the size of the whole says of a file that ends at a place.
pub fn outer_to(end: u64) -> ArrayVec<u8, 64>
    requires { 8 ≤ end }
    ensures { result.items ≡ bytes_of Little 8 (end - 8) }
{
    number_bytes(end - NOT_COUNTED)
}

/// What the count says that is not read.
pub fn side_bytes(layout: &Layout, frames: u64) -> ArrayVec<u8, 64>
    requires kind { layout.now.kind ≡ Rf64 }
    requires room { HasRoomFor layout.now frames }
    ensures { result.items ≡ side_value layout.now frames }
{
    let _ = &layout.start;
    number_bytes(frames)
}

/// What closes the data of so many frames: a pad byte behind an odd number of bytes.
pub fn closing_bytes(layout: &Layout, frames: u64) -> ArrayVec<u8, 8>
    requires kind { layout.now.kind ≡ Rf64 }
    requires room { HasRoomFor layout.now frames }
    ensures { result.items ≡ closing layout.now frames }
{
    let mut pad = ArrayVec::new();
    if bytes_in(layout, frames) % 2 == 1 {
        pad.push(0);
    }
    pad
}

/// The greatest number of data bytes for which the fields of the head have room.
pub fn room(layout: &Layout) -> u64
    requires kind { layout.now.kind ≡ Rf64 }
    ensures { result ≡ shape_room layout.now }
{
    MOST_END.saturating_sub(layout.start)
}

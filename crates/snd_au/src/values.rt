//! What the data size says of a number of frames.

ghost use Rattle.std.specs.Prelude.{◌≡◌, ◌<◌, ◌^◌};
ghost use Rattle.snd_layout.specs.Container.{HasRoomFor};
ghost use Rattle.snd_layout.specs.Params.{data_bytes};
ghost use Rattle.snd_layout.specs.Shape.{room as shape_room};
ghost use Rattle.snd_au.specs.Values.{IsAu, closing, inner_value, order_of};

use arrayvec::ArrayVec;
use snd_fields::{Order, put_number};
use snd_layout::{Kind, Layout};

/// The greatest number of data bytes: a size of 32 bits that are all set says that it is not known.
const ROOM: u64 = (1 << 32) - 2;

// The byte order of a kind.
fn order_of(kind: Kind) -> Order
    ensures { result ≡ order_of kind }
{
    match kind {
        Kind::Dns => Order::Little,
        _ => Order::Big,
    }
}

// The data bytes of so many frames.
fn data_bytes(layout: &Layout, frames: u64) -> u64
    requires kind { IsAu layout.now.kind }
    requires few { data_bytes layout.now.params frames < 2 ^ 63 }
    ensures { result ≡ data_bytes layout.now.params frames }
{
    layout.keeps_rule();
    frames * u64::from(layout.params.block_align())
}

/// What the data size says of so many frames, which is the field that decides the count.
pub fn inner_bytes(layout: &Layout, frames: u64) -> ArrayVec<u8, 64>
    requires kind { IsAu layout.now.kind }
    requires room { HasRoomFor layout.now frames }
    ensures { result.items ≡ inner_value layout.now frames }
{
    let bytes = data_bytes(layout, frames);
    let mut value = ArrayVec::new();
    put_number(&mut value, order_of(layout.kind), bytes);
    value
}

/// What closes the data of so many frames: nothing.
pub fn closing_bytes(layout: &Layout, frames: u64) -> ArrayVec<u8, 8>
    requires kind { IsAu layout.now.kind }
    requires room { HasRoomFor layout.now frames }
    ensures { result.items ≡ closing layout.now frames }
{
    ArrayVec::new()
}

/// The greatest number of data bytes for which the data size has room.
pub fn room(layout: &Layout) -> u64
    requires { IsAu layout.now.kind }
    ensures { result ≡ shape_room layout.now }
{
    ROOM
}

//! The first bytes of the RF64 file that a WAVE file becomes, and what it says of itself then.

ghost use Rattle.std.specs.Prelude.{◌≡◌, ◌-◌, ◌≤◌, is_some, length, true};
ghost use Rattle.snd_layout.specs.Container.{HasRoomFor};
ghost use Rattle.snd_layout.specs.Params.{data_bytes};
ghost use Rattle.snd_ds64.specs.Promoted.{new_front, promoted_shape};

use arrayvec::ArrayVec;
use snd_container::data_bytes;
use snd_fields::{Order, put_all, put_long, put_number};
use snd_layout::{Field, Kind, Layout};

/// A size of 32 bits that says nothing.
const NO_SIZE: u64 = 0xffff_ffff;

/// The bytes at the beginning that the size of the whole does not count.
const NOT_COUNTED: u64 = 8;

/// The size of the whole, in `ds64`.
const OUTER: Field = Field { at: 20, size: 8 };

/// The data size.
const INNER: Field = Field { at: 28, size: 8 };

/// The count that is not read.
const SIDE: Field = Field { at: 36, size: 8 };

/// The place of the data size of 32 bits, right before the data.
pub(crate) fn size_place(layout: &Layout) -> u64
    requires { is_some layout.now.reserve ≡ true }
    ensures place { result ≡ layout.now.start - 4 }
    ensures early { 52 ≤ result }
{
    layout.keeps_rule();
    layout.start - 4
}

/// The first 48 bytes of the RF64 file that a layout with a reservation becomes.
pub(crate) fn front_bytes(layout: &Layout) -> ArrayVec<u8, 64>
    requires room { HasRoomFor layout.now layout.now.frames }
    requires reserved { is_some layout.now.reserve ≡ true }
    ensures items { result.items ≡ new_front layout.now layout.now.frames }
    ensures len { length result.items ≡ 48 }
{
    layout.keeps_rule();
    let bytes = data_bytes(layout, layout.frames);
    let whole = layout.start + bytes + bytes % 2 - NOT_COUNTED;
    let mut front = ArrayVec::new();
    put_all(&mut front, b"RF64");
    put_number(&mut front, Order::Little, NO_SIZE);
    put_all(&mut front, b"WAVE");
    put_all(&mut front, b"ds64");
    put_number(
        &mut front,
        Order::Little,
        u64::from(layout.reserve.unwrap_or(0)),
    );
    put_long(&mut front, whole);
    put_long(&mut front, bytes);
    put_long(&mut front, layout.frames);
    put_number(&mut front, Order::Little, 0);
    front
}

/// Notes that a file with a reservation, whose head declares the data of its frames, is RF64 now.
pub(crate) fn note_promoted(layout: &mut Layout)
    requires reserved { is_some layout.old.reserve ≡ true }
    requires declared { layout.old.declared ≡ data_bytes layout.old.params layout.old.frames }
    ensures { layout.new ≡ promoted_shape layout.old layout.old.frames }
{
    layout.keeps_rule();
    layout.kind = Kind::Rf64;
    layout.inner = INNER;
    layout.outer = Some(OUTER);
    layout.side = Some(SIDE);
    layout.trailing = false;
    layout.unknown_length = false;
    layout.reserve = None;
}

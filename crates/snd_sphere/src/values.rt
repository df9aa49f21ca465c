//! What the field of a head says of a number of frames, and what closes their data.

ghost use Rattle.std.specs.Prelude.{◌≡◌, ◌+◌, ◌≤◌, ◌++◌};
ghost use Rattle.arrayvec.specs.ArrayVec.{array_vec_len};
ghost use Rattle.snd_layout.specs.Container.{HasRoomFor};
ghost use Rattle.snd_layout.specs.Shape.{room as shape_room};
ghost use Rattle.snd_layout.specs.declared.kind.Kind.TheVariants.{Sphere};
ghost use Rattle.snd_sphere.specs.Values.{closing, inner_value, lowest_digits};

use arrayvec::ArrayVec;
use snd_layout::Layout;

/// The greatest number of data bytes, whatever the digits of the count hold.
const MOST_BYTES: u64 = (1 << 62) - 1024;

// Puts the lowest decimal digits of a number behind the others, the highest first.
pub(crate) fn put_digits(into: &mut ArrayVec<u8, 64>, count: u8, number: u64)
    requires { array_vec_len into.old + count ≤ 64 }
    ensures items { into.new.items ≡ into.old.items ++ lowest_digits count number }
    ensures len { array_vec_len into.new ≡ array_vec_len into.old + count }
{
    if count > 0 {
        put_digits(into, count - 1, number / 10);
        into.push(b'0' + (number % 10) as u8);
    }
}

/// The digits of the count for so many frames, as many as the field has.
#[tactic(auto, unfolding(crate::specs::Values::inner_value))]
pub fn inner_bytes(layout: &Layout, frames: u64) -> ArrayVec<u8, 64>
    requires kind { layout.now.kind ≡ Sphere }
    requires room { HasRoomFor layout.now frames }
    ensures { result.items ≡ inner_value layout.now frames }
{
    layout.keeps_rule();
    let mut digits = ArrayVec::new();
    put_digits(&mut digits, layout.inner.size, frames);
    digits
}

/// What closes the data of so many frames: nothing.
pub fn closing_bytes(layout: &Layout, frames: u64) -> ArrayVec<u8, 8>
    requires kind { layout.now.kind ≡ Sphere }
    requires room { HasRoomFor layout.now frames }
    ensures { result.items ≡ closing layout.now frames }
{
    let _ = &layout.start;
    let _ = frames;
    ArrayVec::new()
}

/// The greatest number of data bytes for which the digits of the count have room; it is held below 2^62.
pub fn room(layout: &Layout) -> u64
    requires { layout.now.kind ≡ Sphere }
    ensures { result ≡ shape_room layout.now }
{
    layout.keeps_rule();
    let align = u128::from(layout.params.block_align());
    let most = (10u128.pow(u32::from(layout.inner.size)) - 1) * align;
    most.min(u128::from(MOST_BYTES)) as u64
}

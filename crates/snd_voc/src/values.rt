//! What the size of a block says of a number of frames, and what closes their data.

ghost use Rattle.std.specs.Prelude.{◌≡◌, ◌+◌, ◌<◌, ◌^◌, None, true};
ghost use Rattle.snd_fields.specs.Field.{bytes_of};
ghost use Rattle.snd_fields.specs.declared.field.Order.TheVariants.{Little};
ghost use Rattle.snd_layout.specs.Container.{HasRoomFor};
ghost use Rattle.snd_layout.specs.Params.{data_bytes};
ghost use Rattle.snd_layout.specs.Shape.{room as shape_room};
ghost use Rattle.snd_layout.specs.declared.kind.Kind.TheVariants.{Voc};
ghost use Rattle.snd_voc.specs.Values.{closing, inner_value};

use arrayvec::ArrayVec;
use snd_layout::Layout;

/// The greatest size that a block may state.
const MOST_SIZE: u64 = (1 << 24) - 1;

// The data bytes of so many frames of a layout.

fn bytes_in(layout: &Layout, frames: u64) -> u64
    requires kind { layout.now.kind ≡ Voc }
    requires room { HasRoomFor layout.now frames }
    ensures { result ≡ data_bytes layout.now.params frames }
{
    layout.keeps_rule();
    frames * u64::from(layout.params.block_align())
}

// The lowest 3 bytes of a number, the lowest first.
fn size_bytes(value: u64) -> ArrayVec<u8, 64>
    ensures { result.items ≡ bytes_of Little 3 value }
{
    let [first, second, third, ..] = value.to_le_bytes();
    let mut bytes = ArrayVec::new();
    bytes.push(first);
    bytes.push(second);
    bytes.push(third);
    bytes
}

/// What the field that decides the count says of so many frames: the size of the block's body, which is
/// the data and the 2 bytes of a block of type 1, or the 12 of one of type 9, before them.
#[tactic(auto, unfolding(crate::specs::Values::inner_value))]
pub fn inner_bytes(layout: &Layout, frames: u64) -> ArrayVec<u8, 64>
    requires kind { layout.now.kind ≡ Voc }
    requires room { HasRoomFor layout.now frames }
    ensures { result.items ≡ inner_value layout.now frames }
{
    layout.keeps_rule();
    let format = layout.start - (layout.inner.at + 3);
    size_bytes(bytes_in(layout, frames) + format)
}

/// What closes the data, however many the frames are: the block of type 0, a lone byte.
#[tactic(auto, unfolding(crate::specs::Values::closing))]
pub fn closing_bytes(layout: &Layout, frames: u64) -> ArrayVec<u8, 8>
    requires kind { layout.now.kind ≡ Voc }
    requires room { HasRoomFor layout.now frames }
    ensures { result.items ≡ closing layout.now frames }
{
    let _ = &layout.start;
    let _ = frames;
    let mut closing = ArrayVec::new();
    closing.push(0);
    closing
}

/// The greatest number of data bytes for which the size of the block has room.
pub fn room(layout: &Layout) -> u64
    requires { layout.now.kind ≡ Voc }
    ensures { result ≡ shape_room layout.now }
{
    layout.keeps_rule();
    if layout.start == layout.inner.at + 5 {
        MOST_SIZE - 2
    } else {
        MOST_SIZE - 12
    }
}

//! What the fields of a file say of a number of frames, and what closes their data, for every kind.

ghost use Rattle.std.specs.Prelude.{◌≡◌, ◌-◌, ◌*◌, ◌^◌, ◌<◌, ◌≤◌, true, IfSome, length, min};
ghost use Rattle.snd_layout.specs.Blocks.{block_align};
ghost use Rattle.snd_layout.specs.Params.{data_bytes};
ghost use Rattle.snd_layout.specs.Shape.{room as shape_room};
ghost use Rattle.snd_layout.specs.Container.{FitsField, HasRoomFor};
ghost use Rattle.snd_layout.specs.Kinds.{holds_pieces};
ghost use Rattle.snd_container.specs.Late.{outer_to};
ghost use Rattle.snd_container.specs.Values.{closing, inner_value, outer_value, side_value};

use arrayvec::ArrayVec;
use snd_layout::{Kind, Layout, Params};

/// What the field that decides the count says of so many frames.
pub fn inner_bytes(layout: &Layout, frames: u64) -> ArrayVec<u8, 64>
    requires { HasRoomFor layout.now frames }
    ensures value { result.items ≡ inner_value layout.now frames }
    ensures fits { length result.items ≤ layout.now.inner.size }
    ensures few { length result.items ≤ 32 }
{
    layout.keeps_rule();
    match layout.kind {
        Kind::Wave => snd_wave::inner_bytes(layout, frames),
        Kind::Rf64 => snd_rf64::inner_bytes(layout, frames),
        Kind::W64 => snd_w64::inner_bytes(layout, frames),
        Kind::Au | Kind::Dns => snd_au::inner_bytes(layout, frames),
        Kind::Voc => snd_voc::inner_bytes(layout, frames),
        Kind::Svx => snd_svx::inner_bytes(layout, frames),
        Kind::Sphere => snd_sphere::inner_bytes(layout, frames),
    }
}

/// What the size of the whole says of so many frames.
pub fn outer_bytes(layout: &Layout, frames: u64) -> ArrayVec<u8, 64>
    requires { HasRoomFor layout.now frames }
    ensures value { result.items ≡ outer_value layout.now frames }
    ensures fits { FitsField layout.now.outer result.items }
    ensures few { length result.items ≤ 8 }
{
    layout.keeps_rule();
    match layout.kind {
        Kind::Wave => snd_wave::outer_bytes(layout, frames),
        Kind::Rf64 => snd_rf64::outer_bytes(layout, frames),
        Kind::W64 => snd_w64::outer_bytes(layout, frames),
        Kind::Svx => snd_svx::outer_bytes(layout, frames),
        Kind::Au | Kind::Dns | Kind::Voc | Kind::Sphere => ArrayVec::new(),
    }
}

/// What the size of the whole says of a file that ends at a place: `end - 8`, in the size of the field and
/// the byte order of the kind, which is `Wave`, `Rf64` or `Svx`. The number fits the field.
pub fn outer_to(layout: &Layout, end: u64) -> ArrayVec<u8, 64>
    requires kind { holds_pieces layout.now.kind ≡ true }
    requires least { 8 ≤ end }
    requires room { IfSome layout.now.outer (λ field. end - 8 < 2 ^ (8 * field.size)) }
    ensures value { result.items ≡ outer_to layout.now end }
    ensures fits { FitsField layout.now.outer result.items }
    ensures few { length result.items ≤ 8 }
{
    layout.keeps_rule();
    match layout.kind {
        Kind::Wave => snd_wave::outer_to(end),
        Kind::Rf64 => snd_rf64::outer_to(end),
        Kind::Svx => snd_svx::outer_to(end),
        Kind::W64 | Kind::Au | Kind::Dns | Kind::Voc | Kind::Sphere => unreachable!(),
    }
}

/// What the count says that is not read.
pub fn side_bytes(layout: &Layout, frames: u64) -> ArrayVec<u8, 64>
    requires { HasRoomFor layout.now frames }
    ensures value { result.items ≡ side_value layout.now frames }
    ensures fits { FitsField layout.now.side result.items }
    ensures few { length result.items ≤ 8 }
{
    layout.keeps_rule();
    match layout.kind {
        Kind::Wave => snd_wave::side_bytes(layout, frames),
        Kind::Rf64 => snd_rf64::side_bytes(layout, frames),
        Kind::W64 => snd_w64::side_bytes(layout, frames),
        Kind::Svx => snd_svx::side_bytes(layout, frames),
        Kind::Au | Kind::Dns | Kind::Voc | Kind::Sphere => ArrayVec::new(),
    }
}

/// What stands behind the data of so many frames.
pub fn closing_bytes(layout: &Layout, frames: u64) -> ArrayVec<u8, 8>
    requires { HasRoomFor layout.now frames }
    ensures value { result.items ≡ closing layout.now frames }
    ensures few { length result.items ≤ 7 }
{
    layout.keeps_rule();
    match layout.kind {
        Kind::Wave => snd_wave::closing_bytes(layout, frames),
        Kind::Rf64 => snd_rf64::closing_bytes(layout, frames),
        Kind::W64 => snd_w64::closing_bytes(layout, frames),
        Kind::Au | Kind::Dns => snd_au::closing_bytes(layout, frames),
        Kind::Voc => snd_voc::closing_bytes(layout, frames),
        Kind::Svx => snd_svx::closing_bytes(layout, frames),
        Kind::Sphere => snd_sphere::closing_bytes(layout, frames),
    }
}

/// The bytes of the data of so many frames, which stand in whole blocks.
#[tactic(auto, using(crate::proofs::Blocks::rounded_up, crate::proofs::Blocks::blocks_have_frames))]
pub fn data_bytes(layout: &Layout, frames: u64) -> u64
    requires { data_bytes layout.now.params frames < 2 ^ 63 }
    ensures { result ≡ data_bytes layout.now.params frames }
{
    layout.keeps_rule();
    layout.params.are_good();
    let blocks = frames.div_ceil(u64::from(layout.params.block_frames()));
    blocks * u64::from(layout.params.block_align())
}

// The same for SPHERE, whose count has so many digits.
fn sphere_room(params: &Params, digits: u8) -> u64
    requires some { 1 ≤ digits }
    requires most { digits ≤ 18 }
    ensures { result ≡ min ((10 ^ digits - 1) * block_align params.now.channels params.now.codec) (2 ^ 62 - 1024) }
{
    let most = 10u64.pow(u32::from(digits)) - 1;
    most.saturating_mul(u64::from(params.block_align()))
        .min((1 << 62) - 1024)
}

/// The greatest number of data bytes for which the fields of the head have room.
pub fn room(layout: &Layout) -> u64
    ensures { result ≡ shape_room layout.now }
{
    layout.keeps_rule();
    match layout.kind {
        Kind::Wave => snd_wave::room(layout),
        Kind::Svx => ((1 << 32) + 6u64).saturating_sub(layout.start),
        Kind::Rf64 | Kind::W64 => (1u64 << 62).saturating_sub(layout.start),
        Kind::Au | Kind::Dns => (1 << 32) - 2,
        Kind::Voc if layout.start - layout.inner.at == 5 => (1 << 24) - 3,
        Kind::Voc => (1 << 24) - 13,
        Kind::Sphere => sphere_room(&layout.params, layout.inner.size),
    }
}

//! Whether a head has a place for a reservation.

ghost use Rattle.std.specs.Prelude.{◌≡◌};
ghost use Rattle.snd_layout.specs.Blocks.{is_adpcm};
ghost use Rattle.snd_reservations.specs.States.{has_place, is_wave};

use snd_layout::{Codec, Kind, Layout};

// Whether files of a kind are WAVE files.
fn is_wave(kind: Kind) -> bool
    ensures { result ≡ is_wave kind }
{
    matches!(kind, Kind::Wave)
}

// Whether a codec's samples stand in blocks.
fn is_adpcm(codec: Codec) -> bool
    ensures { result ≡ is_adpcm codec }
{
    matches!(codec, Codec::Ima { .. } | Codec::Ms { .. })
}

/// Whether a chunk may be reserved for 64-bit sizes in the head of a layout: it is that of a WAVE file whose
/// samples have a fixed size, without further chunks and without a reservation.
pub fn has_place(layout: &Layout) -> bool
    ensures { result ≡ has_place layout.now }
{
    is_wave(layout.kind)
        && !is_adpcm(layout.params.codec)
        && layout.pieces.len() == 0
        && layout.reserve.is_none()
}

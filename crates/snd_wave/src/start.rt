//! Where the data begin in a file that is made with further chunks.

ghost use Rattle.std.specs.Prelude.{◌≡◌, ◌+◌, ◌<◌, ◌≤◌, ◌^◌};
ghost use Rattle.snd_wave.specs.Start.{BeginsWith, filled_start};
ghost use Rattle.snd_wave.specs.Written.{inner_size, plain_start as wave_plain_start};

use snd_layout::{Codec, Field, one_sector};

/// The bytes of the filler, a chunk `JUNK` with a body of 8.
const FILLER: u64 = 16;

/// The place of the data behind the filler, where it is needed: where the bytes before them that decide the
/// count would not lie in one sector without it.
pub fn filled_start(start: u64, inner: u8) -> u64
    requires some { 1 ≤ inner }
    requires fits { inner ≤ start }
    requires few { start < 2 ^ 32 }
    ensures value { result ≡ filled_start start inner }
    ensures few { result ≤ start + 16 }
{
    let field = Field {
        at: start - u64::from(inner),
        size: inner,
    };
    if one_sector(field) {
        start
    } else {
        start + FILLER
    }
}

// The place of the data of a WAVE file without further chunks.
fn wave_plain_start(codec: Codec) -> u64
    ensures value { result ≡ wave_plain_start codec }
    ensures least { 44 ≤ result }
    ensures most { result ≤ 90 }
{
    match codec {
        Codec::MuLaw | Codec::ALaw => 58,
        Codec::Ima { .. } => 60,
        Codec::Ms { .. } => 90,
        _ => 44,
    }
}

// The bytes that decide its count: in ADPCM all from the count of the `fact` to the data size.
fn wave_inner(codec: Codec) -> u8
    ensures value { result ≡ inner_size codec }
    ensures least { 4 ≤ result }
    ensures most { result ≤ 12 }
{
    if codec.is_adpcm() { 12 } else { 4 }
}

/// The place of the data of a WAVE file that is made with further chunks of so many bytes, at most 16777216.
#[tactic(auto, using(crate::proofs::Starts::begins_wave))]
pub fn start_with(codec: Codec, chunks: u64) -> u64
    requires { chunks ≤ 16777216 }
    ensures begins { BeginsWith codec chunks result }
    ensures few { result < 2 ^ 32 }
{
    filled_start(wave_plain_start(codec) + chunks, wave_inner(codec))
}

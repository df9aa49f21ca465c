//! Where the data and the whole end, and how many frames the data have.

ghost use Rattle.std.specs.Prelude.{◌≡◌, ◌+◌, ◌<◌, ◌^◌, None, nat_lt};
ghost use Rattle.snd_layout.specs.Fit.{fit_refusal};
ghost use Rattle.snd_layout.specs.declared.kind.Kind.TheVariants.{Wave};
ghost use Rattle.snd_chunks.specs.Parts.{frame_count, held, reached};
ghost use Rattle.snd_w64.specs.Layout.{data_end, outer_end, raised};

use snd_chunks::Chunk;
use snd_layout::{LAST_PLACE, Params};

/// The first multiple of 8 from a place on.
pub(crate) fn raised(place: u64) -> u64
    requires { place + 7 < 2 ^ 64 }
    ensures { result ≡ raised place }
{
    (place + 7) / 8 * 8
}

/// How far a file of so many bytes is read.
pub(crate) fn reached(size: u64) -> u64
    ensures { result ≡ reached size }
{
    size.min(LAST_PLACE)
}

/// The data bytes that a file of so many bytes holds of a data chunk.
pub(crate) fn held(size: u64, sound: Chunk) -> u64
    ensures { result ≡ held size sound }
{
    sound.len.min(reached(size).saturating_sub(sound.at))
}

/// Whether a file goes on behind its data: its size, and that of the whole.
pub(crate) fn goes_on(size: u64, whole: u64, sound: Chunk) -> bool
    requires { sound.at < 2 ^ 63 }
    ensures { result ≡ (nat_lt (data_end size sound) (outer_end size whole)) }
{
    raised(sound.at + held(size, sound)) < reached(size).min(whole)
}

/// The frames of so many data bytes: those of whole blocks, in ADPCM no more than a `fact` counts.
#[tactic(auto, using(crate::proofs::Shapes::blocks_have_bytes, crate::proofs::Blocks::whole_fit))]
pub(crate) fn frame_count(params: &Params, bytes: u64, count: Option<u64>) -> u64
    requires fits { fit_refusal Wave params.now ≡ None }
    requires few { bytes < 2 ^ 63 }
    ensures { result ≡ frame_count params.now bytes count }
{
    params.are_good();
    let whole = bytes / u64::from(params.block_align()) * u64::from(params.block_frames());
    match count {
        Some(count) if params.codec.is_adpcm() => count.min(whole),
        _ => whole,
    }
}

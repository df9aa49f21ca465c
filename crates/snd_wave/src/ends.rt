//! Where the data and the whole end, and how many frames the data have.

ghost use Rattle.std.specs.Prelude.{◌≡◌, ◌<◌, ◌≤◌, ◌^◌, None};
ghost use Rattle.snd_layout.specs.Fit.{fit_refusal};
ghost use Rattle.snd_layout.specs.declared.kind.Kind.TheVariants.{Wave};
ghost use Rattle.snd_chunks.specs.Parts.{frame_count, held};
ghost use Rattle.snd_wave.specs.Parts.{ends_of};

use snd_chunks::Chunk;
use snd_layout::{LAST_PLACE, Params};

/// Where the data of a file and the whole of it end.
#[derive(Clone, Copy, Debug, PartialEq, Eq)]
pub(crate) struct Ends {
    /// How many data bytes the file holds.
    pub(crate) held: u64,
    /// The place behind them and their pad byte.
    pub(crate) data_end: u64,
    /// The place behind the whole.
    pub(crate) outer_end: u64,
}

// The data bytes that a file of this size holds of a data chunk.
fn held_of(size: u64, sound: Chunk) -> u64
    ensures { result ≡ held size sound }
{
    sound.len.min(size.min(LAST_PLACE).saturating_sub(sound.at))
}

/// Where they end in a file of this size with this RIFF size.
pub(crate) fn ends_of(size: u64, riff: u32, sound: Chunk) -> Ends
    requires { sound.at < 2 ^ 63 }
    ensures { result ≡ ends_of size riff sound }
{
    let held = held_of(size, sound);
    let data_end = sound.at + held + held % 2;
    let outer_end = size.min(u64::from(riff) + 8);
    Ends {
        held,
        data_end,
        outer_end,
    }
}

/// The frames of so many data bytes: those of whole blocks, in ADPCM no more than a `fact` counts.
#[tactic(auto, using(crate::proofs::Shapes::blocks_have_bytes))]
pub(crate) fn frame_count(params: &Params, bytes: u64, count: Option<u32>) -> u64
    requires fits { fit_refusal Wave params.now ≡ None }
    requires few { bytes < 2 ^ 32 }
    ensures { result ≡ frame_count params.now bytes count }
{
    params.are_good();
    let whole = bytes / u64::from(params.block_align()) * u64::from(params.block_frames());
    match count {
        Some(count) if params.codec.is_adpcm() => u64::from(count).min(whole),
        _ => whole,
    }
}

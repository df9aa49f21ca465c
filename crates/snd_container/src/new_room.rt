//! How many bytes of data fit in a file that is to be made.

ghost use Rattle.std.specs.Prelude.{◌≡◌, ◌≤◌, None};
ghost use Rattle.snd_layout.specs.Fit.{fit_refusal};
ghost use Rattle.snd_container.specs.Room.{HasRoom};

use snd_layout::{Kind, Params};

/// Where data end at most in a RIFF and in an IFF file.
const MOST_END: u64 = (1 << 32) + 6;

/// .. and in RF64 and Wave64.
const MOST_LONG_END: u64 = 1 << 62;

/// The greatest count of the frames of a SPHERE file that is made.
const MOST_COUNTED: u64 = 9_999_999_999;

/// The greatest number of data bytes for which the head of a file has room that is made with these
/// parameters and with further chunks that take `chunks` bytes in all, at most 16777216, each as `chunk_size`
/// says. The kind holds the parameters. In a file of a kind that has no further chunks they count nothing.
pub fn room_with(kind: Kind, params: Params, chunks: u64) -> u64
    requires fits { fit_refusal kind params ≡ None }
    requires few { chunks ≤ 16777216 }
    ensures { HasRoom kind params chunks result }
{
    params.are_good();
    match kind {
        Kind::Wave => MOST_END - snd_wave::start_with(params.codec, chunks),
        Kind::Rf64 => MOST_LONG_END - snd_rf64::start_with(params.codec, chunks),
        Kind::Svx => MOST_END - snd_svx::start_with(chunks),
        Kind::W64 => MOST_LONG_END - snd_w64::start_with(params.codec),
        Kind::Au | Kind::Dns => (1 << 32) - 2,
        Kind::Voc => (1 << 24) - 13,
        Kind::Sphere => MOST_COUNTED * u64::from(params.block_align()),
    }
}

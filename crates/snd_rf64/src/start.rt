//! Where the data begin in a file that is made with further chunks.

ghost use Rattle.std.specs.Prelude.{◌<◌, ◌≤◌, ◌^◌};
ghost use Rattle.snd_rf64.specs.Start.{BeginsWith};
ghost use Rattle.snd_rf64.specs.Written.{plain_start};

use snd_layout::Codec;

/// The place of the data of an RF64 file that is made with further chunks of so many bytes, at most 16777216.
#[tactic(auto, using(crate::proofs::Starts::begins_rf64))]
pub fn start_with(codec: Codec, chunks: u64) -> u64
    requires { chunks ≤ 16777216 }
    ensures begins { BeginsWith codec chunks result }
    ensures few { result < 2 ^ 32 }
{
    let plain: u64 = match codec {
        Codec::MuLaw | Codec::ALaw => 82,
        _ => 80,
    };
    plain + chunks
}

//! Where the data begin in a file that is made.

ghost use Rattle.std.specs.Prelude.{◌≡◌, ◌≤◌};
ghost use Rattle.snd_w64.specs.Written.{start_of};

use snd_layout::Codec;

/// The place of the data of a Wave64 file that is made.
pub fn start_with(codec: Codec) -> u64
    ensures value { result ≡ start_of codec }
    ensures few { result ≤ 176 }
{
    match codec {
        Codec::MuLaw | Codec::ALaw | Codec::Ima { .. } => 144,
        Codec::Ms { .. } => 176,
        _ => 104,
    }
}

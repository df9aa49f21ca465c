//! Numbers of one codec as numbers of another.

ghost use Rattle.std.specs.Prelude.{◌≡◌};
ghost use Rattle.snd_edits.specs.Reading.{FitCodec};
ghost use Rattle.snd_pcm.specs.Width.{IsWidth};
ghost use Rattle.snd_output.specs.Widths.{change_numbers, width_of};

use snd_layout::Codec;
use snd_recode::change_widths;

/// How many bits the numbers of a codec have: 8, 16, 24 or 32.
pub fn width_of(codec: Codec) -> u8
    ensures value { result ≡ width_of codec }
    ensures is { IsWidth result }
{
    match codec {
        Codec::U8 | Codec::S8 => 8,
        Codec::S24(_) => 24,
        Codec::S32(_) => 32,
        Codec::S16(_) | Codec::MuLaw | Codec::ALaw | Codec::Ima { .. } | Codec::Ms { .. } => 16,
    }
}

/// Changes numbers of one codec to numbers of another: a wider one is a multiple by a power of two, a narrower one is
/// divided by it and rounded toward minus infinity.
pub fn change_numbers(from: Codec, to: Codec, numbers: &mut [i32])
    requires { FitCodec from numbers.old }
    ensures changed { numbers.new ≡ change_numbers from to numbers.old }
    ensures in_range { FitCodec to numbers.new }
{
    change_widths(width_of(from), width_of(to), numbers);
}

//! The range of the numbers of a codec.

ghost use Rattle.std.specs.Prelude.{◌≡◌};
ghost use Rattle.snd_racking.specs.Racked.{high_of, low_of};

use snd_layout::Codec;
use snd_output::width_of;

/// The least and the greatest number of a codec's width.
pub(crate) fn range_of(codec: Codec) -> (i32, i32)
    ensures low { result.0 ≡ low_of codec }
    ensures high { result.1 ≡ high_of codec }
{
    let width = width_of(codec);
    if width == 8 {
        (-0x80, 0x7f)
    } else if width == 16 {
        (-0x8000, 0x7fff)
    } else if width == 24 {
        (-0x80_0000, 0x7f_ffff)
    } else {
        (i32::MIN, i32::MAX)
    }
}

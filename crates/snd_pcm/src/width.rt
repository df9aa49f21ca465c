//! Numbers of one width as numbers of another.

ghost use Rattle.std.specs.Prelude.{◌≡◌, ◌<◌, ◌^◌};
ghost use Rattle.snd_pcm.specs.Width.{HasWidth, IsWidth, changed, floor_div};

/// A number of `from` bits as one of `to` bits: a wider one is a multiple by a power of two, a narrower
/// one is divided by it and rounded toward minus infinity.
#[inline]
pub fn change_width(from: u8, to: u8, value: i32) -> i32
    requires from_width { IsWidth from }
    requires to_width { IsWidth to }
    requires in_range { HasWidth from value }
    ensures value { result ≡ changed from to value }
    ensures in_range { HasWidth to result }
{
    if from <= to {
        value << (to - from)
    } else {
        narrowed(value, from - to)
    }
}

#[inline]
fn narrowed(value: i32, by: u8) -> i32
    requires { by < 32 }
    ensures { result ≡ floor_div value (2 ^ by) }
{
    value >> by
}

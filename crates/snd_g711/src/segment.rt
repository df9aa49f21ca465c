//! What both laws do alike with a magnitude: the steps that lie below it, from the digits of a float.
ghost use Rattle.std.specs.Prelude.{◌≡◌, ◌+◌, ◌/◌, ◌^◌, ◌≤◌, ◌<◌};
ghost use Rattle.snd_g711.specs.Segment.{segment_and_step};

/// Where floats stand one apart, so that a whole number lies in the last digits of what is this and the number.
const ONES: f32 = 8_388_608.0;

/// The exponent and the first four digits of the fraction of a magnitude as a float: from 128 on these are its
/// segment and its step, and below they say less than the count of steps of 8.
#[inline]
fn digits_of(magnitude: u16) -> u16
    requires { magnitude < 2 ^ 15 }
    ensures low { magnitude < 128 → result ≤ 2128 + magnitude / 8 }
    ensures high { 128 ≤ magnitude → result ≡ 2144 + segment_and_step magnitude }
{
    ((f32::from_bits(0x4b00_0000 + u32::from(magnitude)) - ONES).to_bits() >> 19) as u16
}

/// The code of a magnitude from 128 on: its segment and its step.
#[inline]
pub fn code_of(magnitude: u16) -> u16
    requires least { 128 ≤ magnitude }
    requires most { magnitude < 2 ^ 15 }
    ensures value { result ≡ segment_and_step magnitude }
    ensures bound { result < 128 }
{
    digits_of(magnitude) - 2144
}

/// How many steps lie below a magnitude, the sixteen steps of 8 below 128 included.
#[inline]
pub fn steps_below(magnitude: u16) -> u16
    requires { magnitude < 2 ^ 15 }
    ensures low { magnitude < 128 → result ≡ magnitude / 8 }
    ensures high { 128 ≤ magnitude → result ≡ 16 + segment_and_step magnitude }
    ensures bound { result < 144 }
{
    digits_of(magnitude).max((magnitude / 8).min(16) + 2128) - 2128
}

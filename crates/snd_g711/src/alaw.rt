//! The A-law.
ghost use Rattle.std.specs.Prelude.{◌≡◌, length, map, All, FitsSigned, if◌then◌else◌};
ghost use Rattle.std.specs.Int.{w16, is_negative};
ghost use Rattle.snd_g711.specs.Alaw.{alaw_value, alaw_distance, alaw_byte, AlawRoundTrip};

use crate::segment::steps_below;

/// The bits that the A-law inverts of a code and the sign bit of values from zero on.
const INVERTED: u16 = 0xD5;

/// The value of each byte.
static VALUES: [i32; 256] = [
    -5504, -5248, -6016, -5760, -4480, -4224, -4992, -4736, -7552, -7296, -8064, -7808, -6528,
    -6272, -7040, -6784, -2752, -2624, -3008, -2880, -2240, -2112, -2496, -2368, -3776, -3648,
    -4032, -3904, -3264, -3136, -3520, -3392, -22016, -20992, -24064, -23040, -17920, -16896,
    -19968, -18944, -30208, -29184, -32256, -31232, -26112, -25088, -28160, -27136, -11008, -10496,
    -12032, -11520, -8960, -8448, -9984, -9472, -15104, -14592, -16128, -15616, -13056, -12544,
    -14080, -13568, -344, -328, -376, -360, -280, -264, -312, -296, -472, -456, -504, -488, -408,
    -392, -440, -424, -88, -72, -120, -104, -24, -8, -56, -40, -216, -200, -248, -232, -152, -136,
    -184, -168, -1376, -1312, -1504, -1440, -1120, -1056, -1248, -1184, -1888, -1824, -2016, -1952,
    -1632, -1568, -1760, -1696, -688, -656, -752, -720, -560, -528, -624, -592, -944, -912, -1008,
    -976, -816, -784, -880, -848, 5504, 5248, 6016, 5760, 4480, 4224, 4992, 4736, 7552, 7296, 8064,
    7808, 6528, 6272, 7040, 6784, 2752, 2624, 3008, 2880, 2240, 2112, 2496, 2368, 3776, 3648, 4032,
    3904, 3264, 3136, 3520, 3392, 22016, 20992, 24064, 23040, 17920, 16896, 19968, 18944, 30208,
    29184, 32256, 31232, 26112, 25088, 28160, 27136, 11008, 10496, 12032, 11520, 8960, 8448, 9984,
    9472, 15104, 14592, 16128, 15616, 13056, 12544, 14080, 13568, 344, 328, 376, 360, 280, 264,
    312, 296, 472, 456, 504, 488, 408, 392, 440, 424, 88, 72, 120, 104, 24, 8, 56, 40, 216, 200,
    248, 232, 152, 136, 184, 168, 1376, 1312, 1504, 1440, 1120, 1056, 1248, 1184, 1888, 1824, 2016,
    1952, 1632, 1568, 1760, 1696, 688, 656, 752, 720, 560, 528, 624, 592, 944, 912, 1008, 976, 816,
    784, 880, 848,
];

/// The value of an A-law byte.
#[inline]
fn value_of(byte: u8) -> i32
    ensures { result ≡ alaw_value byte }
{
    VALUES[usize::from(byte)]
}

/// The 16-bit value of an A-law byte, -32256 to 32256.
pub fn alaw_decode(byte: u8) -> i16
    ensures { result ≡ alaw_value byte }
{
    value_of(byte) as i16
}

/// How far a value lies from 0, or a negative one from -1.
#[inline]
fn distance_of(value: i16) -> u16
    ensures { result ≡ alaw_distance value }
{
    if value < 0 {
        (-1 - value) as u16
    } else {
        value as u16
    }
}

/// The bits of a value's code that are inverted: the even ones, and the sign bit for zero and above.
#[inline]
fn inverted(value: i16) -> u16
    ensures { result ≡ (if is_negative value then 0x55 else 0xD5) }
{
    INVERTED ^ ((value >> 15).cast_unsigned() & 0x80)
}

/// The A-law byte of a 16-bit value.
#[inline]
pub fn alaw_encode(value: i16) -> u8
    ensures { result ≡ alaw_byte value }
{
    (steps_below(distance_of(value) / 2) ^ inverted(value)) as u8
}

/// Decodes a block: each byte's value stands in `into` at its place. Both have the same length.
pub fn alaw_decode_all(bytes: &[u8], into: &mut [i32])
    requires { length into.old ≡ length bytes.now }
    ensures values { into.new ≡ map alaw_value bytes.now }
    ensures in_range { All (FitsSigned w16) into.new }
{
    for (i, value) in into.iter_mut().enumerate() {
        *value = value_of(bytes[i]);
    }
}

/// Encodes a block: each value's byte stands in `bytes` at its place. Both have the same length.
pub fn alaw_encode_all(from: &[i32], bytes: &mut [u8])
    requires same_length { length bytes.old ≡ length from.now }
    requires in_range { All (FitsSigned w16) from.now }
    ensures { bytes.new ≡ map alaw_byte from.now }
{
    for (i, byte) in bytes.iter_mut().enumerate() {
        *byte = alaw_encode(from[i] as i16);
    }
}

/// Decoding and encoding give back each byte.
pub fn alaw_round_trip()
    ensures { AlawRoundTrip }
{}

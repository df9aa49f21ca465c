//! The mu-law.
ghost use Rattle.std.specs.Prelude.{◌≡◌, ◌<◌, pos, length, map, All, FitsSigned, if◌then◌else◌};
ghost use Rattle.std.specs.Int.{w16, is_negative};
ghost use Rattle.snd_g711.specs.Mulaw.{mulaw_magnitude, mulaw_value, mulaw_byte, MulawRoundTrip, MulawKeepsDecoded};

use crate::segment::code_of;

/// What brings a magnitude with the bias of 132 from 2 ^ 23 on, where floats stand one apart.
const TO_ONES: f32 = 8_388_476.0;

/// The magnitude of a code. A code's segment and step are a float's exponent and the first digits of its
/// fraction, and of that the compiler makes vector code, which it does not of a table.
#[inline]
fn magnitude_of(code: u8) -> i32
    requires { code < 128 }
    ensures { result ≡ pos (mulaw_magnitude code) }
{
    let biased = f32::from_bits(u32::from(code) * 0x8_0000 + 0x4304_0000);
    ((biased + TO_ONES).to_bits() - 0x4b00_0000) as i32
}

/// The value of a mu-law byte.
#[inline]
fn value_of(byte: u8) -> i32
    ensures { result ≡ mulaw_value byte }
{
    let magnitude = magnitude_of((255 - byte) % 128);
    if byte < 128 { -magnitude } else { magnitude }
}

/// The 16-bit value of a mu-law byte, -32124 to 32124.
pub fn mulaw_decode(byte: u8) -> i16
    ensures { result ≡ mulaw_value byte }
{
    value_of(byte) as i16
}

/// The bits of a value's code that are inverted: all, and the sign bit for zero and above.
#[inline]
fn inverted(value: i16) -> u16
    ensures { result ≡ (if is_negative value then 0x7F else 0xFF) }
{
    0xFF ^ ((value >> 15).cast_unsigned() & 0x80)
}

/// The mu-law byte of a 16-bit value. Beyond 32635 the magnitude is cut.
#[inline]
pub fn mulaw_encode(value: i16) -> u8
    ensures { result ≡ mulaw_byte value }
{
    (code_of(value.unsigned_abs().min(32635) + 132) ^ inverted(value)) as u8
}

/// Decodes a block: each byte's value stands in `into` at its place. Both have the same length.
pub fn mulaw_decode_all(bytes: &[u8], into: &mut [i32])
    requires { length into.old ≡ length bytes.now }
    ensures values { into.new ≡ map mulaw_value bytes.now }
    ensures in_range { All (FitsSigned w16) into.new }
{
    for (i, value) in into.iter_mut().enumerate() {
        *value = value_of(bytes[i]);
    }
}

/// Encodes a block: each value's byte stands in `bytes` at its place. Both have the same length.
pub fn mulaw_encode_all(from: &[i32], bytes: &mut [u8])
    requires same_length { length bytes.old ≡ length from.now }
    requires in_range { All (FitsSigned w16) from.now }
    ensures { bytes.new ≡ map mulaw_byte from.now }
{
    for (i, byte) in bytes.iter_mut().enumerate() {
        *byte = mulaw_encode(from[i] as i16);
    }
}

/// Decoding and encoding give back each byte but 0x7F, the second zero, which becomes 0xFF; and no
/// decoded value changes when it is encoded and decoded again.
pub fn mulaw_round_trip()
    ensures bytes { MulawRoundTrip }
    ensures values { MulawKeepsDecoded }
{}

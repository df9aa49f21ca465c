//! One linear sample as bytes, both ways.

ghost use Rattle.std.specs.Prelude.{◌≡◌, [], ◌∷◌, length};
ghost use Rattle.snd_pcm.specs.Pcm.{InRange, byte_count, sample, sample_bytes};
ghost use Rattle.snd_fields.specs.declared.field.Order.TheVariants.{Big, Little};

use crate::linear::Linear;
use snd_fields::Order;

// The number of a sample's bytes, and the bytes of a number: what each loop over samples does. Where the
// highest byte comes first, the bytes are taken the other way and the number is turned round, since of
// that form the compiler makes one load or store and one turn.

#[inline(always)]
pub(crate) fn from_u8(byte: u8) -> i32
    ensures { result ≡ sample Linear.U8 (byte ∷ []) }
{
    i32::from(byte) - 128
}

#[inline(always)]
pub(crate) fn from_s8(byte: u8) -> i32
    ensures { result ≡ sample Linear.S8 (byte ∷ []) }
{
    i32::from(byte.cast_signed())
}

#[inline(always)]
pub(crate) fn from_s16_little(low: u8, high: u8) -> i32
    ensures { result ≡ sample (Linear.S16 Little) (low ∷ high ∷ []) }
{
    i32::from(i16::from_le_bytes([low, high]))
}

#[inline(always)]
pub(crate) fn from_s16_big(high: u8, low: u8) -> i32
    ensures { result ≡ sample (Linear.S16 Big) (high ∷ low ∷ []) }
{
    i32::from(i16::from_le_bytes([high, low]).swap_bytes())
}

#[inline(always)]
pub(crate) fn from_s24_little(low: u8, middle: u8, high: u8) -> i32
    ensures { result ≡ sample (Linear.S24 Little) (low ∷ middle ∷ high ∷ []) }
{
    i32::from_le_bytes([0, low, middle, high]) >> 8
}

#[inline(always)]
pub(crate) fn from_s24_big(high: u8, middle: u8, low: u8) -> i32
    ensures { result ≡ sample (Linear.S24 Big) (high ∷ middle ∷ low ∷ []) }
{
    i32::from_le_bytes([high, middle, low, 0]).swap_bytes() >> 8
}

#[inline(always)]
pub(crate) fn from_s32_little(low: u8, second: u8, third: u8, high: u8) -> i32
    ensures { result ≡ sample (Linear.S32 Little) (low ∷ second ∷ third ∷ high ∷ []) }
{
    i32::from_le_bytes([low, second, third, high])
}

#[inline(always)]
pub(crate) fn from_s32_big(high: u8, third: u8, second: u8, low: u8) -> i32
    ensures { result ≡ sample (Linear.S32 Big) (high ∷ third ∷ second ∷ low ∷ []) }
{
    i32::from_le_bytes([high, third, second, low]).swap_bytes()
}

#[inline(always)]
pub(crate) fn to_u8(value: i32) -> u8
    requires { InRange Linear.U8 value }
    ensures { result ∷ [] ≡ sample_bytes Linear.U8 value }
{
    (value + 128) as u8
}

#[inline(always)]
pub(crate) fn to_s8(value: i32) -> u8
    requires { InRange Linear.S8 value }
    ensures { result ∷ [] ≡ sample_bytes Linear.S8 value }
{
    (value as i8).cast_unsigned()
}

#[inline(always)]
pub(crate) fn to_s16_little(value: i32) -> [u8; 2]
    requires { InRange (Linear.S16 Little) value }
    ensures { result ≡ sample_bytes (Linear.S16 Little) value }
{
    // the clamp changes no number, but with it eight are narrowed by one instruction
    (value.clamp(-0x8000, 0x7fff) as i16).to_le_bytes()
}

#[inline(always)]
pub(crate) fn to_s16_big(value: i32) -> [u8; 2]
    requires { InRange (Linear.S16 Big) value }
    ensures { result ≡ sample_bytes (Linear.S16 Big) value }
{
    (value as i16).swap_bytes().to_le_bytes()
}

#[inline(always)]
pub(crate) fn to_s24_little(value: i32) -> [u8; 3]
    requires { InRange (Linear.S24 Little) value }
    ensures { result ≡ sample_bytes (Linear.S24 Little) value }
{
    let [low, middle, high, _] = value.to_le_bytes();
    [low, middle, high]
}

#[inline(always)]
pub(crate) fn to_s24_big(value: i32) -> [u8; 3]
    requires { InRange (Linear.S24 Big) value }
    ensures { result ≡ sample_bytes (Linear.S24 Big) value }
{
    let [low, middle, high, _] = value.to_le_bytes();
    [high, middle, low]
}

#[inline(always)]
pub(crate) fn to_s32_little(value: i32) -> [u8; 4]
    ensures { result ≡ sample_bytes (Linear.S32 Little) value }
{
    value.to_le_bytes()
}

#[inline(always)]
pub(crate) fn to_s32_big(value: i32) -> [u8; 4]
    ensures { result ≡ sample_bytes (Linear.S32 Big) value }
{
    value.swap_bytes().to_le_bytes()
}

/// The number that a sample's bytes stand for.
pub fn read_sample(form: Linear, bytes: &[u8]) -> i32
    requires { length bytes.now ≡ byte_count form }
    ensures value { result ≡ sample form bytes.now }
    ensures in_range { InRange form result }
{
    match form {
        Linear::U8 => from_u8(bytes[0]),
        Linear::S8 => from_s8(bytes[0]),
        Linear::S16(Order::Little) => from_s16_little(bytes[0], bytes[1]),
        Linear::S16(Order::Big) => from_s16_big(bytes[0], bytes[1]),
        Linear::S24(Order::Little) => from_s24_little(bytes[0], bytes[1], bytes[2]),
        Linear::S24(Order::Big) => from_s24_big(bytes[0], bytes[1], bytes[2]),
        Linear::S32(Order::Little) => from_s32_little(bytes[0], bytes[1], bytes[2], bytes[3]),
        Linear::S32(Order::Big) => from_s32_big(bytes[0], bytes[1], bytes[2], bytes[3]),
    }
}

/// Writes a number that is in the range of the form as a sample's bytes.
pub fn put_sample(form: Linear, value: i32, into: &mut [u8])
    requires room { length into.old ≡ byte_count form }
    requires in_range { InRange form value }
    ensures { into.new ≡ sample_bytes form value }
{
    match form {
        Linear::U8 => into[0] = to_u8(value),
        Linear::S8 => into[0] = to_s8(value),
        Linear::S16(Order::Little) => into.copy_from_slice(&to_s16_little(value)),
        Linear::S16(Order::Big) => into.copy_from_slice(&to_s16_big(value)),
        Linear::S24(Order::Little) => into.copy_from_slice(&to_s24_little(value)),
        Linear::S24(Order::Big) => into.copy_from_slice(&to_s24_big(value)),
        Linear::S32(Order::Little) => into.copy_from_slice(&to_s32_little(value)),
        Linear::S32(Order::Big) => into.copy_from_slice(&to_s32_big(value)),
    }
}

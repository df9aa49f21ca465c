//! The linear codecs.

ghost use Rattle.std.specs.Prelude.{◌≡◌};
ghost use Rattle.snd_pcm.specs.Pcm.{bit_count, byte_count, high, low};

use snd_fields::Order;

/// How a linear codec writes a sample.
#[derive(Clone, Copy, Debug, PartialEq, Eq)]
pub enum Linear {
    /// 8 bits with 128 added, as in WAVE files.
    U8,
    /// 8 bits, two's complement.
    S8,
    /// 16 bits, two's complement.
    S16(Order),
    /// 24 bits, two's complement, in 3 bytes.
    S24(Order),
    /// 32 bits, two's complement.
    S32(Order),
}

impl Linear {
    /// How many bytes a sample has: 1 to 4.
    pub fn bytes(self) -> usize
        ensures { result ≡ byte_count self }
    {
        match self {
            Linear::U8 | Linear::S8 => 1,
            Linear::S16(_) => 2,
            Linear::S24(_) => 3,
            Linear::S32(_) => 4,
        }
    }

    /// How many bits a sample has: 8, 16, 24 or 32.
    pub fn width(self) -> u8
        ensures { result ≡ bit_count self }
    {
        match self {
            Linear::U8 | Linear::S8 => 8,
            Linear::S16(_) => 16,
            Linear::S24(_) => 24,
            Linear::S32(_) => 32,
        }
    }

    /// The least number that a sample can have.
    pub fn low(self) -> i32
        ensures { result ≡ low self }
    {
        match self {
            Linear::U8 | Linear::S8 => -0x80,
            Linear::S16(_) => -0x8000,
            Linear::S24(_) => -0x80_0000,
            Linear::S32(_) => i32::MIN,
        }
    }

    /// The greatest number that a sample can have.
    pub fn high(self) -> i32
        ensures { result ≡ high self }
    {
        match self {
            Linear::U8 | Linear::S8 => 0x7f,
            Linear::S16(_) => 0x7fff,
            Linear::S24(_) => 0x7f_ffff,
            Linear::S32(_) => i32::MAX,
        }
    }
}

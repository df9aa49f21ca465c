//! The codecs: how samples stand in a file.

ghost use Rattle.std.specs.Prelude.{◌≡◌};
ghost use Rattle.snd_layout.specs.Blocks.{is_adpcm};
ghost use Rattle.snd_layout.specs.Names.{codec_name};

use snd_fields::Order;

/// How samples stand in a file.
#[derive(Clone, Copy, Debug, PartialEq, Eq)]
pub enum Codec {
    /// Linear, 8 bits with 128 added.
    U8,
    /// Linear, 8 bits, two's complement.
    S8,
    /// Linear, 16 bits, two's complement.
    S16(Order),
    /// Linear, 24 bits, two's complement, in 3 bytes.
    S24(Order),
    /// Linear, 32 bits, two's complement.
    S32(Order),
    /// ITU-T G.711 mu-law, a byte a sample.
    MuLaw,
    /// ITU-T G.711 A-law, a byte a sample.
    ALaw,
    /// IMA (DVI) ADPCM as WAVE files hold it, in blocks of `align` bytes that hold `per_block` frames.
    Ima { align: u16, per_block: u16 },
    /// Microsoft ADPCM, in blocks of `align` bytes that hold `per_block` frames.
    Ms { align: u16, per_block: u16 },
}

impl Codec {
    /// Whether samples stand in blocks, and have no bytes of their own.
    pub fn is_adpcm(&self) -> bool
        ensures { result ≡ is_adpcm self.now }
    {
        matches!(self, Codec::Ima { .. } | Codec::Ms { .. })
    }

    /// The word that stands for it in scripts and in what is printed, as `pcm_16_le`.
    pub fn name(&self) -> &'static str
        ensures { result.now ≡ codec_name self.now }
    {
        match self {
            Codec::U8 => "pcm_u8",
            Codec::S8 => "pcm_s8",
            Codec::S16(Order::Little) => "pcm_16_le",
            Codec::S16(Order::Big) => "pcm_16_be",
            Codec::S24(Order::Little) => "pcm_24_le",
            Codec::S24(Order::Big) => "pcm_24_be",
            Codec::S32(Order::Little) => "pcm_32_le",
            Codec::S32(Order::Big) => "pcm_32_be",
            Codec::MuLaw => "ulaw",
            Codec::ALaw => "alaw",
            Codec::Ima { .. } => "ima",
            Codec::Ms { .. } => "ms",
        }
    }
}

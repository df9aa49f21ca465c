//! Why a file is not opened or made.

ghost use Rattle.std.specs.Prelude.{◌≡◌};
ghost use Rattle.snd_layout.specs.Names.{refusal_name, refusal_number};

use thiserror::Error;

/// Why a file is not opened, or not made with some parameters. Where several reasons hold, the answer
/// is the one with the lowest number.
#[derive(Clone, Copy, Debug, PartialEq, Eq, Error)]
pub enum OpenRefusal {
    /// It is of no kind that is known.
    #[error("the file is of no kind that is known")]
    NotSound,
    /// Its kind holds the rate as a floating-point number.
    #[error("the file holds its rate as a floating-point number")]
    FloatRate,
    /// It is shorter than the head of its kind.
    #[error("the file is shorter than its head")]
    ShortHeader,
    /// A field of its head has no meaning.
    #[error("a field of the head is wrong")]
    BadField,
    /// More than 256 chunks or blocks come before the sound.
    #[error("more than 256 chunks stand before the data")]
    TooManyChunks,
    /// It does not say its format, or not in full.
    #[error("the file does not say its format")]
    NoFormat,
    /// It has no data.
    #[error("the file has no data")]
    NoData,
    /// A block that is not read comes before the sound.
    #[error("a block that is not read stands before the sound")]
    LeadingBlock,
    /// Its codec is not known.
    #[error("the codec is not known")]
    UnknownCodec,
    /// Its samples are floating-point numbers.
    #[error("the samples are floating-point numbers")]
    FloatSamples,
    /// Its number of channels is not one from 1 to 256, or its kind does not hold it.
    #[error("the number of channels is 0 or above 256")]
    BadChannels,
    /// Its rate is 0, or too great.
    #[error("the rate is out of range")]
    BadRate,
    /// Its codec has no samples of so many bits.
    #[error("the number of bits of a sample is none that is known")]
    BadBits,
    /// Its block align, or its number of samples in a block, is not that of its codec.
    #[error("the size of a block is not that of the codec")]
    BadAlign,
    /// It has blocks of more than 8192 bytes.
    #[error("a block has more than 8192 bytes")]
    BlockTooLarge,
    /// It is Microsoft ADPCM with other coefficients than the standard ones.
    #[error("the coefficients are not those of Microsoft ADPCM")]
    OtherCoefs,
    /// Its body is packed, or has several octaves.
    #[error("the body is packed or has several octaves")]
    PackedBody,
    /// Its kind does not hold its codec, byte order or number of channels.
    #[error("the kind does not hold this codec, order or number of channels")]
    BadPair,
}

impl OpenRefusal {
    /// The number that is printed: 1 to 18.
    pub fn number(&self) -> u8
        ensures { result ≡ refusal_number self.now }
    {
        match self {
            OpenRefusal::NotSound => 1,
            OpenRefusal::FloatRate => 2,
            OpenRefusal::ShortHeader => 3,
            OpenRefusal::BadField => 4,
            OpenRefusal::TooManyChunks => 5,
            OpenRefusal::NoFormat => 6,
            OpenRefusal::NoData => 7,
            OpenRefusal::LeadingBlock => 8,
            OpenRefusal::UnknownCodec => 9,
            OpenRefusal::FloatSamples => 10,
            OpenRefusal::BadChannels => 11,
            OpenRefusal::BadRate => 12,
            OpenRefusal::BadBits => 13,
            OpenRefusal::BadAlign => 14,
            OpenRefusal::BlockTooLarge => 15,
            OpenRefusal::OtherCoefs => 16,
            OpenRefusal::PackedBody => 17,
            OpenRefusal::BadPair => 18,
        }
    }

    /// The word that is printed: the variant's own name, as `BadRate`.
    pub fn name(&self) -> &'static str
        ensures { result.now ≡ refusal_name self.now }
    {
        match self {
            OpenRefusal::NotSound => "NotSound",
            OpenRefusal::FloatRate => "FloatRate",
            OpenRefusal::ShortHeader => "ShortHeader",
            OpenRefusal::BadField => "BadField",
            OpenRefusal::TooManyChunks => "TooManyChunks",
            OpenRefusal::NoFormat => "NoFormat",
            OpenRefusal::NoData => "NoData",
            OpenRefusal::LeadingBlock => "LeadingBlock",
            OpenRefusal::UnknownCodec => "UnknownCodec",
            OpenRefusal::FloatSamples => "FloatSamples",
            OpenRefusal::BadChannels => "BadChannels",
            OpenRefusal::BadRate => "BadRate",
            OpenRefusal::BadBits => "BadBits",
            OpenRefusal::BadAlign => "BadAlign",
            OpenRefusal::BlockTooLarge => "BlockTooLarge",
            OpenRefusal::OtherCoefs => "OtherCoefs",
            OpenRefusal::PackedBody => "PackedBody",
            OpenRefusal::BadPair => "BadPair",
        }
    }
}

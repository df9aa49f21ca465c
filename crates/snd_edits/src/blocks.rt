//! The blocks of ADPCM that this library writes. Their size is its own choice.

ghost use Rattle.std.specs.Prelude.{◌≡◌};
ghost use Rattle.snd_edits.specs.Blocks.{block_channels, channel_align, ima_made, ms_made};

use snd_layout::Codec;

// The bytes of a block for each channel.
fn channel_align(rate: u64) -> u16
    ensures { result ≡ channel_align rate }
{
    if rate < 12000 {
        256
    } else if rate < 23000 {
        512
    } else {
        1024
    }
}

// The channels of a block. No kind holds ADPCM of more than two.
fn block_channels(channels: u64) -> u16
    ensures { result ≡ block_channels channels }
{
    if channels > 1 { 2 } else { 1 }
}

/// The codec of IMA ADPCM that is made with so many channels and frames a second: a block has 256 bytes for
/// each channel where the rate is below 12000, 512 where it is below 23000, and 1024 from there on. For more
/// than two channels, which no kind holds, the blocks are those of two.
pub fn ima_codec(channels: u64, rate: u64) -> Codec
    ensures { result ≡ ima_made channels rate }
{
    let channels = block_channels(channels);
    let align = channels * channel_align(rate);
    Codec::Ima {
        align,
        per_block: (align - 4 * channels) * 2 / channels + 1,
    }
}

/// The codec of Microsoft ADPCM that is made with so many channels and frames a second, with blocks of the
/// same size.
pub fn ms_codec(channels: u64, rate: u64) -> Codec
    ensures { result ≡ ms_made channels rate }
{
    let channels = block_channels(channels);
    let align = channels * channel_align(rate);
    Codec::Ms {
        align,
        per_block: (align - 7 * channels) * 2 / channels + 2,
    }
}

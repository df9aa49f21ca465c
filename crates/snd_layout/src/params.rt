//! The parameters of a sound.

ghost use Rattle.std.specs.Prelude.{◌≡◌, ◌≤◌, length, Some, None, if◌then◌else◌};
ghost use Rattle.snd_layout.specs.Blocks.{block_align, block_frames, is_ima_block, is_ms_block};
ghost use Rattle.snd_layout.specs.Params.{AreParams, block_refusal, params_of, size_refusal};

use crate::codec::Codec;
use crate::refusal::OpenRefusal;
use std::marker::Model;

const MOST_CHANNELS: u64 = 256;

const MOST_BLOCK_BYTES: u16 = 8192;

/// The parameters of a sound: 1 to 256 channels, a rate of at least 1 frame a second, and a codec. The
/// blocks of an ADPCM codec with 1 or 2 channels have the form of that codec and at most 8192 bytes.
#[derive(Clone, Copy, Debug, PartialEq, Eq)]
pub struct Params {
    pub channels: u16,
    /// Frames a second.
    pub rate: u32,
    pub codec: Codec,
}

impl Model for Params {
    ghost use Rattle.snd_layout.specs.Params.{AreParams, Parameters};

    ghost Value = { Parameters };

    ghost view = { λ p. record { channels = p.channels; rate = p.rate; codec = p.codec } };

    ghost invariant = { λ p. AreParams (record { channels = p.channels; rate = p.rate; codec = p.codec }) };

    ghost inverse = { λ p. record { channels = p.channels; rate = p.rate; codec = p.codec } };
}

impl Params {
    /// The parameters, where they are good: BadChannels where the channels are 0 or above 256, then
    /// BadRate where the rate is 0 or above 4294967295. For an ADPCM codec with 1 or 2 channels there
    /// follow BadAlign where the block align or the frames of a block are not those of the codec, and
    /// BlockTooLarge where a block has more than 8192 bytes.
    pub fn new(channels: u64, rate: u64, codec: Codec) -> Result<Params, OpenRefusal>
        ensures { result ≡ params_of channels rate codec }
    {
        if channels == 0 || channels > MOST_CHANNELS {
            return Err(OpenRefusal::BadChannels);
        }
        if rate == 0 || rate > u64::from(u32::MAX) {
            return Err(OpenRefusal::BadRate);
        }
        let channels = channels as u16;
        let rate = rate as u32;
        if let Some(refusal) = refused_blocks(channels, codec) {
            return Err(refusal);
        }
        Ok(Params {
            channels,
            rate,
            codec,
        })
    }

    /// What holds of all parameters.
    pub fn are_good(&self)
        ensures { AreParams self.now }
    {
        let _ = &self.channels;
    }

    /// The bytes of a block, which is a single frame but for ADPCM.
    pub fn block_align(&self) -> u16
        ensures { result ≡ block_align self.now.channels self.now.codec }
    {
        block_align(self.channels, self.codec)
    }

    /// The frames of a block: 1 but for ADPCM.
    pub fn block_frames(&self) -> u16
        ensures { result ≡ block_frames self.now.codec }
    {
        match self.codec {
            Codec::Ima { per_block, .. } | Codec::Ms { per_block, .. } => per_block,
            _ => 1,
        }
    }
}

// The bytes of a block.
pub(crate) fn block_align(channels: u16, codec: Codec) -> u16
    requires { channels ≤ 256 }
    ensures { result ≡ block_align channels codec }
{
    match codec {
        Codec::U8 | Codec::S8 | Codec::MuLaw | Codec::ALaw => channels,
        Codec::S16(_) => 2 * channels,
        Codec::S24(_) => 3 * channels,
        Codec::S32(_) => 4 * channels,
        Codec::Ima { align, .. } | Codec::Ms { align, .. } => align,
    }
}

// Whether blocks of `align` bytes with `per_block` frames have the form of IMA ADPCM.
pub(crate) fn is_ima_block(channels: u16, align: u16, per_block: u16) -> bool
    requires some { 1 ≤ channels }
    requires most { channels ≤ 256 }
    ensures { result ≡ is_ima_block channels align per_block }
{
    let channels = u32::from(channels);
    let head = 4 * channels;
    let align = u32::from(align);
    align >= head
        && (align - head).is_multiple_of(head)
        && u32::from(per_block) == (align - head) * 2 / channels + 1
}

// Whether they have the form of Microsoft ADPCM.
pub(crate) fn is_ms_block(channels: u16, align: u16, per_block: u16) -> bool
    requires some { 1 ≤ channels }
    requires most { channels ≤ 256 }
    ensures { result ≡ is_ms_block channels align per_block }
{
    let channels = u32::from(channels);
    let head = 7 * channels;
    let align = u32::from(align);
    align >= head
        && ((align - head) * 2).is_multiple_of(channels)
        && u32::from(per_block) == (align - head) * 2 / channels + 2
}

// Why blocks of `align` bytes are refused, where their form is good or not.
pub(crate) fn refused_size(good: bool, align: u16) -> Option<OpenRefusal>
    ensures { result ≡ size_refusal good align }
{
    if !good {
        Some(OpenRefusal::BadAlign)
    } else if align > MOST_BLOCK_BYTES {
        Some(OpenRefusal::BlockTooLarge)
    } else {
        None
    }
}

fn refused_blocks(channels: u16, codec: Codec) -> Option<OpenRefusal>
    requires some { 1 ≤ channels }
    requires most { channels ≤ 256 }
    ensures { result ≡ block_refusal channels codec }
{
    match codec {
        Codec::Ima { align, per_block } if channels <= 2 => {
            refused_size(is_ima_block(channels, align, per_block), align)
        }
        Codec::Ms { align, per_block } if channels <= 2 => {
            refused_size(is_ms_block(channels, align, per_block), align)
        }
        _ => None,
    }
}

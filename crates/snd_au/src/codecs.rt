//! The encodings of samples, and the parameters that a head states.

ghost use Rattle.std.specs.Prelude.{◌≡◌, IfOk, None};
ghost use Rattle.snd_au.specs.Layout.{codec_of, kind_of, params_in};
ghost use Rattle.snd_au.specs.Written.{encoding_of};
ghost use Rattle.snd_layout.specs.Fit.{fit_refusal};

use crate::numbers::Numbers;
use snd_fields::Order;
use snd_layout::{Codec, OpenRefusal, Params};

// The codec of an encoding, or why there is none.
fn codec_of(order: Order, encoding: u32) -> Result<Codec, OpenRefusal>
    ensures { result ≡ codec_of order encoding }
{
    match encoding {
        1 => Ok(Codec::MuLaw),
        2 => Ok(Codec::S8),
        3 => Ok(Codec::S16(order)),
        4 => Ok(Codec::S24(order)),
        5 => Ok(Codec::S32(order)),
        27 => Ok(Codec::ALaw),
        6 | 7 => Err(OpenRefusal::FloatSamples),
        _ => Err(OpenRefusal::UnknownCodec),
    }
}

/// The encoding of a codec: 0 where there is none.
pub(crate) fn encoding_of(codec: Codec) -> u32
    ensures { result ≡ encoding_of codec }
{
    match codec {
        Codec::MuLaw => 1,
        Codec::S8 => 2,
        Codec::S16(_) => 3,
        Codec::S24(_) => 4,
        Codec::S32(_) => 5,
        Codec::ALaw => 27,
        _ => 0,
    }
}

/// The parameters that the numbers of a head state, or why they are refused.
pub(crate) fn params_in(order: Order, numbers: Numbers) -> Result<Params, OpenRefusal>
    ensures value { result ≡ params_in order numbers }
    ensures fits { IfOk result (λ p. fit_refusal (kind_of order) p ≡ None) }
{
    let codec = codec_of(order, numbers.encoding)?;
    Params::new(u64::from(numbers.channels), u64::from(numbers.rate), codec)
}

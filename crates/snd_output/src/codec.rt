//! The codec and the parameters of a file that is made like another.

ghost use Rattle.std.specs.Prelude.{◌≡◌, IfOk, None};
ghost use Rattle.snd_layout.specs.Fit.{fit_refusal};
ghost use Rattle.snd_output.specs.Codecs.{codec_like, params_like};

use snd_container::fit;
use snd_edits::{ima_codec, ms_codec};
use snd_layout::{Codec, Kind, OpenRefusal, Params};

/// The codec of a file with so many channels and frames a second that is made like one with another: the same,
/// but that blocks of ADPCM have the size that `ima_codec` and `ms_codec` give them.
pub fn codec_like(channels: u64, rate: u64, codec: Codec) -> Codec
    ensures { result ≡ codec_like channels rate codec }
{
    match codec {
        Codec::Ima { .. } => ima_codec(channels, rate),
        Codec::Ms { .. } => ms_codec(channels, rate),
        other => other,
    }
}

/// The parameters of a file of a kind with so many channels that is made like one with others, where the kind
/// holds them; else why it does not, as `Params::new` and `fit` say.
pub fn params_like(kind: Kind, channels: u64, like: Params) -> Result<Params, OpenRefusal>
    ensures value { result ≡ params_like kind channels like }
    ensures fits { IfOk result (λ p. fit_refusal kind p ≡ None) }
    ensures channels { IfOk result (λ p. p.channels ≡ channels) }
{
    let rate = u64::from(like.rate);
    let codec = codec_like(channels, rate, like.codec);
    let params = Params::new(channels, rate, codec)?;
    fit(kind, params)?;
    Ok(params)
}

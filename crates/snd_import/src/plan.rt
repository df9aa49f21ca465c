//! What a file becomes that is imported.

ghost use Rattle.std.specs.Prelude.{◌≡◌, IfOk, None};
ghost use Rattle.snd_layout.specs.Fit.{fit_refusal};
ghost use Rattle.snd_import.specs.Import.{class_in, params_for};

use snd_container::fit;
use snd_layout::{Codec, Kind, OpenRefusal, Params};

// The codec of the same class in a kind: as many bits, in the order of bytes that the kind has.
fn class_in(kind: Kind, codec: Codec) -> Codec
    ensures { result ≡ class_in kind codec }
{
    match codec {
        Codec::U8 | Codec::S8 => kind.eight_bits(),
        Codec::S16(_) => Codec::S16(kind.own_order()),
        Codec::S24(_) => Codec::S24(kind.own_order()),
        Codec::S32(_) => Codec::S32(kind.own_order()),
        other => other,
    }
}

/// The parameters of a file of a kind that is made of samples with others: as `convert` gives it where no option is
/// set. Or the first reason why the kind does not hold them: `BadRate` or `BadPair`, as `fit` says.
pub(crate) fn params_for(kind: Kind, from: Params) -> Result<Params, OpenRefusal>
    ensures value { result ≡ params_for kind from }
    ensures fits { IfOk result (λ p. fit_refusal kind p ≡ None) }
{
    let codec = class_in(kind, from.codec);
    let params = Params::new(u64::from(from.channels), u64::from(from.rate), codec)?;
    fit(kind, params)?;
    Ok(params)
}

//! What a file becomes that is converted.

ghost use Rattle.std.specs.Prelude.{◌≡◌, None, IfOk};
ghost use Rattle.snd_layout.specs.Fit.{fit_refusal};
ghost use Rattle.snd_layout.specs.Params.{params_of};
ghost use Rattle.snd_convert.specs.Plan.{chosen, codec_in, fitted, planned, same_class};
ghost use Rattle.snd_convert.specs.Planning.{asked_of, plan_by};

use snd_container::fit;
use snd_edits::{ima_codec, ms_codec};
use snd_fields::Order;
use snd_layout::{Codec, Kind, OpenRefusal, Params};
use snd_output::codec_like;
use snd_words::{CodecChoice, Conversion};

/// The kind and the parameters of the file that is made.
#[derive(Clone, Copy, Debug, PartialEq, Eq)]
pub struct Plan {
    pub kind: Kind,
    pub params: Params,
}

// The codec of the same class in a kind.
fn same_class(kind: Kind, order: Order, channels: u64, rate: u64, from: Codec) -> Codec
    ensures { result ≡ same_class kind order channels rate from }
{
    match from {
        Codec::U8 | Codec::S8 => kind.eight_bits(),
        Codec::S16(_) => Codec::S16(order),
        Codec::S24(_) => Codec::S24(order),
        Codec::S32(_) => Codec::S32(order),
        other => codec_like(channels, rate, other),
    }
}

// The codec that is asked for.
fn chosen(order: Order, channels: u64, rate: u64, choice: CodecChoice) -> Codec
    ensures { result ≡ chosen order channels rate choice }
{
    match choice {
        CodecChoice::S8 => Codec::S8,
        CodecChoice::U8 => Codec::U8,
        CodecChoice::Pcm16 => Codec::S16(order),
        CodecChoice::Pcm24 => Codec::S24(order),
        CodecChoice::Pcm32 => Codec::S32(order),
        CodecChoice::MuLaw => Codec::MuLaw,
        CodecChoice::ALaw => Codec::ALaw,
        CodecChoice::Ima => ima_codec(channels, rate),
        CodecChoice::Ms => ms_codec(channels, rate),
    }
}

fn codec_in(
    asked: Option<CodecChoice>,
    kind: Kind,
    order: Order,
    channels: u64,
    rate: u64,
    from: Codec,
) -> Codec
    ensures { result ≡ codec_in asked kind order channels rate from }
{
    match asked {
        Some(choice) => chosen(order, channels, rate, choice),
        None => same_class(kind, order, channels, rate, from),
    }
}

// The plan of a file of a kind with parameters that are to be judged.
fn plan_in(
    kind: Kind,
    order: Option<Order>,
    channels: u16,
    rate: u64,
    codec: Codec,
) -> Result<Plan, OpenRefusal>
    ensures value { plan_by result ≡ fitted kind order (params_of channels rate codec) }
    ensures fits { IfOk result (λ plan. fit_refusal plan.kind plan.params ≡ None) }
    ensures channels { IfOk result (λ plan. plan.params.channels ≡ channels) }
{
    let params = Params::new(u64::from(channels), rate, codec)?;
    fit(kind, params)?;
    if !kind.holds_order(order) {
        return Err(OpenRefusal::BadPair);
    }
    Ok(Plan { kind, params })
}

// What a file with these parameters becomes, as `plan_of` does, where what is made has so many channels.
#[tactic(auto, unfolding(crate::specs::Plan::planned))]
pub(crate) fn plan_with(
    conversion: &Conversion<'_>,
    kind: Kind,
    channels: u16,
    from: Params,
) -> Result<Plan, OpenRefusal>
    ensures value { plan_by result ≡ planned (asked_of conversion.now) kind channels from }
    ensures fits { IfOk result (λ plan. fit_refusal plan.kind plan.params ≡ None) }
    ensures channels { IfOk result (λ plan. plan.params.channels ≡ channels) }
{
    let kind = kind.in_order(conversion.order);
    let order = conversion.order.unwrap_or(kind.own_order());
    let rate = conversion.rate.unwrap_or(u64::from(from.rate));
    let codec = codec_in(
        conversion.codec,
        kind,
        order,
        u64::from(channels),
        rate,
        from.codec,
    );
    plan_in(kind, conversion.order, channels, rate, codec)
}

/// What a file with these parameters becomes in a file of a kind, as a conversion asks, with the channels that it has:
/// or the first reason why it does not. `BadRate`, `BadPair` as `Params::new` and `fit` say, and `BadPair` where the
/// kind does not hold the order of bytes that is asked for. The conversion's rack, which may leave other channels, is
/// not looked at.
pub fn plan_of(conversion: &Conversion<'_>, kind: Kind, from: Params) -> Result<Plan, OpenRefusal>
    ensures value { plan_by result ≡ planned (asked_of conversion.now) kind from.channels from }
    ensures fits { IfOk result (λ plan. fit_refusal plan.kind plan.params ≡ None) }
    ensures channels { IfOk result (λ plan. plan.params.channels ≡ from.channels) }
{
    let channels = from.channels;
    plan_with(conversion, kind, channels, from)
}

//! Which kinds hold which parameters.

ghost use Rattle.std.specs.Prelude.{◌≡◌};
ghost use Rattle.snd_layout.specs.Fit.{fit_refusal, is_au_codec, is_dns_codec, is_pair, is_rf64_codec, is_wave_codec};

use crate::codec::Codec;
use crate::kind::Kind;
use crate::params::Params;
use crate::refusal::OpenRefusal;
use snd_fields::Order;

impl Kind {
    /// Why a file of this kind is not made with some parameters: BadRate where it is 8SVX and the rate
    /// is above 65535, then BadPair where the kind does not hold the codec, its order or the channels.
    pub fn refusal_of(&self, params: &Params) -> Option<OpenRefusal>
        ensures { result ≡ fit_refusal self.now params.now }
    {
        if *self == Kind::Svx && params.rate > u32::from(u16::MAX) {
            return Some(OpenRefusal::BadRate);
        }
        if !is_pair(*self, params.channels, params.codec) {
            return Some(OpenRefusal::BadPair);
        }
        None
    }
}

fn is_pair(kind: Kind, channels: u16, codec: Codec) -> bool
    ensures { result ≡ is_pair kind channels codec }
{
    match kind {
        Kind::Wave | Kind::W64 => is_wave_codec(channels, codec),
        Kind::Rf64 => is_rf64_codec(codec),
        Kind::Au => is_au_codec(codec),
        Kind::Dns => is_dns_codec(codec),
        Kind::Voc => {
            channels <= 2
                && matches!(
                    codec,
                    Codec::U8 | Codec::S16(Order::Little) | Codec::MuLaw | Codec::ALaw
                )
        }
        Kind::Svx => channels <= 1 && codec == Codec::S8,
        Kind::Sphere => matches!(codec, Codec::S16(_) | Codec::MuLaw | Codec::ALaw),
    }
}

fn is_rf64_codec(codec: Codec) -> bool
    ensures { result ≡ is_rf64_codec codec }
{
    match codec {
        Codec::U8 | Codec::MuLaw | Codec::ALaw => true,
        Codec::S16(order) | Codec::S24(order) | Codec::S32(order) => order == Order::Little,
        _ => false,
    }
}

fn is_wave_codec(channels: u16, codec: Codec) -> bool
    ensures { result ≡ is_wave_codec channels codec }
{
    match codec {
        Codec::Ima { .. } | Codec::Ms { .. } => channels <= 2,
        _ => is_rf64_codec(codec),
    }
}

fn is_au_codec(codec: Codec) -> bool
    ensures { result ≡ is_au_codec codec }
{
    match codec {
        Codec::S8 | Codec::MuLaw | Codec::ALaw => true,
        Codec::S16(order) | Codec::S24(order) | Codec::S32(order) => order == Order::Big,
        _ => false,
    }
}

fn is_dns_codec(codec: Codec) -> bool
    ensures { result ≡ is_dns_codec codec }
{
    match codec {
        Codec::S8 | Codec::MuLaw | Codec::ALaw => true,
        Codec::S16(order) | Codec::S24(order) | Codec::S32(order) => order == Order::Little,
        _ => false,
    }
}

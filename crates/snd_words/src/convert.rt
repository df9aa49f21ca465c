//! The command `convert`.

ghost use Rattle.std.specs.Prelude.{◌≡◌, ◌+◌, ◌≤◌, ◌∷◌, [], drop, length, option_map};
ghost use Rattle.std.specs.List.{slice_range};
ghost use Rattle.snd_words.specs.Asked.{IsAsked};
ghost use Rattle.snd_words.specs.Convert.{codec_of, convert_asked, order_of, rack_in_word, rate_of, setting_of, settings_of, settled_on};
ghost use Rattle.snd_words.specs.Request.{asked_by};
ghost use Rattle.snd_words.specs.Options.{option_count, text_behind};

use crate::names::two_names;
use crate::options::{options_end, text_behind};
use crate::request::{Request, Tool};
use snd_fields::{Order, Words, decimal};
use snd_rack::RackSpec;

/// A codec that an option of `convert` names.
#[derive(Clone, Copy, Debug, PartialEq, Eq)]
pub enum CodecChoice {
    /// Linear, 8 bits with a sign.
    S8,
    /// Linear, 8 bits without a sign.
    U8,
    /// Linear, 16 bits.
    Pcm16,
    /// Linear, 24 bits.
    Pcm24,
    /// Linear, 32 bits.
    Pcm32,
    /// G.711 mu-law.
    MuLaw,
    /// G.711 A-law.
    ALaw,
    /// IMA ADPCM.
    Ima,
    /// Microsoft ADPCM.
    Ms,
}

/// What `convert` is to do. What no option sets is left to the input and to the output's kind.
#[derive(Drop)]
pub struct Conversion<'a> {
    /// How many frames a second the output is to state, at most 2^63 - 1.
    pub rate: Option<u64>,
    /// Which byte of a sample is to come first.
    pub order: Option<Order>,
    /// The output's codec.
    pub codec: Option<CodecChoice>,
    /// What each frame is to pass through, in the range of the input's width: 1 to 8 items joined by commas, each
    /// `gain:A/B`, `invert`, `map:I.J..` or `fade:N`.
    pub rack: Option<RackSpec<'a>>,
    /// The name of the file to read.
    pub input: &'a str,
    /// The name of the file to make.
    pub output: &'a str,
}

/// What one option sets.
#[derive(Drop)]
pub(crate) enum Setting<'a> {
    /// `-override-sample-rate=N`
    Rate(u64),
    /// `-endian=little`, `-endian=big`
    Order(Order),
    /// The name of a codec.
    Codec(CodecChoice),
    /// `-rack=SPEC`, where SPEC is 1 to 8 items joined by commas: `gain:A/B`, `invert`, `map:I.J..`, `fade:N`.
    Rack(RackSpec<'a>),
}

/// What some options set.
#[derive(Drop)]
pub(crate) struct Settings<'a> {
    rate: Option<u64>,
    order: Option<Order>,
    codec: Option<CodecChoice>,
    rack: Option<RackSpec<'a>>,
}

#[tactic(auto, unfolding(crate::specs::Convert::rate_of))]
fn rate_of(word: &str) -> Option<u64>
    ensures { result ≡ rate_of word.now }
{
    let digits = text_behind(b"-override-sample-rate=", word.as_bytes())?;
    decimal(digits)
}

#[tactic(auto, unfolding(crate::specs::Convert::order_of))]
fn order_of(word: &str) -> Option<Order>
    ensures { result ≡ order_of word.now }
{
    if word == "-endian=little" {
        Some(Order::Little)
    } else if word == "-endian=big" {
        Some(Order::Big)
    } else {
        None
    }
}

#[tactic(auto, unfolding(crate::specs::Convert::codec_of))]
fn codec_of(word: &str) -> Option<CodecChoice>
    ensures { result ≡ codec_of word.now }
{
    if word == "-pcms8" {
        Some(CodecChoice::S8)
    } else if word == "-pcmu8" {
        Some(CodecChoice::U8)
    } else if word == "-pcm16" {
        Some(CodecChoice::Pcm16)
    } else if word == "-pcm24" {
        Some(CodecChoice::Pcm24)
    } else if word == "-pcm32" {
        Some(CodecChoice::Pcm32)
    } else if word == "-ulaw" {
        Some(CodecChoice::MuLaw)
    } else if word == "-alaw" {
        Some(CodecChoice::ALaw)
    } else if word == "-ima-adpcm" {
        Some(CodecChoice::Ima)
    } else if word == "-ms-adpcm" {
        Some(CodecChoice::Ms)
    } else {
        None
    }
}

#[tactic(auto, unfolding(crate::specs::Convert::rack_in_word))]
fn rack_in_word(word: &str) -> Option<RackSpec<'_>>
    ensures { result ≡ rack_in_word word.now }
{
    let text = text_behind(b"-rack=", word.as_bytes())?;
    RackSpec::read(text)
}

#[tactic(auto, unfolding(crate::specs::Convert::setting_of))]
fn setting_of(word: &str) -> Option<Setting<'_>>
    ensures { result ≡ setting_of word.now }
{
    if let Some(rate) = rate_of(word) {
        return Some(Setting::Rate(rate));
    }
    if let Some(order) = order_of(word) {
        return Some(Setting::Order(order));
    }
    if let Some(codec) = codec_of(word) {
        return Some(Setting::Codec(codec));
    }
    let rack = rack_in_word(word)?;
    Some(Setting::Rack(rack))
}

impl<'a> Settings<'a> {
    /// These settings and one more, which none of them sets.
    fn with(self, setting: Setting<'a>) -> Option<Settings<'a>>
        ensures { result ≡ settled_on self.entry (setting.entry ∷ []) }
    {
        match setting {
            Setting::Rate(rate) if self.rate.is_none() => Some(Settings {
                rate: Some(rate),
                ..self
            }),
            Setting::Order(order) if self.order.is_none() => Some(Settings {
                order: Some(order),
                ..self
            }),
            Setting::Codec(codec) if self.codec.is_none() => Some(Settings {
                codec: Some(codec),
                ..self
            }),
            Setting::Rack(rack) if self.rack.is_none() => Some(Settings {
                rack: Some(rack),
                ..self
            }),
            _ => None,
        }
    }
}

/// What the options set that stand between the command and an end.
fn settings_of(words: &Words, end: usize) -> Option<Settings<'_>>
    requires { end ≤ length words.now }
    ensures { result ≡ settings_of (slice_range words.now 1 end) }
{
    let mut settings = Settings {
        rate: None,
        order: None,
        codec: None,
        rack: None,
    };
    for at in 1..end {
        let setting = setting_of(words.get(at)?)?;
        settings = settings.with(setting)?;
    }
    Some(settings)
}

/// What the words behind `convert` ask for.
#[tactic(auto, unfolding(crate::specs::Convert::convert_asked))]
pub(crate) fn convert_request(words: &Words) -> Option<Request<'_>>
    requires { 1 ≤ length words.now }
    ensures words { asked_by result ≡ convert_asked (drop 1 words.now) }
    ensures good { IsAsked (asked_by result) }
{
    let end = options_end(words);
    let settings = settings_of(words, end)?;
    let (input, output) = two_names(words, end)?;
    Some(Request::Tool(Tool::Convert(Conversion {
        rate: settings.rate,
        order: settings.order,
        codec: settings.codec,
        rack: settings.rack,
        input,
        output,
    })))
}

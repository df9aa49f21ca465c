//! The words that name something.

ghost use Rattle.std.specs.Prelude.{◌≡◌};
ghost use Rattle.snd_command.specs.Tables.{bext_of, codec_of, info_of, switch_of, tap_of};

use snd_fields::Order;
use snd_meta::{BextKey, InfoKey};
use snd_taps::TapKind;

/// Every kind of tap.
const TAPS: [TapKind; 3] = [TapKind::Peak, TapKind::Clips, TapKind::Energy];

/// The codec of a sound file, as a script names it.
#[derive(Clone, Copy, Debug, PartialEq, Eq, Drop)]
pub enum CodecWord {
    /// `pcm_u8`: linear, 8 bits without a sign.
    U8,
    /// `pcm_s8`: linear, 8 bits with a sign.
    S8,
    /// `pcm_16_le`, `pcm_16_be`: linear, 16 bits.
    S16(Order),
    /// `pcm_24_le`, `pcm_24_be`: linear, 24 bits.
    S24(Order),
    /// `pcm_32_le`, `pcm_32_be`: linear, 32 bits.
    S32(Order),
    /// `ulaw`: mu-law of ITU-T G.711.
    MuLaw,
    /// `alaw`: A-law of ITU-T G.711.
    ALaw,
    /// `ima`: IMA ADPCM.
    Ima,
    /// `ms`: Microsoft ADPCM.
    Ms,
}

/// The codec that a word names.
pub fn codec_of(word: &[u8]) -> Option<CodecWord>
    ensures { result ≡ codec_of word.now }
{
    if word == b"pcm_u8".as_slice() {
        Some(CodecWord::U8)
    } else if word == b"pcm_s8".as_slice() {
        Some(CodecWord::S8)
    } else if word == b"pcm_16_le".as_slice() {
        Some(CodecWord::S16(Order::Little))
    } else if word == b"pcm_16_be".as_slice() {
        Some(CodecWord::S16(Order::Big))
    } else if word == b"pcm_24_le".as_slice() {
        Some(CodecWord::S24(Order::Little))
    } else if word == b"pcm_24_be".as_slice() {
        Some(CodecWord::S24(Order::Big))
    } else if word == b"pcm_32_le".as_slice() {
        Some(CodecWord::S32(Order::Little))
    } else if word == b"pcm_32_be".as_slice() {
        Some(CodecWord::S32(Order::Big))
    } else if word == b"ulaw".as_slice() {
        Some(CodecWord::MuLaw)
    } else if word == b"alaw".as_slice() {
        Some(CodecWord::ALaw)
    } else if word == b"ima".as_slice() {
        Some(CodecWord::Ima)
    } else if word == b"ms".as_slice() {
        Some(CodecWord::Ms)
    } else {
        None
    }
}

/// The text of a RIFF INFO list that a word names.
pub fn info_of(word: &[u8]) -> Option<InfoKey>
    ensures { result ≡ info_of word.now }
{
    if word == b"title".as_slice() {
        Some(InfoKey::Title)
    } else if word == b"copyright".as_slice() {
        Some(InfoKey::Copyright)
    } else if word == b"software".as_slice() {
        Some(InfoKey::Software)
    } else if word == b"artist".as_slice() {
        Some(InfoKey::Artist)
    } else if word == b"comment".as_slice() {
        Some(InfoKey::Comment)
    } else if word == b"date".as_slice() {
        Some(InfoKey::Date)
    } else if word == b"album".as_slice() {
        Some(InfoKey::Album)
    } else if word == b"genre".as_slice() {
        Some(InfoKey::Genre)
    } else if word == b"track".as_slice() {
        Some(InfoKey::Track)
    } else {
        None
    }
}

/// The field of a broadcast extension chunk that a word names.
pub fn bext_of(word: &[u8]) -> Option<BextKey>
    ensures { result ≡ bext_of word.now }
{
    if word == b"description".as_slice() {
        Some(BextKey::Description)
    } else if word == b"originator".as_slice() {
        Some(BextKey::Originator)
    } else if word == b"orig-ref".as_slice() {
        Some(BextKey::OrigRef)
    } else if word == b"orig-date".as_slice() {
        Some(BextKey::OrigDate)
    } else if word == b"orig-time".as_slice() {
        Some(BextKey::OrigTime)
    } else if word == b"time-ref".as_slice() {
        Some(BextKey::TimeRef)
    } else if word == b"coding-hist".as_slice() {
        Some(BextKey::CodingHist)
    } else {
        None
    }
}

/// The kind of tap that a word names.
pub fn tap_of(word: &[u8]) -> Option<TapKind>
    ensures { result ≡ tap_of word.now }
{
    TAPS.iter()
        .copied()
        .find(|kind| word == kind.name().as_bytes())
}

/// Whether a word says `on` or `off`.
pub fn switch_of(word: &[u8]) -> Option<bool>
    ensures { result ≡ switch_of word.now }
{
    if word == b"on".as_slice() {
        Some(true)
    } else if word == b"off".as_slice() {
        Some(false)
    } else {
        None
    }
}

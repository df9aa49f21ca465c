//! The bodies of `fmt ` chunks.

ghost use Rattle.std.specs.Prelude.{◌≡◌, ◌+◌, ◌*◌, ◌≤◌, length};
ghost use Rattle.snd_layout.specs.Format.{are_at, channels_of, codec_of, coding_of, coding_of_sub_tag, coding_of_tag, coding_refusal, format_of, format_refusal, has_coefficients, has_tag_guid, law_refusal, parameters};
ghost use Rattle.snd_layout.specs.Refusals.{unless};
ghost use Rattle.snd_layout.specs.declared.format.Coding.TheVariants.{Linear, Ima, Ms};

use crate::codec::Codec;
use crate::params::{Params, block_align, is_ima_block, is_ms_block, refused_size};
use crate::refusal::OpenRefusal;
use snd_fields::{Order, u16_at, u32_at, u64_at};

/// How samples are coded, as the tag of a format says. Floating-point samples are refused.
#[derive(Clone, Copy, Debug, PartialEq, Eq)]
pub(crate) enum Coding {
    Linear,
    ALaw,
    MuLaw,
    Ima,
    Ms,
}

const MOST_CHANNELS: u16 = 256;

const EXTENSIBLE: u16 = 0xfffe;

/// The last 8 bytes of the GUIDs that stand for a tag, as one number.
const TAG_GUID_END: u64 = 0x8000_00aa_0038_9b71;

/// The 7 pairs of coefficients of Microsoft ADPCM, in 16-bit two's complement.
pub(crate) const COEFFICIENTS: [u16; 14] = [
    256, 0, 512, 65280, 0, 0, 192, 64, 240, 0, 460, 65328, 392, 65304,
];

/// The parameters that the body of a WAVE file's `fmt ` chunk states. It has at least 16 bytes. Where
/// several reasons refuse it, the answer is the first of UnknownCodec, FloatSamples, BadChannels,
/// BadRate, BadBits, BadAlign, BlockTooLarge, OtherCoefs and BadPair.
pub fn read_fmt(body: &[u8]) -> Result<Params, OpenRefusal>
    requires { 16 ≤ length body.now }
    ensures { result ≡ format_of body.now }
{
    let coding = coding_of(body)?;
    coded_format(coding, body)
}

// The parameters of a body whose coding is known.
fn coded_format(coding: Coding, body: &[u8]) -> Result<Params, OpenRefusal>
    requires { 16 ≤ length body.now }
    ensures { result ≡ unless (format_refusal coding body.now) (parameters coding body.now) }
{
    let channels = u16_at(body, 2, Order::Little);
    if channels == 0 || channels > MOST_CHANNELS {
        return Err(OpenRefusal::BadChannels);
    }
    let rate = u32_at(body, 4, Order::Little);
    if rate == 0 {
        return Err(OpenRefusal::BadRate);
    }
    let codec = codec_of(coding, channels, body)?;
    Ok(Params {
        channels,
        rate,
        codec,
    })
}

fn codec_of(coding: Coding, channels: u16, body: &[u8]) -> Result<Codec, OpenRefusal>
    requires long { 16 ≤ length body.now }
    requires some { 1 ≤ channels }
    requires most { channels ≤ 256 }
    requires channels { channels ≡ channels_of body.now }
    ensures { result ≡ unless (coding_refusal coding body.now) (codec_of coding body.now) }
{
    match coding {
        Coding::Linear => linear_codec(channels, body),
        Coding::ALaw => law_codec(channels, body, Codec::ALaw),
        Coding::MuLaw => law_codec(channels, body, Codec::MuLaw),
        Coding::Ima => ima_codec(channels, body),
        Coding::Ms => ms_codec(channels, body),
    }
}

fn coding_of_sub_tag(tag: u16) -> Result<Coding, OpenRefusal>
    ensures { result ≡ coding_of_sub_tag tag }
{
    match tag {
        1 => Ok(Coding::Linear),
        3 => Err(OpenRefusal::FloatSamples),
        6 => Ok(Coding::ALaw),
        7 => Ok(Coding::MuLaw),
        _ => Err(OpenRefusal::UnknownCodec),
    }
}

fn coding_of_tag(tag: u16) -> Result<Coding, OpenRefusal>
    ensures { result ≡ coding_of_tag tag }
{
    match tag {
        2 => Ok(Coding::Ms),
        17 => Ok(Coding::Ima),
        _ => coding_of_sub_tag(tag),
    }
}

fn has_tag_guid(body: &[u8]) -> bool
    requires { 40 ≤ length body.now }
    ensures { result ≡ has_tag_guid body.now }
{
    u16_at(body, 26, Order::Little) == 0
        && u16_at(body, 28, Order::Little) == 0
        && u16_at(body, 30, Order::Little) == 0x10
        && u64_at(body, 32, Order::Big) == TAG_GUID_END
}

fn coding_of(body: &[u8]) -> Result<Coding, OpenRefusal>
    requires { 16 ≤ length body.now }
    ensures { result ≡ coding_of body.now }
{
    let tag = u16_at(body, 0, Order::Little);
    if tag != EXTENSIBLE {
        return coding_of_tag(tag);
    }
    if body.len() >= 40 && has_tag_guid(body) {
        coding_of_sub_tag(u16_at(body, 24, Order::Little))
    } else {
        Err(OpenRefusal::UnknownCodec)
    }
}

// The codec of a linear format, of so many channels.
fn linear_codec(channels: u16, body: &[u8]) -> Result<Codec, OpenRefusal>
    requires long { 16 ≤ length body.now }
    requires most { channels ≤ 256 }
    requires channels { channels ≡ channels_of body.now }
    ensures { result ≡ unless (coding_refusal Linear body.now) (codec_of Linear body.now) }
{
    let codec = match u16_at(body, 14, Order::Little) {
        8 => Codec::U8,
        16 => Codec::S16(Order::Little),
        24 => Codec::S24(Order::Little),
        32 => Codec::S32(Order::Little),
        _ => return Err(OpenRefusal::BadBits),
    };
    if u16_at(body, 12, Order::Little) != block_align(channels, codec) {
        return Err(OpenRefusal::BadAlign);
    }
    Ok(codec)
}

// The codec of a law, of so many channels.
fn law_codec(channels: u16, body: &[u8], codec: Codec) -> Result<Codec, OpenRefusal>
    requires long { 16 ≤ length body.now }
    requires channels { channels ≡ channels_of body.now }
    ensures { result ≡ unless (law_refusal body.now) codec }
{
    if u16_at(body, 12, Order::Little) != channels {
        return Err(OpenRefusal::BadAlign);
    }
    Ok(codec)
}

// The codec of an IMA ADPCM format, of so many channels.
fn ima_codec(channels: u16, body: &[u8]) -> Result<Codec, OpenRefusal>
    requires long { 16 ≤ length body.now }
    requires some { 1 ≤ channels }
    requires most { channels ≤ 256 }
    requires channels { channels ≡ channels_of body.now }
    ensures { result ≡ unless (coding_refusal Ima body.now) (codec_of Ima body.now) }
{
    if body.len() < 20 {
        return Err(OpenRefusal::BadAlign);
    }
    let align = u16_at(body, 12, Order::Little);
    let per_block = u16_at(body, 18, Order::Little);
    if let Some(refusal) = refused_size(is_ima_block(channels, align, per_block), align) {
        return Err(refusal);
    }
    if channels > 2 {
        return Err(OpenRefusal::BadPair);
    }
    Ok(Codec::Ima { align, per_block })
}

// The codec of a Microsoft ADPCM format, of so many channels.
fn ms_codec(channels: u16, body: &[u8]) -> Result<Codec, OpenRefusal>
    requires long { 16 ≤ length body.now }
    requires some { 1 ≤ channels }
    requires most { channels ≤ 256 }
    requires channels { channels ≡ channels_of body.now }
    ensures { result ≡ unless (coding_refusal Ms body.now) (codec_of Ms body.now) }
{
    if body.len() < 22 {
        return Err(OpenRefusal::BadAlign);
    }
    let align = u16_at(body, 12, Order::Little);
    let per_block = u16_at(body, 18, Order::Little);
    if let Some(refusal) = refused_size(is_ms_block(channels, align, per_block), align) {
        return Err(refusal);
    }
    if !has_coefficients(body) {
        return Err(OpenRefusal::OtherCoefs);
    }
    if channels > 2 {
        return Err(OpenRefusal::BadPair);
    }
    Ok(Codec::Ms { align, per_block })
}

// Whether the standard coefficients stand in a body of Microsoft ADPCM.
fn has_coefficients(body: &[u8]) -> bool
    requires { 22 ≤ length body.now }
    ensures { result ≡ has_coefficients body.now }
{
    body.len() >= 50 && u16_at(body, 20, Order::Little) == 7 && are_at(body, 22, &COEFFICIENTS)
}

// Whether these numbers stand side by side from `at` on.
fn are_at(body: &[u8], at: usize, numbers: &[u16]) -> bool
    requires { at + 2 * length numbers.now ≤ length body.now }
    ensures { result ≡ are_at body.now at numbers.now }
{
    for (i, number) in numbers.iter().enumerate() {
        if u16_at(body, at + 2 * i, Order::Little) != *number {
            return false;
        }
    }
    true
}

//! What the samples of a file become, and how many bytes the file that is made has.

ghost use Rattle.std.specs.Prelude.{◌≡◌, ◌<◌, ◌^◌, false};
ghost use Rattle.snd_layout.specs.Blocks.{is_adpcm};
ghost use Rattle.snd_export.specs.Coding.{IsPlain, head_made, size_by, target_of};
ghost use Rattle.snd_export.specs.Export.{has_too_many, is_too_long, pvf_codec, raw_codec};

use arrayvec::ArrayVec;
use snd_fields::Order;
use snd_layout::{Codec, Layout, Params};
use snd_pvf::head_text;
use snd_words::ExportForm;

/// The first length that no file has.
const TOO_LONG: u128 = 1 << 63;

/// What numbers become.
#[derive(Clone, Copy, Debug, PartialEq, Eq)]
pub(crate) enum Target {
    /// Samples of a codec, which is not ADPCM.
    Samples(Codec),
    /// The codes of VOX.
    Vox,
}

/// What a layout says of its sound: the parameters, their codec, and how many frames there are.
pub(crate) fn params_of(layout: &Layout) -> Params
    ensures { result ≡ layout.now.params }
{
    layout.params
}

pub(crate) fn codec_of(layout: &Layout) -> Codec
    ensures { result ≡ layout.now.params.codec }
{
    layout.params.codec
}

pub(crate) fn frames_of(layout: &Layout) -> u64
    ensures { result ≡ layout.now.frames }
{
    layout.frames
}

// The codec of a file without a head.
fn raw_codec(codec: Codec) -> Codec
    ensures { result ≡ raw_codec codec }
{
    match codec {
        Codec::Ima { .. } | Codec::Ms { .. } => Codec::S16(Order::Little),
        other => other,
    }
}

// That of a PVF file.
fn pvf_codec(codec: Codec) -> Codec
    ensures value { result ≡ pvf_codec codec }
    ensures plain { is_adpcm result ≡ false }
{
    match codec {
        Codec::U8 | Codec::S8 => Codec::S8,
        Codec::S24(_) | Codec::S32(_) => Codec::S32(Order::Big),
        _ => Codec::S16(Order::Big),
    }
}

/// What the numbers of a file in a codec become in a form.
pub(crate) fn target_of(form: ExportForm, codec: Codec) -> Target
    ensures value { result ≡ target_of form codec }
    ensures plain { IsPlain result }
{
    match form {
        ExportForm::Raw => Target::Samples(raw_codec(codec)),
        ExportForm::Pvf => Target::Samples(pvf_codec(codec)),
        ExportForm::Vox => Target::Vox,
    }
}

// Parameters with another codec, which is not ADPCM.
fn with_codec(params: Params, codec: Codec) -> Params
    requires { is_adpcm codec ≡ false }
    ensures { result ≡ record params { codec = codec } }
{
    params.are_good();
    Params {
        channels: params.channels,
        rate: params.rate,
        codec,
    }
}

/// What stands before the samples.
pub(crate) fn head_of(form: ExportForm, params: Params) -> ArrayVec<u8, 64>
    ensures { result.items ≡ head_made form params }
{
    if form != ExportForm::Pvf {
        return ArrayVec::new();
    }
    head_text(&with_codec(params, pvf_codec(params.codec)))
}

// How many bytes all frames become.
fn size_by(target: Target, layout: &Layout) -> u128
    requires { IsPlain target }
    ensures value { result ≡ size_by target layout.now }
    ensures few { result < 2 ^ 100 }
{
    let frames = u128::from(layout.frames);
    match target {
        Target::Samples(codec) => {
            let align = with_codec(layout.params, codec).block_align();
            frames * u128::from(align)
        }
        Target::Vox => frames.div_ceil(2),
    }
}

/// Whether the file that is made in a form has more than 2^63 - 1 bytes.
pub(crate) fn is_too_long(form: ExportForm, layout: &Layout) -> bool
    ensures { result ≡ is_too_long form layout.now }
{
    let head = head_of(form, layout.params);
    let size = size_by(target_of(form, layout.params.codec), layout);
    head.len() as u128 + size >= TOO_LONG
}

/// Whether a file has more channels than a form.
pub(crate) fn has_too_many(form: ExportForm, layout: &Layout) -> bool
    ensures { result ≡ has_too_many form layout.now }
{
    form == ExportForm::Vox && layout.params.channels != 1
}

//! The commands `import` and `export`, which carry sound between the kinds and files of other forms: samples without
//! a head, PVF, and Dialogic VOX.

ghost use Rattle.std.specs.Prelude.{◌≡◌, ◌≤◌, ◌<◌, ◌^◌, IfSome, drop, false, length};
ghost use Rattle.snd_layout.specs.Blocks.{is_adpcm};
ghost use Rattle.snd_words.specs.Asked.{IsAsked, IsImport};
ghost use Rattle.snd_words.specs.Raw.{export_asked, export_form, import_asked, import_pvf_asked, import_raw_asked, import_vox_asked, plain_codec, raw_form};
ghost use Rattle.snd_words.specs.Request.{asked_by};

use crate::names::name_at;
use crate::request::{Request, Tool};
use snd_fields::{Order, Words, decimal};
use snd_layout::Codec;

/// The codecs whose samples have bytes of their own.
const PLAIN_CODECS: [Codec; 10] = [
    Codec::U8,
    Codec::S8,
    Codec::S16(Order::Little),
    Codec::S16(Order::Big),
    Codec::S24(Order::Little),
    Codec::S24(Order::Big),
    Codec::S32(Order::Little),
    Codec::S32(Order::Big),
    Codec::MuLaw,
    Codec::ALaw,
];

/// The form of a file that `import` reads.
#[derive(Clone, Copy, Debug, PartialEq, Eq)]
pub enum ImportForm {
    /// Samples without a head, in a codec that is not ADPCM, with a number of channels and a rate, each at most
    /// 2^63 - 1.
    Raw {
        codec: Codec,
        channels: u64,
        rate: u64,
    },
    /// Dialogic VOX, one channel, with a rate, at most 2^63 - 1.
    Vox {
        rate: u64,
    },
    /// PVF, whose head says all.
    Pvf,
}

/// What `import` is to do.
#[derive(Clone, Copy, Debug, PartialEq, Eq)]
pub struct Importation<'a> {
    /// The form of the file to read.
    pub form: ImportForm,
    /// The name of the file to read.
    pub input: &'a str,
    /// The name of the file to make.
    pub output: &'a str,
}

/// The form of a file that `export` makes.
#[derive(Clone, Copy, Debug, PartialEq, Eq)]
pub enum ExportForm {
    /// Samples without a head.
    Raw,
    /// Dialogic VOX.
    Vox,
    /// PVF.
    Pvf,
}

/// What `export` is to do.
#[derive(Clone, Copy, Debug, PartialEq, Eq)]
pub struct Exportation<'a> {
    /// The form of the file to make.
    pub form: ExportForm,
    /// The name of the file to read.
    pub input: &'a str,
    /// The name of the file to make.
    pub output: &'a str,
}

/// The codec, no ADPCM, that a word names as it is printed.
#[tactic(auto, unfolding(crate::specs::Raw::plain_codec))]
fn plain_codec(word: &str) -> Option<Codec>
    ensures codec { result ≡ plain_codec word.now }
    ensures plain { IfSome result (λ codec. is_adpcm codec ≡ false) }
{
    PLAIN_CODECS
        .iter()
        .copied()
        .find(|codec| word == codec.name())
}

/// Samples without a head of a codec, a number of channels and a rate, as three words say them.
#[tactic(auto, unfolding(crate::specs::Raw::raw_form))]
fn raw_form(codec: &str, channels: &str, rate: &str) -> Option<ImportForm>
    ensures form { result ≡ raw_form codec.now channels.now rate.now }
    ensures good { IfSome result IsImport }
{
    let codec = plain_codec(codec)?;
    let channels = decimal(channels.as_bytes())?;
    let rate = decimal(rate.as_bytes())?;
    Some(ImportForm::Raw {
        codec,
        channels,
        rate,
    })
}

/// What the words behind `import raw` ask for.
#[tactic(auto, unfolding(crate::specs::Raw::import_raw_asked))]
fn import_raw_request(words: &Words) -> Option<Request<'_>>
    requires { 2 ≤ length words.now }
    ensures words { asked_by result ≡ import_raw_asked (drop 2 words.now) }
    ensures good { IsAsked (asked_by result) }
{
    let codec = words.get(2)?;
    let channels = words.get(3)?;
    let rate = words.get(4)?;
    let input = name_at(words, 5)?;
    let output = name_at(words, 6)?;
    if words.len() > 7 {
        return None;
    }
    let form = raw_form(codec, channels, rate)?;
    Some(Request::Tool(Tool::Import(Importation {
        form,
        input,
        output,
    })))
}

/// What the words behind `import vox` ask for.
#[tactic(auto, unfolding(crate::specs::Raw::import_vox_asked))]
fn import_vox_request(words: &Words) -> Option<Request<'_>>
    requires { 2 ≤ length words.now }
    ensures words { asked_by result ≡ import_vox_asked (drop 2 words.now) }
    ensures good { IsAsked (asked_by result) }
{
    let rate = words.get(2)?;
    let input = name_at(words, 3)?;
    let output = name_at(words, 4)?;
    if words.len() > 5 {
        return None;
    }
    let rate = decimal(rate.as_bytes())?;
    let form = ImportForm::Vox { rate };
    Some(Request::Tool(Tool::Import(Importation {
        form,
        input,
        output,
    })))
}

/// What the words behind `import pvf` ask for.
#[tactic(auto, unfolding(crate::specs::Raw::import_pvf_asked))]
fn import_pvf_request(words: &Words) -> Option<Request<'_>>
    requires { 2 ≤ length words.now }
    ensures words { asked_by result ≡ import_pvf_asked (drop 2 words.now) }
    ensures good { IsAsked (asked_by result) }
{
    let input = name_at(words, 2)?;
    let output = name_at(words, 3)?;
    if words.len() > 4 {
        return None;
    }
    let form = ImportForm::Pvf;
    Some(Request::Tool(Tool::Import(Importation {
        form,
        input,
        output,
    })))
}

/// What the words behind `import` ask for.
#[tactic(auto, unfolding(crate::specs::Raw::import_asked))]
pub(crate) fn import_request(words: &Words) -> Option<Request<'_>>
    ensures words { asked_by result ≡ import_asked (drop 1 words.now) }
    ensures good { IsAsked (asked_by result) }
{
    let form = words.get(1)?;
    if form == "raw" {
        return import_raw_request(words);
    } else if form == "vox" {
        return import_vox_request(words);
    } else if form == "pvf" {
        return import_pvf_request(words);
    }
    None
}

/// The form that a word names.
#[tactic(auto, unfolding(crate::specs::Raw::export_form))]
fn export_form(word: &str) -> Option<ExportForm>
    ensures { result ≡ export_form word.now }
{
    if word == "raw" {
        Some(ExportForm::Raw)
    } else if word == "vox" {
        Some(ExportForm::Vox)
    } else if word == "pvf" {
        Some(ExportForm::Pvf)
    } else {
        None
    }
}

/// What the words behind `export` ask for.
#[tactic(auto, unfolding(crate::specs::Raw::export_asked))]
pub(crate) fn export_request(words: &Words) -> Option<Request<'_>>
    ensures words { asked_by result ≡ export_asked (drop 1 words.now) }
    ensures good { IsAsked (asked_by result) }
{
    let form = words.get(1)?;
    let input = name_at(words, 2)?;
    let output = name_at(words, 3)?;
    if words.len() > 4 {
        return None;
    }
    let form = export_form(form)?;
    Some(Request::Tool(Tool::Export(Exportation {
        form,
        input,
        output,
    })))
}

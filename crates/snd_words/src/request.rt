//! What the words of a command line ask for.

ghost use Rattle.std.specs.Prelude.{◌≡◌, ◌≤◌, drop, length};
ghost use Rattle.snd_words.specs.Asked.{IsAsked};
ghost use Rattle.snd_words.specs.Grammar.{asked, asked_with};
ghost use Rattle.snd_words.specs.Request.{asked_by};

use crate::concat::{Concatenation, concat_request};
use crate::convert::{Conversion, convert_request};
use crate::deinterleave::{Deinterleaving, deinterleave_request};
use crate::generate::{Generation, gen_request};
use crate::interleave::{Interleaving, interleave_request};
use crate::metadata::{MetadataChange, metadata_request};
use crate::names::Names;
use crate::plain::{help_request, info_request, script_request, version_request};
use crate::raw::{Exportation, Importation, export_request, import_request};
use crate::salvage::{Salvaging, salvage_request};
use crate::topic::{Topic, asks_help, topic_of};
use snd_fields::Words;

/// What the words of a command line ask for.
#[derive(Drop)]
pub enum Request<'a> {
    /// `info NAME..`: to describe 1 to 64 files, in the order of the words.
    Info(Names<'a>),
    /// `script`, `script --auto NAME`: to carry out a script, with the file of a name pinned where there is
    /// one.
    Script(Option<&'a str>),
    /// `--help`
    Help,
    /// `COMMAND --help`, of one command.
    HelpOn(Topic),
    /// `--version`
    Version,
    /// A tool, with what it is to do.
    Tool(Tool<'a>),
}

/// What a tool is to do.
#[derive(Drop)]
pub enum Tool<'a> {
    /// `convert OPTION.. IN OUT`: to make a file of another one's sound.
    Convert(Conversion<'a>),
    /// `concat IN IN.. OUT`: to make a file of the frames of several others, one after the other.
    Concat(Concatenation<'a>),
    /// `interleave IN IN.. -o OUT`: to make a file of the channels of several others, side by side.
    Interleave(Interleaving<'a>),
    /// `gen SEED N NAME`: to make a file of N frames that a seed gives.
    Generate(Generation<'a>),
    /// `metadata-set OPTION TEXT .. IN OUT`: to make a file of another one's sound, with texts of its own.
    SetMetadata(MetadataChange<'a>),
    /// `import raw CODEC N N IN OUT`, `import vox N IN OUT`, `import pvf IN OUT`: to make a sound file of a file of
    /// another form.
    Import(Importation<'a>),
    /// `export raw IN OUT`, `export vox IN OUT`, `export pvf IN OUT`: to make a file of another form of a sound file.
    Export(Exportation<'a>),
    /// `salvage IN OUT`: to make a WAVE file of what is left in a file whose head was never filled in, or is damaged.
    Salvage(Salvaging<'a>),
    /// `deinterleave IN OUT..`: to make a file of each channel of another one.
    Deinterleave(Deinterleaving<'a>),
}

/// What the words ask for, of which the first one is the command.
fn request_with<'a>(command: &str, words: &'a Words) -> Option<Request<'a>>
    requires { 1 ≤ length words.now }
    ensures words { asked_by result ≡ asked_with command.now (drop 1 words.now) }
    ensures good { IsAsked (asked_by result) }
{
    if command == "info" {
        return info_request(words);
    } else if command == "script" {
        return script_request(words);
    } else if command == "--help" {
        return help_request(words);
    } else if command == "--version" {
        return version_request(words);
    } else if command == "convert" {
        return convert_request(words);
    } else if command == "concat" {
        return concat_request(words);
    } else if command == "interleave" {
        return interleave_request(words);
    } else if command == "gen" {
        return gen_request(words);
    } else if command == "metadata-set" {
        return metadata_request(words);
    } else if command == "import" {
        return import_request(words);
    } else if command == "export" {
        return export_request(words);
    } else if command == "salvage" {
        return salvage_request(words);
    } else if command == "deinterleave" {
        return deinterleave_request(words);
    }
    None
}

/// What the words ask for, those behind the program's own name, or none where they are refused.
pub fn request_of(words: &Words) -> Option<Request<'_>>
    ensures words { asked_by result ≡ asked words.now }
    ensures good { IsAsked (asked_by result) }
{
    let command = words.get(0)?;
    if asks_help(words) {
        let topic = topic_of(command)?;
        return Some(Request::HelpOn(topic));
    }
    request_with(command, words)
}

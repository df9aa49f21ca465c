//! The commands that open, make and close a file, and those that tell of it.

ghost use Rattle.std.specs.Prelude.{◌≡◌, option_map};
ghost use Rattle.snd_command.specs.Said.{said_of};
ghost use Rattle.snd_command.specs.Open.{bare_said, create_said, get_said, open_said};
ghost use Rattle.snd_command.specs.Words.{words};

use crate::command::Command;
use crate::forms::{ident, is_name};
use crate::tables::codec_of;
use crate::words::{five_words, next_word, one_word, two_words};
use snd_fields::decimal;
use snd_layout::Kind;

// `info`, `close`, `trim`, `update`, `reserve`, `promote`, each with nothing behind it; each arm returns, as in
// `parse_command`
pub fn parse_bare<'a>(verb: &'a [u8], args: &'a [u8]) -> Option<Command<'a>>
    ensures { option_map said_of result ≡ bare_said verb.now (words args.now) }
{
    if next_word(args).is_some() {
        return None;
    } else if verb == b"info".as_slice() {
        return Some(Command::Info);
    } else if verb == b"close".as_slice() {
        return Some(Command::Close);
    } else if verb == b"trim".as_slice() {
        return Some(Command::Trim);
    } else if verb == b"update".as_slice() {
        return Some(Command::Update);
    } else if verb == b"reserve".as_slice() {
        return Some(Command::Reserve);
    } else if verb == b"promote".as_slice() {
        return Some(Command::Promote);
    }
    None
}

// `open r NAME`, `open u NAME`, of what stands behind `open`
pub fn parse_open(args: &[u8]) -> Option<Command<'_>>
    ensures { option_map said_of result ≡ open_said (words args.now) }
{
    let (mode, name) = two_words(args)?;
    if !is_name(name) {
        None
    } else if mode == b"r".as_slice() {
        Some(Command::OpenRead { name })
    } else if mode == b"u".as_slice() {
        Some(Command::OpenUpdate { name })
    } else {
        None
    }
}

// `create KIND CODEC N N NAME`
pub fn parse_create(args: &[u8]) -> Option<Command<'_>>
    ensures { option_map said_of result ≡ create_said (words args.now) }
{
    let (kind, codec, channels, rate, name) = five_words(args)?;
    let kind = Kind::named(kind)?;
    let codec = codec_of(codec)?;
    let channels = decimal(channels)?;
    let rate = decimal(rate)?;
    if !is_name(name) {
        return None;
    }
    Some(Command::Create {
        kind,
        codec,
        channels,
        rate,
        name,
    })
}

// `get chunks`, `get strings`, `get bext`, `get cues`, `get chunk ID`
pub fn parse_get(args: &[u8]) -> Option<Command<'_>>
    ensures { option_map said_of result ≡ get_said (words args.now) }
{
    let (what, rest) = next_word(args)?;
    if next_word(rest).is_some() {
        let id = one_word(rest)?;
        if what != b"chunk".as_slice() {
            return None;
        }
        return Some(Command::GetChunk(ident(id)?));
    }
    if what == b"chunks".as_slice() {
        Some(Command::GetChunks)
    } else if what == b"strings".as_slice() {
        Some(Command::GetStrings)
    } else if what == b"bext".as_slice() {
        Some(Command::GetBext)
    } else if what == b"cues".as_slice() {
        Some(Command::GetCues)
    } else {
        None
    }
}

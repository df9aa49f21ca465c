//! The commands that set a chunk of a file that is being made.

ghost use Rattle.std.specs.Prelude.{◌≡◌, drop, option_map};
ghost use Rattle.snd_command.specs.Said.{said_of};
ghost use Rattle.snd_command.specs.Set.{is_bext_text, set_bext_said, set_chunk_said, set_said, set_string_said, text_after, text_behind};
ghost use Rattle.snd_command.specs.Words.{words};

use crate::command::Command;
use crate::forms::{hex, ident, is_text};
use crate::numbers::{NumberRoom, parse_set_cue};
use crate::tables::{bext_of, info_of};
use crate::words::{next_word, two_words};
use snd_fields::decimal;
use snd_meta::BextKey;

// what stands behind a first space
fn behind_space(rest: &[u8]) -> &[u8]
    ensures { result.now ≡ drop 1 rest.now }
{
    if rest.is_empty() {
        return rest;
    }
    &rest[1..]
}

// `set chunk ID HEX`
fn parse_set_chunk(args: &[u8]) -> Option<Command<'_>>
    ensures { option_map said_of result ≡ set_chunk_said (words args.now) }
{
    let (id, digits) = two_words(args)?;
    let id = ident(id)?;
    let hex = hex(digits)?;
    Some(Command::SetChunk { id, hex })
}

// `set string KEY TEXT`
fn parse_set_string(args: &[u8]) -> Option<Command<'_>>
    ensures { option_map said_of result ≡ set_string_said (words args.now) (text_after args.now) }
{
    let (key, rest) = next_word(args)?;
    let key = info_of(key)?;
    let text = behind_space(rest);
    if !is_text(text) {
        return None;
    }
    Some(Command::SetString { key, text })
}

fn is_bext_text(key: BextKey, text: &[u8]) -> bool
    ensures { result ≡ is_bext_text key text.now }
{
    match key {
        BextKey::TimeRef => decimal(text).is_some(),
        _ => is_text(text),
    }
}

// `set bext KEY TEXT`
fn parse_set_bext(args: &[u8]) -> Option<Command<'_>>
    ensures { option_map said_of result ≡ set_bext_said (words args.now) (text_after args.now) }
{
    let (key, rest) = next_word(args)?;
    let key = bext_of(key)?;
    let text = behind_space(rest);
    if !is_bext_text(key, text) {
        return None;
    }
    Some(Command::SetBext { key, text })
}

// `set ..`, of what stands behind `set`
pub fn parse_set<'a>(args: &'a [u8], room: &'a mut NumberRoom) -> Option<Command<'a>>
    ensures { option_map said_of result ≡ set_said (words args.now) (text_behind args.now) }
{
    let (what, rest) = next_word(args)?;
    if what == b"chunk".as_slice() {
        parse_set_chunk(rest)
    } else if what == b"string".as_slice() {
        parse_set_string(rest)
    } else if what == b"bext".as_slice() {
        parse_set_bext(rest)
    } else if what == b"cue".as_slice() {
        parse_set_cue(rest, room)
    } else {
        None
    }
}

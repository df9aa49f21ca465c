//! The texts of an INFO list, the fields of a broadcast extension, and cue points.

ghost use Rattle.std.specs.Prelude.{◌≡◌, ◌≢◌, ◌++◌, OnOk, decimal, length};
ghost use Rattle.std.specs.List.{flat_map};
ghost use Rattle.snd_meta.specs.Broadcast.{bext_text};
ghost use Rattle.snd_lines.specs.Lines.{behind_each, bext_lines, bext_word, cue_line, line, shown, text_line};

use crate::words::{bext_word, info_word, push_line, push_number_line, push_shown};
use itoa::Buffer;
use snd_meta::{Bext, BextKey, CueList, CuePoint, INFO_KEYS, InfoList};
use std::alloc::AllocError;

/// Appends a line for each text, in the order of the keys: these words, the word of its key, and the text.
pub fn push_texts(text: &mut Vec<u8>, words: &[u8], list: &InfoList) -> Result<(), AllocError>
    ensures { OnOk result (text.new.items ≡ text.old.items ++ behind_each words.now text_line list.now) }
{
    for key in INFO_KEYS {
        if let Some(value) = list.text(key) {
            text.extend_from_slice(words)?;
            push_shown(text, info_word(key), value)?;
        }
    }
    Ok(())
}

/// How many texts a list has.
pub fn count_texts(list: &InfoList) -> usize
    ensures { result ≡ length list.now }
{
    let mut count = 0;
    for key in INFO_KEYS {
        if list.text(key).is_some() {
            count += 1;
        }
    }
    count
}

/// Appends the line on a field that is a text.
fn push_field(text: &mut Vec<u8>, bext: &Bext, key: BextKey) -> Result<(), AllocError>
    requires { key ≢ BextKey.TimeRef }
    ensures { OnOk result (text.new.items ≡ text.old.items ++ line (bext_word key) (shown (bext_text key bext.now))) }
{
    push_shown(text, bext_word(key), bext.text(key))
}

/// Appends a line for each of the seven fields: its word, and the text or the number of samples since midnight.
pub fn push_bext(text: &mut Vec<u8>, bext: &Bext) -> Result<(), AllocError>
    ensures { OnOk result (text.new.items ≡ text.old.items ++ bext_lines bext.now) }
{
    push_field(text, bext, BextKey::Description)?;
    push_field(text, bext, BextKey::Originator)?;
    push_field(text, bext, BextKey::OrigRef)?;
    push_field(text, bext, BextKey::OrigDate)?;
    push_field(text, bext, BextKey::OrigTime)?;
    push_number_line(text, bext_word(BextKey::TimeRef), bext.time())?;
    push_field(text, bext, BextKey::CodingHist)?;
    Ok(())
}

/// Appends the line on a cue point.
fn push_cue(text: &mut Vec<u8>, point: CuePoint) -> Result<(), AllocError>
    ensures { OnOk result (text.new.items ≡ text.old.items ++ cue_line point) }
{
    push_number_line(
        text,
        Buffer::new().format(point.name).as_bytes(),
        u64::from(point.offset),
    )
}

/// Appends a line for each cue point, in the list's order: its name, and its sample offset.
pub fn push_cues(text: &mut Vec<u8>, cues: &CueList) -> Result<(), AllocError>
    ensures { OnOk result (text.new.items ≡ text.old.items ++ flat_map cue_line cues.now) }
{
    for i in 0..cues.len() {
        push_cue(text, cues.get(i).unwrap())?;
    }
    Ok(())
}

//! The parts of a line: words, numbers and texts as they are printed.

ghost use Rattle.std.specs.Prelude.{◌≡◌, ◌++◌, OnOk, codes, decimal};
ghost use Rattle.snd_lines.specs.Lines.{is_printed, line, shown, shown_in_id, shown_in_text, info_word, bext_word};

use itoa::Buffer;
use snd_meta::{BextKey, InfoKey};
use std::alloc::AllocError;

/// Whether a byte is printed and no space: from `!` to `~`.
pub fn is_printed(c: u8) -> bool
    ensures { result ≡ is_printed c }
{
    33 <= c && c <= 126
}

/// Appends a number's decimal digits.
pub fn push_number(text: &mut Vec<u8>, number: u64) -> Result<(), AllocError>
    ensures { OnOk result (text.new.items ≡ text.old.items ++ decimal number) }
{
    text.extend_from_slice(Buffer::new().format(number).as_bytes())
}

/// Appends a line of a key and its value.
pub fn push_line(text: &mut Vec<u8>, key: &[u8], value: &[u8]) -> Result<(), AllocError>
    ensures { OnOk result (text.new.items ≡ text.old.items ++ line key.now value.now) }
{
    text.extend_from_slice(key)?;
    text.push(b' ')?;
    text.extend_from_slice(value)?;
    text.push(b'\n')?;
    Ok(())
}

/// Appends a line of a key and a number.
pub fn push_number_line(text: &mut Vec<u8>, key: &[u8], number: u64) -> Result<(), AllocError>
    ensures { OnOk result (text.new.items ≡ text.old.items ++ line key.now (decimal number)) }
{
    push_line(text, key, Buffer::new().format(number).as_bytes())
}

/// A byte of an identifier as it is printed: `_` for a space, `?` for what is not printed.
pub(crate) fn shown_in_id(c: u8) -> u8
    ensures { result ≡ shown_in_id c }
{
    if c == b' ' {
        b'_'
    } else if is_printed(c) {
        c
    } else {
        b'?'
    }
}

/// A byte of a text as it is printed: `?` for what is neither printed nor a space.
fn shown_in_text(c: u8) -> u8
    ensures { result ≡ shown_in_text c }
{
    if c == b' ' || is_printed(c) { c } else { b'?' }
}

/// Appends the bytes of a text as they are printed.
fn push_text(text: &mut Vec<u8>, value: &[u8]) -> Result<(), AllocError>
    ensures { OnOk result (text.new.items ≡ text.old.items ++ shown value.now) }
{
    for c in value {
        text.push(shown_in_text(*c))?;
    }
    Ok(())
}

/// Appends a line of a key and a text.
pub(crate) fn push_shown(text: &mut Vec<u8>, key: &[u8], value: &[u8]) -> Result<(), AllocError>
    ensures { OnOk result (text.new.items ≡ text.old.items ++ line key.now (shown value.now)) }
{
    text.extend_from_slice(key)?;
    text.push(b' ')?;
    push_text(text, value)?;
    text.push(b'\n')?;
    Ok(())
}

/// The word of a text of an INFO list.
pub(crate) fn info_word(key: InfoKey) -> &'static [u8]
    ensures { result.now ≡ info_word key }
{
    match key {
        InfoKey::Title => b"title",
        InfoKey::Copyright => b"copyright",
        InfoKey::Software => b"software",
        InfoKey::Artist => b"artist",
        InfoKey::Comment => b"comment",
        InfoKey::Date => b"date",
        InfoKey::Album => b"album",
        InfoKey::Genre => b"genre",
        InfoKey::Track => b"track",
    }
}

/// The word of a field of a broadcast extension.
pub(crate) fn bext_word(key: BextKey) -> &'static [u8]
    ensures { result.now ≡ bext_word key }
{
    match key {
        BextKey::Description => b"description",
        BextKey::Originator => b"originator",
        BextKey::OrigRef => b"orig-ref",
        BextKey::OrigDate => b"orig-date",
        BextKey::OrigTime => b"orig-time",
        BextKey::TimeRef => b"time-ref",
        BextKey::CodingHist => b"coding-hist",
    }
}

//! The texts of replies that tell what chunks say. Each is gathered whole before any of it is put.

ghost use Rattle.std.specs.Prelude.{◌≡◌, IfOk};
ghost use Rattle.snd_rules.specs.Replies.{bext_text, body_text, chunks_text, ok_line, points_text, texts_text};

use snd_layout::Piece;
use snd_lines::{
    count_texts, push_bext, push_chunks, push_cues, push_hex, push_number, push_texts,
};
use snd_meta::{Bext, CueList, InfoList};
use std::alloc::{AllocError, Global};

// The line of a command that was carried out, with a number.
fn ok_text(alloc: Global, number: u64) -> Result<Vec<u8>, AllocError>
    ensures { IfOk result (λ text. text.items ≡ ok_line number) }
{
    let mut text = Vec::from_slice(alloc, b"ok ")?;
    push_number(&mut text, number)?;
    text.push(b'\n')?;
    Ok(text)
}

/// The bytes of a body.
pub fn body_text(alloc: Global, body: &[u8]) -> Result<Vec<u8>, AllocError>
    ensures { IfOk result (λ text. text.items ≡ body_text body.now) }
{
    if body.is_empty() {
        return Vec::from_slice(alloc, b"ok 0\n");
    }
    let mut text = Vec::from_slice(alloc, b"ok ")?;
    push_number(&mut text, body.len() as u64)?;
    text.push(b' ')?;
    push_hex(&mut text, body)?;
    text.push(b'\n')?;
    Ok(text)
}

/// A line for each chunk.
pub fn chunks_text(alloc: Global, pieces: &[Piece]) -> Result<Vec<u8>, AllocError>
    ensures { IfOk result (λ text. text.items ≡ chunks_text pieces.now) }
{
    let mut text = ok_text(alloc, pieces.len() as u64)?;
    push_chunks(&mut text, b"", pieces)?;
    Ok(text)
}

/// A line for each text.
pub fn texts_text(alloc: Global, list: &InfoList) -> Result<Vec<u8>, AllocError>
    ensures { IfOk result (λ text. text.items ≡ texts_text list.now) }
{
    let mut text = ok_text(alloc, count_texts(list) as u64)?;
    push_texts(&mut text, b"", list)?;
    Ok(text)
}

/// A line for each field of a broadcast extension.
pub fn bext_text(alloc: Global, bext: &Bext) -> Result<Vec<u8>, AllocError>
    ensures { IfOk result (λ text. text.items ≡ bext_text bext.now) }
{
    let mut text = ok_text(alloc, 7)?;
    push_bext(&mut text, bext)?;
    Ok(text)
}

/// A line for each cue point.
pub fn points_text(alloc: Global, points: &CueList) -> Result<Vec<u8>, AllocError>
    ensures { IfOk result (λ text. text.items ≡ points_text points.now) }
{
    let mut text = ok_text(alloc, points.len() as u64)?;
    push_cues(&mut text, points)?;
    Ok(text)
}

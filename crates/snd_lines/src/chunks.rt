//! Chunks, and the bytes of their bodies.

ghost use Rattle.std.specs.Prelude.{◌≡◌, ◌<◌, ◌++◌, OnOk};
ghost use Rattle.snd_lines.specs.Lines.{behind_each, chunk_line, hex_digit, hex_text};

use crate::words::{push_number_line, shown_in_id};
use snd_layout::Piece;
use std::alloc::AllocError;

/// Appends the line on a chunk.
fn push_chunk(text: &mut Vec<u8>, piece: Piece) -> Result<(), AllocError>
    ensures { OnOk result (text.new.items ≡ text.old.items ++ chunk_line piece) }
{
    let [first, second, third, fourth] = piece.id.0;
    let id = [
        shown_in_id(first),
        shown_in_id(second),
        shown_in_id(third),
        shown_in_id(fourth),
    ];
    push_number_line(text, &id, piece.len)
}

/// Appends a line for each chunk, in the order given: these words, its identifier, and how many bytes its body
/// has.
pub fn push_chunks(text: &mut Vec<u8>, words: &[u8], pieces: &[Piece]) -> Result<(), AllocError>
    ensures { OnOk result (text.new.items ≡ text.old.items ++ behind_each words.now chunk_line pieces.now) }
{
    for piece in pieces {
        text.extend_from_slice(words)?;
        push_chunk(text, *piece)?;
    }
    Ok(())
}

/// A hexadecimal digit.
fn hex_digit(n: u8) -> u8
    requires { n < 16 }
    ensures { result ≡ hex_digit n }
{
    if n < 10 { b'0' + n } else { b'a' - 10 + n }
}

/// Appends two hexadecimal digits for each byte, with no line feed behind them.
pub fn push_hex(text: &mut Vec<u8>, bytes: &[u8]) -> Result<(), AllocError>
    ensures { OnOk result (text.new.items ≡ text.old.items ++ hex_text bytes.now) }
{
    for byte in bytes {
        text.push(hex_digit(byte / 16))?;
        text.push(hex_digit(byte % 16))?;
    }
    Ok(())
}

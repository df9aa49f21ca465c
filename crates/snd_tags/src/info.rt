//! What tells an INFO list from other chunks, and how far it is looked for.

ghost use Rattle.std.specs.Prelude.{◌≡◌, ◌≤◌, codes, length, take};
ghost use Rattle.std.specs.Str.{bytes_eq};
ghost use Rattle.snd_edits.specs.Pieces.{has_name};

use snd_layout::Piece;

/// How many chunks of a file are looked at.
const MOST_PIECES: usize = 256;

/// The chunks that are looked at.
pub(crate) fn front(pieces: &[Piece]) -> &[Piece]
    ensures front { result.now ≡ take 256 pieces.now }
    ensures few { length result.now ≤ 256 }
    ensures within { length result.now ≤ length pieces.now }
{
    &pieces[..pieces.len().min(MOST_PIECES)]
}

/// Whether a chunk is a list of any kind.
pub(crate) fn is_list(piece: &Piece) -> bool
    ensures { result ≡ has_name (codes "LIST") piece.now }
{
    piece.id.0.as_slice() == b"LIST".as_slice()
}

/// Whether a body that begins with these bytes, at most 4, begins with `INFO`.
pub(crate) fn names_info(head: &[u8]) -> bool
    ensures { result ≡ bytes_eq head.now (codes "INFO") }
{
    head == b"INFO".as_slice()
}

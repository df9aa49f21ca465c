//! Which chunks are carried.

ghost use Rattle.std.specs.Prelude.{◌≡◌, ◌≤◌, All, length, map};
ghost use Rattle.snd_chunks.specs.Written.{chunks_bytes};
ghost use Rattle.snd_fields.specs.Laws.{IsByte};
ghost use Rattle.snd_fields.specs.declared.field.Order.TheVariants.{Little};
ghost use Rattle.snd_chunks.specs.Heads.{outline};
ghost use Rattle.snd_carry.specs.Carried.{TakesBytes, carried_pieces, is_carried};

use snd_container::chunk_size;
use snd_edits::may_be_piece;
use snd_layout::{Kind, LONGEST_PIECE, MOST_PIECES, Piece, PieceList};

/// Whether a copy of a file carries the chunk of a piece: it has at most 65536 bytes, and is none of the chunks
/// that a WAVE file has of its own.
pub fn is_carried(piece: Piece) -> bool
    ensures carried { result ≡ is_carried piece }
    ensures four { length piece.id.0 ≡ 4 }
    ensures bytes { All IsByte piece.id.0 }
{
    piece.len <= LONGEST_PIECE && may_be_piece(Kind::Wave, piece.id)
}

/// The bytes that the chunks take in a head that a copy carries of a file with these pieces: at most
/// 15730560. It reads nothing, since the lengths of the pieces are known.
pub fn carried_size(pieces: &PieceList) -> u64
    ensures size { TakesBytes pieces.now result }
    ensures outlines { length (chunks_bytes Little (map outline (carried_pieces pieces.now))) ≡ result }
    ensures most { result ≤ 15730560 }
{
    let mut size = 0;
    let mut count = 0;
    for piece in pieces.as_slice() {
        if count < MOST_PIECES && is_carried(*piece) {
            size += chunk_size(piece.len);
            count += 1;
        }
    }
    size
}

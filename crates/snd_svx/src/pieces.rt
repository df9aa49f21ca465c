//! The chunks of a file that are kept as they are.

ghost use Rattle.std.specs.Prelude.{◌≡◌, ◌++◌, OnOk};
ghost use Rattle.snd_svx.specs.Layout.{pieces_of};

use snd_chunks::Chunk;
use snd_layout::{Kind, Piece, PieceList};
use std::alloc::AllocError;

/// Adds the pieces among these chunks.
pub(crate) fn add_pieces(
    pieces: &mut PieceList,
    chunks: &[Chunk],
    after: bool,
) -> Result<(), AllocError>
    ensures { OnOk result (pieces.new ≡ pieces.old ++ pieces_of after chunks.now) }
{
    for chunk in chunks {
        if !Kind::Svx.is_own_id(chunk.id) {
            let piece = Piece {
                id: chunk.id,
                at: chunk.at,
                len: chunk.len,
                after,
            };
            pieces.push(piece)?;
        }
    }
    Ok(())
}

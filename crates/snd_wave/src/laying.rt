//! Pieces that stand one behind the other.

ghost use Rattle.std.specs.Prelude.{◌≡◌, ◌+◌, ◌<◌, ◌^◌, ◌++◌, OnOk, IfOk};
ghost use Rattle.snd_wave.specs.Relaid.{relaid, relaid_end};

use snd_layout::{Piece, PieceList};
use std::alloc::AllocError;

/// The head of a chunk: its identifier and its size.
const HEAD_SIZE: u64 = 8;

/// Lays pieces behind the others, one behind the other from a place on, and gives the place behind them.
#[tactic(auto, using(crate::proofs::Relaying::relaid_least))]
pub(crate) fn lay_pieces(
    into: &mut PieceList,
    place: u64,
    pieces: &[Piece],
) -> Result<u64, AllocError>
    requires { relaid_end place pieces.now < 2 ^ 63 }
    ensures laid { OnOk result (into.new ≡ into.old ++ relaid place pieces.now) }
    ensures end { IfOk result (λ end. end ≡ relaid_end place pieces.now) }
{
    let mut place = place;
    for piece in pieces {
        let at = place + HEAD_SIZE;
        into.push(Piece {
            id: piece.id,
            at,
            len: piece.len,
            after: false,
        })?;
        place = at + piece.len + piece.len % 2;
    }
    Ok(place)
}

//! Where pieces stand in a head into which one is put.

ghost use Rattle.std.specs.Prelude.{◌≡◌, ◌+◌, ◌^◌, ◌<◌, ◌≤◌, ◌==◌, All, IfOk, drop, if◌then◌else◌, length, slice_get};
ghost use Rattle.snd_layout.specs.Shape.{IsPlaced};
ghost use Rattle.snd_wave.specs.Changes.{Plans};
ghost use Rattle.snd_chunks.specs.Heads.{new_piece};
ghost use Rattle.snd_wave.specs.Relaid.{DoStand, IsSmall, behind_piece};

use crate::laying::lay_pieces;
use snd_fields::Id4;
use snd_layout::{Piece, PieceList};
use std::alloc::AllocError;

/// What changes among the pieces of a head as one is put into it.
#[derive(Drop)]
pub struct Plan {
    /// The place of the piece's head.
    pub at: u64,
    /// From where on the pieces behind it stand.
    pub from: u64,
    /// The bytes of these pieces.
    pub count: u64,
    /// Where the pieces end then.
    pub end: u64,
    pub pieces: PieceList,
}

// The pieces behind the one at a place.
fn pieces_behind(pieces: &[Piece], place: usize) -> &[Piece]
    ensures { result.now ≡ drop (place + 1) pieces.now }
{
    if place < pieces.len() {
        &pieces[place + 1..]
    } else {
        &[]
    }
}

// The place behind the piece at a place; the end where there is none.
fn end_of(pieces: &[Piece], place: usize, end: u64) -> u64
    requires { All IsPlaced pieces.now }
    ensures { result ≡ behind_piece (slice_get pieces.now place) end }
{
    match pieces.get(place) {
        Some(piece) => piece.at + piece.len + piece.len % 2,
        None => end,
    }
}

/// What changes among pieces that stand one behind the other from the place `first` on, as a piece is put
/// in the place of one, or behind them all. They are at most 240 afterwards, with at most 65536 bytes each.
pub fn plan_piece(
    pieces: &PieceList,
    first: u64,
    place: usize,
    id: Id4,
    body: &[u8],
) -> Result<Plan, AllocError>
    requires stand { DoStand first pieces.now }
    requires first { first ≤ 128 }
    requires place { place ≤ length pieces.now }
    requires few { place < 240 }
    requires small { IsSmall (new_piece id.0 body.now) }
    ensures planned { IfOk result (Plans first pieces.now place (new_piece id.0 body.now)) }
    ensures least { IfOk result (λ plan. first ≤ plan.end) }
    ensures most { IfOk result (λ plan. plan.end + 4096 ≤ 2 ^ 24) }
    ensures placed { IfOk result (λ plan. All IsPlaced plan.pieces) }
    ensures asked { IfOk result (λ plan. plan.count ≤ (if place == length pieces.now then 0 else 16711680)) }
{
    let old = pieces.as_slice();
    let piece = Piece {
        id,
        at: 0,
        len: body.len() as u64,
        after: false,
    };
    let mut pieces = PieceList::new(pieces.allocator());
    let at = lay_pieces(&mut pieces, first, &old[..place])?;
    let next = lay_pieces(&mut pieces, at, &[piece])?;
    let end = lay_pieces(&mut pieces, next, pieces_behind(old, place))?;
    Ok(Plan {
        at,
        from: end_of(old, place, at),
        count: end - next,
        end,
        pieces,
    })
}

//! The bodies of further chunks, read from a disk.

ghost use Rattle.std.specs.Prelude.{◌≡◌, ◌+◌, ◌-◌, ◌<◌, ◌≤◌, ◌^◌, Some, IfErr, IfOk, drop, length, min, slice_get, take};
ghost use Rattle.snd_disk.specs.Device.{AsksAtMost, CountsOn, IfOkTold, OnlyReadsOn};
ghost use Rattle.snd_layout.specs.Shape.{IsPlaced};
ghost use Rattle.snd_edits.specs.Pieces.{IsGetRefusal, IsSmall, first_piece, has_name};

use snd_disk::{Disk, Failed, Step};
use snd_edits::GetError;
use snd_fields::Id4;
use snd_layout::{LONGEST_PIECE, Layout, Piece};

pub(crate) fn has_name(piece: &Piece, id: Id4) -> bool
    ensures { result ≡ has_name id.0 piece.now }
{
    piece.id.0.as_slice() == id.0.as_slice()
}

// The first piece with an identifier.
fn first_piece(layout: &Layout, id: Id4) -> Option<Piece>
    ensures { result ≡ first_piece id.0 layout.now }
{
    let pieces = layout.pieces.as_slice();
    pieces.iter().copied().find(|piece| has_name(piece, id))
}

/// The first piece with an identifier, where its body may be given whole.
pub fn piece_to_give(layout: &Layout, id: Id4) -> Result<Piece, GetError>
    ensures found { IfOk result (λ piece. first_piece id.0 layout.now ≡ Some piece) }
    ensures small { IfOk result IsSmall }
    ensures placed { IfOk result IsPlaced }
    ensures refused { IfErr result (IsGetRefusal (first_piece id.0 layout.now)) }
{
    layout.keeps_rule();
    let Some(piece) = first_piece(layout, id) else {
        return Err(GetError::NoSuchChunk);
    };
    if piece.len > LONGEST_PIECE {
        return Err(GetError::ChunkTooLarge);
    }
    Ok(piece)
}

/// The piece at a place of the list, below their number.
pub fn piece_at(layout: &Layout, place: usize) -> Piece
    requires { place < length layout.now.pieces }
    ensures found { slice_get layout.now.pieces place ≡ Some result }
    ensures placed { IsPlaced result }
{
    layout.keeps_rule();
    let Some(piece) = layout.pieces.get(place) else {
        unreachable!()
    };
    piece
}

/// Reads bytes from a place on into the front of a slice: as many as there are, or as it has places for.
pub fn read_front<D: Disk>(disk: &mut D, at: u64, into: &mut [u8]) -> Result<usize, Step>
    requires { at + length into.old < 2 ^ 63 }
    ensures count { IfOk result (λ n. n ≡ min (length into.old) ((D.state disk.old).size - at)) }
    ensures told { IfOkTold D.state disk.old result (λ b n. take n into.new ≡ take n (drop at b)) }
    ensures rest { IfOk result (λ n. drop n into.new ≡ drop n into.old) }
    ensures faults { CountsOn D.state disk.old disk.new result }
    ensures reads { OnlyReadsOn D.state D.may_leave D.left_between disk.old disk.new }
    ensures asked { AsksAtMost D.state (length into.old) disk.old disk.new }
{
    match disk.read_at(at, into) {
        Ok(count) => Ok(count),
        Err(Failed) => Err(Step::Read),
    }
}

//! The texts of a file that a disk holds, by its layout.

ghost use Rattle.std.specs.Prelude.{◌≡◌, ◌≤◌, All, IfErr, IfOk, IfSome, IsErrOf, List, ℕ, find, length, take};
ghost use Rattle.snd_disk.specs.Device.{AsksAtMost, IfOkTold, OnlyReadsOn, Tells};
ghost use Rattle.snd_layout.specs.Shape.{IsPlaced};
ghost use Rattle.snd_edits.specs.Pieces.{body_of};
ghost use Rattle.snd_file.specs.Pieces.{CountsGetting};
ghost use Rattle.snd_tags.specs.Found.{IsAnswer, body_given};
ghost use Rattle.snd_edits.specs.TagsHeld.{is_info, texts_of};
ghost use Rattle.snd_tags.specs.Look.{IsBodyRefusal};

use crate::info::{front, is_list, names_info};
use snd_disk::{Disk, Failed, Step};
use snd_edits::{GetError, TagError};
use snd_layout::{LONGEST_PIECE, Layout, Piece};
use snd_meta::InfoList;
use std::alloc::Global;

// Reads the front of the body of a piece into a slice that is no longer. The answer is how many bytes stand
// on the disk.
fn read_front<D: Disk>(disk: &mut D, piece: &Piece, into: &mut [u8]) -> Result<usize, GetError>
    requires placed { IsPlaced piece.now }
    requires short { length into.old ≤ piece.now.len }
    ensures count { IfOk result (λ n. n ≤ length into.old) }
    ensures front { IfOkTold D.state disk.old result (λ b n. take n into.new ≡ take (length into.old) (body_of b piece.now)) }
    ensures only { IfErr result (λ e. e ≡ GetError.DiskFault Step.Read) }
    ensures faults { CountsGetting D.state disk.old disk.new result }
    ensures reads { OnlyReadsOn D.state D.may_leave D.left_between disk.old disk.new }
    ensures asked { AsksAtMost D.state (length into.old) disk.old disk.new }
{
    match disk.read_at(piece.at, into) {
        Ok(count) => Ok(count),
        Err(Failed) => Err(GetError::DiskFault(Step::Read)),
    }
}

// Whether a piece is a list whose body begins with `INFO`.
fn is_info<D: Disk>(disk: &mut D, piece: &Piece) -> Result<bool, GetError>
    requires { IsPlaced piece.now }
    ensures says { IfOkTold D.state disk.old result (λ b says. says ≡ is_info b piece.now) }
    ensures only { IfErr result (λ e. e ≡ GetError.DiskFault Step.Read) }
    ensures faults { CountsGetting D.state disk.old disk.new result }
    ensures reads { OnlyReadsOn D.state D.may_leave D.left_between disk.old disk.new }
    ensures asked { AsksAtMost D.state 4 disk.old disk.new }
{
    if !is_list(piece) || piece.len < 4 {
        return Ok(false);
    }
    let mut head = [0u8; 4];
    let count = read_front(disk, piece, &mut head)?;
    Ok(names_info(&head[..count]))
}

// The first INFO list among the first 256 pieces.
fn info_piece<D: Disk>(disk: &mut D, pieces: &[Piece]) -> Result<Option<Piece>, GetError>
    requires { All IsPlaced pieces.now }
    ensures found { IfOkTold D.state disk.old result (λ b found. find (is_info b) (take 256 pieces.now) ≡ found) }
    ensures placed { IfOk result (λ found. IfSome found IsPlaced) }
    ensures only { IfErr result (λ e. e ≡ GetError.DiskFault Step.Read) }
    ensures faults { CountsGetting D.state disk.old disk.new result }
    ensures reads { OnlyReadsOn D.state D.may_leave D.left_between disk.old disk.new }
    ensures asked { AsksAtMost D.state 1024 disk.old disk.new }
{
    for piece in front(pieces) {
        if is_info(disk, piece)? {
            return Ok(Some(*piece));
        }
    }
    Ok(None)
}

// The body of a piece, at most 65536 bytes.
fn body_on<D: Disk>(alloc: Global, disk: &mut D, piece: &Piece) -> Result<Vec<u8>, TagError>
    requires { IsPlaced piece.now }
    ensures small { IfOk result (λ body. piece.now.len ≤ 65536) }
    ensures few { IfOk result (λ body. length body.items ≤ 65536) }
    ensures body { IfOkTold D.state disk.old result (λ b body. body.items ≡ body_of b piece.now) }
    ensures refused { IfErr result (IsBodyRefusal piece.now) }
    ensures faults { CountsGetting D.state disk.old disk.new (body_given result) }
    ensures reads { OnlyReadsOn D.state D.may_leave D.left_between disk.old disk.new }
    ensures asked { AsksAtMost D.state 65536 disk.old disk.new }
{
    if piece.len > LONGEST_PIECE {
        return Err(TagError::Get(GetError::ChunkTooLarge));
    }
    let mut body = vec![in alloc; 0u8; piece.len as usize]?;
    let count = read_front(disk, piece, &mut body)?;
    body.truncate(count);
    Ok(body)
}

/// The texts of the first INFO list of a file that a disk holds, by its layout. A body ends where the disk
/// does. It asks at most 81920 bytes of the disk, and never writes.
///
/// # Errors
///
/// `NoSuchChunk` exactly where none of the first 256 chunks is a `LIST` that begins with `INFO`,
/// `ChunkTooLarge` exactly where the first one that is has more than 65536 bytes, and `BadBody` exactly where
/// it does not read; `DiskFault` where a call of the disk failed; `Memory` where there is none. `Broken`
/// never comes.
pub fn texts_on<D: Disk>(alloc: Global, disk: &mut D, layout: &Layout) -> Result<InfoList, TagError>
    ensures answers { (b : List ℕ) → Tells D.state disk.old b → IsAnswer (texts_of b layout.now) result }
    ensures whole { (step : Step) → IsErrOf result (TagError.Get (GetError.Broken step)) → ⊥ }
    ensures faults { CountsGetting D.state disk.old disk.new (body_given result) }
    ensures reads { OnlyReadsOn D.state D.may_leave D.left_between disk.old disk.new }
    ensures asked { AsksAtMost D.state 81920 disk.old disk.new }
{
    layout.keeps_rule();
    let Some(piece) = info_piece(disk, layout.pieces.as_slice())? else {
        return Err(TagError::Get(GetError::NoSuchChunk));
    };
    let body = body_on(alloc, disk, &piece)?;
    Ok(InfoList::read(alloc, &body)?)
}

//! The body of the INFO list of an open file.

ghost use Rattle.std.specs.Prelude.{◌≡◌, ◌<◌, ◌≤◌, None, IfErr, IfOk, IfSome, length, slice_get, take};
ghost use Rattle.snd_disk.specs.Device.{AsksAtMost, OnlyReadsOn};
ghost use Rattle.snd_edits.specs.Editing.{Editing};
ghost use Rattle.snd_file.specs.Handle.{IfOkStanding, Stands, StandsAfter, disk_of, known_of, loan_of};
ghost use Rattle.snd_edits.specs.Pieces.{PieceReadLeaves};
ghost use Rattle.snd_file.specs.Pieces.{CountsGetting, CountsPieceReading};
ghost use Rattle.snd_tags.specs.Bodies.{BodyLeaves, IsBodyOf, IsGiveRefusal, WholeLeaves, begins_info, chunk_at, first_list};
ghost use Rattle.snd_tags.specs.Found.{CountsFinding, FindsInfo};
ghost use Rattle.snd_edits.specs.TagsHeld.{info_piece};

use crate::info::{front, is_list, names_info};
use snd_disk::Disk;
use snd_edits::{GetError, Mode, PieceReadError, TagError};
use snd_fields::Id4;
use snd_file::File;
use snd_layout::{LONGEST_PIECE, Piece};
use std::alloc::Global;

// The first list of any kind.
fn first_list(pieces: &[Piece]) -> Option<Piece>
    ensures { result ≡ first_list pieces.now }
{
    pieces.iter().copied().find(|piece| is_list(piece))
}

// Whether the body of the chunk at a place of the list begins with `INFO`.
fn begins_info<'d, D: Disk, M: Mode>(
    file: &mut File<'d, D, M>,
    place: usize,
) -> Result<bool, PieceReadError>
    requires { place < length (known_of file.old).shape.pieces }
    ensures loan { loan_of file.new ≡ loan_of file.old }
    ensures left { PieceReadLeaves (known_of file.old) (known_of file.new) result }
    ensures says { IfOkStanding D.state file.old result (λ e says. IfSome (slice_get e.shape.pieces place) (λ piece. says ≡ begins_info e.bytes piece)) }
    ensures stands { StandsAfter D.state file.old file.new (λ e. e) }
    ensures faults { CountsPieceReading D.state (disk_of file.old) (disk_of file.new) result }
    ensures reads { OnlyReadsOn D.state D.may_leave D.left_between (disk_of file.old) (disk_of file.new) }
    ensures asked { AsksAtMost D.state 4 (disk_of file.old) (disk_of file.new) }
{
    let mut head = [0u8; 4];
    let count = file.piece_read(place, &mut head)?;
    Ok(names_info(&head[..count]))
}

// The place of the first INFO list, in a file that has a list of some kind among the chunks that are looked at.
fn info_place<'d, D: Disk, M: Mode>(
    file: &mut File<'d, D, M>,
) -> Result<Option<usize>, PieceReadError>
    requires { first_list (take 256 (known_of file.old).shape.pieces) ≡ None → ⊥ }
    ensures loan { loan_of file.new ≡ loan_of file.old }
    ensures left { PieceReadLeaves (known_of file.old) (known_of file.new) result }
    ensures within { IfOk result (λ found. IfSome found (λ place. place < length (known_of file.old).shape.pieces)) }
    ensures found { IfOkStanding D.state file.old result (λ e found. info_piece e.bytes e.shape ≡ chunk_at e.shape.pieces found) }
    ensures stands { StandsAfter D.state file.old file.new (λ e. e) }
    ensures faults { CountsPieceReading D.state (disk_of file.old) (disk_of file.new) result }
    ensures reads { OnlyReadsOn D.state D.may_leave D.left_between (disk_of file.old) (disk_of file.new) }
    ensures asked { AsksAtMost D.state 1024 (disk_of file.old) (disk_of file.new) }
{
    let count = front(file.pieces().as_slice()).len();
    for place in 0..count {
        let Some(piece) = file.pieces().get(place) else {
            unreachable!()
        };
        if !is_list(&piece) {
            continue;
        }
        if begins_info(file, place)? {
            return Ok(Some(place));
        }
    }
    Ok(None)
}

// The body of the chunk at a place of the list, at most 65536 bytes, in a file that is not broken.
fn body_at<'d, D: Disk, M: Mode>(
    file: &mut File<'d, D, M>,
    alloc: Global,
    place: usize,
) -> Result<Vec<u8>, TagError>
    requires place { place < length (known_of file.old).shape.pieces }
    requires working { (known_of file.old).broken ≡ None }
    ensures loan { loan_of file.new ≡ loan_of file.old }
    ensures left { BodyLeaves (known_of file.old) (known_of file.new) result }
    ensures few { IfOk result (λ body. length body.items ≤ 65536) }
    ensures body { IfOkStanding D.state file.old result (λ e body. IsBodyOf e.bytes (slice_get e.shape.pieces place) body.items) }
    ensures refused { IfErr result (IsGiveRefusal (slice_get (known_of file.old).shape.pieces place)) }
    ensures stands { StandsAfter D.state file.old file.new (λ e. e) }
    ensures faults { CountsFinding D.state file.old file.new result }
    ensures reads { OnlyReadsOn D.state D.may_leave D.left_between (disk_of file.old) (disk_of file.new) }
    ensures asked { AsksAtMost D.state 65536 (disk_of file.old) (disk_of file.new) }
{
    let Some(piece) = file.pieces().get(place) else {
        unreachable!()
    };
    if piece.len > LONGEST_PIECE {
        return Err(TagError::Get(GetError::ChunkTooLarge));
    }
    let mut body = vec![in alloc; 0u8; piece.len as usize]?;
    let count = file.piece_read(place, &mut body)?;
    body.truncate(count);
    Ok(body)
}

// Whether a file is whole. It asks nothing of the disk where no chunk is a list.
fn is_whole<'d, D: Disk, M: Mode>(file: &mut File<'d, D, M>, alloc: Global) -> Result<(), GetError>
    ensures loan { loan_of file.new ≡ loan_of file.old }
    ensures left { WholeLeaves (known_of file.old) (known_of file.new) result }
    ensures stands { StandsAfter D.state file.old file.new (λ e. e) }
    ensures faults { CountsGetting D.state (disk_of file.old) (disk_of file.new) result }
    ensures reads { OnlyReadsOn D.state D.may_leave D.left_between (disk_of file.old) (disk_of file.new) }
    ensures asked { AsksAtMost D.state 65536 (disk_of file.old) (disk_of file.new) }
{
    match file.piece_bytes(alloc, Id4(*b"LIST")) {
        Ok(_) | Err(GetError::NoSuchChunk | GetError::ChunkTooLarge) => Ok(()),
        Err(error) => Err(error),
    }
}

/// The body of the first INFO list.
pub(crate) fn info_body<'d, D: Disk, M: Mode>(
    file: &mut File<'d, D, M>,
    alloc: Global,
) -> Result<Vec<u8>, TagError>
    ensures loan { loan_of file.new ≡ loan_of file.old }
    ensures left { FindsInfo (known_of file.old) (known_of file.new) result }
    ensures few { IfOk result (λ body. length body.items ≤ 65536) }
    ensures body { IfOkStanding D.state file.old result (λ e body. IsBodyOf e.bytes (info_piece e.bytes e.shape) body.items) }
    ensures refused { IfErr result (λ error. (e : Editing) → Stands D.state file.old e → IsGiveRefusal (info_piece e.bytes e.shape) error) }
    ensures stands { StandsAfter D.state file.old file.new (λ e. e) }
    ensures faults { CountsFinding D.state file.old file.new result }
    ensures reads { OnlyReadsOn D.state D.may_leave D.left_between (disk_of file.old) (disk_of file.new) }
    ensures asked { AsksAtMost D.state 81920 (disk_of file.old) (disk_of file.new) }
{
    if first_list(front(file.pieces().as_slice())).is_none() {
        is_whole(file, alloc)?;
        return Err(TagError::Get(GetError::NoSuchChunk));
    }
    match info_place(file)? {
        Some(place) => body_at(file, alloc, place),
        None => Err(TagError::Get(GetError::NoSuchChunk)),
    }
}

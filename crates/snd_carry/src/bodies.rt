//! One chunk that is carried: its body is read from one file and put into the other.

ghost use Rattle.std.specs.Prelude.{◌≡◌, ◌<◌, ◌≤◌, All, IfOk, None, OnOk, Some, false, length, slice_get, true};
ghost use Rattle.snd_disk.specs.Device.{AsksAtMost, GoesOnFrom, OnlyReadsOn, WritesAtMost};
ghost use Rattle.snd_fields.specs.Laws.{IsByte};
ghost use Rattle.snd_file.specs.Chunks.{HoldsPut, StandsAsOpened};
ghost use Rattle.snd_file.specs.Handle.{IfOkStanding, StandsAfter, disk_of, known_of, loan_of};
ghost use Rattle.snd_layout.specs.Kinds.{holds_meta, is_wave_own};
ghost use Rattle.snd_file.specs.Outcomes.{AsksNothing, TellsOn};
ghost use Rattle.snd_edits.specs.PieceCalls.{IsUntouched, known_put};
ghost use Rattle.snd_edits.specs.Pieces.{body_of};
ghost use Rattle.snd_edits.specs.Relaid.{added_to};
ghost use Rattle.snd_chunks.specs.Heads.{outline, new_piece};
ghost use Rattle.snd_output.specs.Ends.{BreaksByFault, CountsOneOf, CountsStop, IsUnchanged};
ghost use Rattle.snd_carry.specs.Carried.{is_carried};
ghost use Rattle.snd_carry.specs.Carrying.{CarriesOne, HoldsChunk, HoldsOne};

use snd_disk::Disk;
use snd_edits::{CanMake, PieceReadError, Read};
use snd_fields::Id4;
use snd_file::File;
use snd_layout::{Piece, PieceError};
use snd_output::Stop;
use std::alloc::Global;

// Each item of a slice of bytes is a byte.
fn are_bytes(bytes: &[u8])
    ensures { All IsByte bytes.now }
{}

// The body of the piece at a place of the list, in a file that is not broken.
fn read_body<D: Disk>(
    alloc: Global,
    from: &mut File<'_, D, Read>,
    place: usize,
    piece: Piece,
) -> Result<Vec<u8>, Stop>
    requires working { (known_of from.old).broken ≡ None }
    requires there { slice_get (known_of from.old).shape.pieces place ≡ Some piece }
    requires small { piece.len ≤ 65536 }
    ensures loan { loan_of from.new ≡ loan_of from.old }
    ensures known { OnOk result (known_of from.new ≡ known_of from.old) }
    ensures body { IfOkStanding D.state from.old result (λ e body. body.items ≡ body_of e.bytes piece) }
    ensures size { IfOk result (λ body. length body.items ≡ piece.len) }
    ensures bytes { IfOk result (λ body. All IsByte body.items) }
    ensures stands { StandsAfter D.state from.old from.new (λ e. e) }
    ensures faults { CountsStop (D.state (disk_of from.old)).faults (D.state (disk_of from.new)).faults result }
    ensures unchanged { IsUnchanged result }
    ensures reads { OnlyReadsOn D.state D.may_leave D.left_between (disk_of from.old) (disk_of from.new) }
    ensures asked { AsksAtMost D.state piece.len (disk_of from.old) (disk_of from.new) }
{
    let mut body = vec![in alloc; 0u8; piece.len as usize]?;
    match from.piece_read(place, &mut body) {
        Ok(_) => {
            are_bytes(&body);
            Ok(body)
        }
        Err(PieceReadError::DiskFault(_)) => Err(Stop::Fault),
        Err(PieceReadError::Broken(_)) => unreachable!(),
    }
}

/// Puts a chunk with at most 65536 bytes behind the others of a WAVE or RF64 file that was made, has no frame yet
/// and fewer than 240 chunks. It writes at most 16777216 bytes and reads none.
///
/// `Fault` exactly where a call of the disk failed: then the file is broken; `Memory` where there is none.
pub fn put_chunk<E: Disk, M: CanMake>(
    to: &mut File<'_, E, M>,
    id: Id4,
    body: &[u8],
) -> Result<(), Stop>
    requires untouched { IsUntouched (known_of to.old) }
    requires meta { holds_meta (known_of to.old).shape.kind ≡ true }
    requires other { is_wave_own id.0 ≡ false }
    requires small { length body.now ≤ 65536 }
    requires few { length (known_of to.old).shape.pieces < 240 }
    ensures loan { loan_of to.new ≡ loan_of to.old }
    ensures known { OnOk result (known_of to.new ≡ known_put (length (known_of to.old).shape.pieces) (new_piece id.0 body.now) (known_of to.old)) }
    ensures stands { OnOk result (StandsAfter E.state to.old to.new (added_to id.0 body.now)) }
    ensures holds { OnOk result (HoldsPut E.state (length (known_of to.old).shape.pieces) (new_piece id.0 body.now) to.old to.new) }
    ensures begins { OnOk result (StandsAsOpened E.state to.new) }
    ensures works { BreaksByFault (known_of to.new) result }
    ensures faults { CountsStop (E.state (disk_of to.old)).faults (E.state (disk_of to.new)).faults result }
    ensures unchanged { IsUnchanged result }
    ensures tells { TellsOn E.state to.old to.new }
    ensures time { GoesOnFrom E.state E.left_between (disk_of to.old) (disk_of to.new) }
    ensures written { WritesAtMost E.state 16777216 (disk_of to.old) (disk_of to.new) }
    ensures unasked { AsksNothing E.state to.old to.new }
{
    match to.copy_piece(id, body) {
        Ok(()) => Ok(()),
        Err(PieceError::DiskFault(_)) => Err(Stop::Fault),
        Err(PieceError::Memory) => Err(Stop::Memory),
        Err(
            PieceError::Broken(_)
            | PieceError::FramesWritten
            | PieceError::AutoOn
            | PieceError::ReservedChunk
            | PieceError::NoChunks
            | PieceError::ChunkTooLarge
            | PieceError::TooManyChunks
            | PieceError::ContainerFull,
        ) => unreachable!(),
    }
}

/// Carries one chunk of a file into a file that was made, in the same way: that of the piece at a place of its
/// list, which is one that is carried.
#[tactic(auto, using(crate::proofs::Heads::outline_put))]
pub fn carry_chunk<D: Disk, E: Disk, M: CanMake>(
    alloc: Global,
    from: &mut File<'_, D, Read>,
    to: &mut File<'_, E, M>,
    place: usize,
    piece: Piece,
) -> Result<(), Stop>
    requires working { (known_of from.old).broken ≡ None }
    requires there { slice_get (known_of from.old).shape.pieces place ≡ Some piece }
    requires carried { is_carried piece ≡ true }
    requires four { length piece.id.0 ≡ 4 }
    requires id { All IsByte piece.id.0 }
    requires untouched { IsUntouched (known_of to.old) }
    requires meta { holds_meta (known_of to.old).shape.kind ≡ true }
    requires few { length (known_of to.old).shape.pieces < 240 }
    ensures from_loan { loan_of from.new ≡ loan_of from.old }
    ensures to_loan { loan_of to.new ≡ loan_of to.old }
    ensures same { OnOk result (known_of from.new ≡ known_of from.old) }
    ensures known { OnOk result (known_of to.new ≡ known_put (length (known_of to.old).shape.pieces) (outline piece) (known_of to.old)) }
    ensures stands { StandsAfter D.state from.old from.new (λ e. e) }
    ensures carries { OnOk result (CarriesOne D.state E.state piece from.old to.old to.new) }
    ensures holds { OnOk result (HoldsOne D.state E.state piece from.old to.old to.new) }
    ensures begins { OnOk result (StandsAsOpened E.state to.new) }
    ensures chunk { OnOk result (HoldsChunk D.state piece from.old) }
    ensures works { BreaksByFault (known_of to.new) result }
    ensures faults { CountsOneOf (D.state (disk_of from.old)).faults (D.state (disk_of from.new)).faults (E.state (disk_of to.old)).faults (E.state (disk_of to.new)).faults result }
    ensures unchanged { IsUnchanged result }
    ensures reads { OnlyReadsOn D.state D.may_leave D.left_between (disk_of from.old) (disk_of from.new) }
    ensures asked { AsksAtMost D.state piece.len (disk_of from.old) (disk_of from.new) }
    ensures tells { TellsOn E.state to.old to.new }
    ensures time { GoesOnFrom E.state E.left_between (disk_of to.old) (disk_of to.new) }
    ensures written { WritesAtMost E.state 16777216 (disk_of to.old) (disk_of to.new) }
    ensures unasked { AsksNothing E.state to.old to.new }
{
    let body = read_body(alloc, from, place, piece)?;
    put_chunk(to, piece.id, &body)
}

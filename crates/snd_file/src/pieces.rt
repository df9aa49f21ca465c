//! The calls of an open file that read its further chunks.

ghost use Rattle.std.specs.Prelude.{◌≡◌, ◌<◌, ◌≤◌, false, IfOk, IfSome, drop, length, min, slice_get};
ghost use Rattle.snd_disk.specs.Device.{AsksAtMost, OnlyReadsOn};
ghost use Rattle.snd_file.specs.Handle.{IfOkStanding, StandsAfter, disk_of, known_of, loan_of};
ghost use Rattle.snd_edits.specs.Pieces.{GetLeaves, GivesBody, GivesFront, PieceReadLeaves, first_piece};
ghost use Rattle.snd_file.specs.Pieces.{CountsGetting, CountsPieceReading};

use crate::handle::File;
use snd_disk::Disk;
use snd_edits::{GetError, Mode, PieceReadError};
use snd_fields::Id4;
use snd_frames::{piece_at, piece_to_give, read_front};
use snd_layout::PieceList;
use std::alloc::Global;

impl<'d, D: Disk, M: Mode> File<'d, D, M> {
    /// The further chunks of the file, in its order.
    pub fn pieces(&self) -> &PieceList
        ensures { result.now ≡ (known_of self.now).shape.pieces }
    {
        &self.layout.pieces
    }

    /// The body of the first chunk with an identifier, at most 65536 bytes. It asks at most so many of the
    /// disk, and never writes.
    ///
    /// `Broken` where a call of the disk failed before; then `NoSuchChunk` exactly where there is no such
    /// chunk, and `ChunkTooLarge` exactly where the first one has more bytes; `Memory` where there is none:
    /// these leave all as it was. `DiskFault` where a call of the disk failed now: from then on the file is
    /// broken.
    ///
    /// A file that is read gives as many bytes as its head says. One that is written gives those that stand
    /// on the disk.
    pub fn piece_bytes(&mut self, alloc: Global, id: Id4) -> Result<Vec<u8>, GetError>
        ensures loan { loan_of self.new ≡ loan_of self.old }
        ensures left { GetLeaves id.0 (known_of self.old) (known_of self.new) result }
        ensures body { IfOkStanding D.state self.old result (λ e body. GivesBody id.0 e body.items) }
        ensures few { IfOk result (λ body. IfSome (first_piece id.0 (known_of self.old).shape) (λ piece. length body.items ≤ piece.len)) }
        ensures whole { M.WRITES ≡ false → IfOk result (λ body. IfSome (first_piece id.0 (known_of self.old).shape) (λ piece. length body.items ≡ piece.len)) }
        ensures stands { StandsAfter D.state self.old self.new (λ e. e) }
        ensures faults { CountsGetting D.state (disk_of self.old) (disk_of self.new) result }
        ensures reads { OnlyReadsOn D.state D.may_leave D.left_between (disk_of self.old) (disk_of self.new) }
        ensures asked { AsksAtMost D.state 65536 (disk_of self.old) (disk_of self.new) }
    {
        if let Some(step) = self.broken {
            return Err(GetError::Broken(step));
        }
        let piece = piece_to_give(&self.layout, id)?;
        let mut body = vec![in alloc; 0u8; piece.len as usize]?;
        match read_front(self.disk, piece.at, &mut body) {
            Ok(count) => {
                body.truncate(count);
                Ok(body)
            }
            Err(step) => {
                self.broken = Some(step);
                Err(GetError::DiskFault(step))
            }
        }
    }

    /// Reads the front of the body of a chunk into the front of a slice: the chunk at a place of the list,
    /// below their number. The answer is how many bytes were read: as many as the body has, or as the slice
    /// has places for; the rest of the slice stays. It asks at most so many of the disk as the slice has
    /// places, never writes, and takes no memory.
    ///
    /// `Broken` where a call of the disk failed before, which leaves all as it was; `DiskFault` where one
    /// failed now: from then on the file is broken.
    pub fn piece_read(&mut self, place: usize, into: &mut [u8]) -> Result<usize, PieceReadError>
        requires { place < length (known_of self.old).shape.pieces }
        ensures loan { loan_of self.new ≡ loan_of self.old }
        ensures left { PieceReadLeaves (known_of self.old) (known_of self.new) result }
        ensures front { IfOkStanding D.state self.old result (GivesFront place into.old into.new) }
        ensures rest { IfOk result (λ n. drop n into.new ≡ drop n into.old) }
        ensures most { IfOk result (λ n. IfSome (slice_get (known_of self.old).shape.pieces place) (λ piece. n ≤ min (length into.old) piece.len)) }
        ensures whole { M.WRITES ≡ false → IfOk result (λ n. IfSome (slice_get (known_of self.old).shape.pieces place) (λ piece. n ≡ min (length into.old) piece.len)) }
        ensures stands { StandsAfter D.state self.old self.new (λ e. e) }
        ensures faults { CountsPieceReading D.state (disk_of self.old) (disk_of self.new) result }
        ensures reads { OnlyReadsOn D.state D.may_leave D.left_between (disk_of self.old) (disk_of self.new) }
        ensures asked { AsksAtMost D.state (length into.old) (disk_of self.old) (disk_of self.new) }
    {
        if let Some(step) = self.broken {
            return Err(PieceReadError::Broken(step));
        }
        let piece = piece_at(&self.layout, place);
        let count = piece.len.min(into.len() as u64) as usize;
        match read_front(self.disk, piece.at, &mut into[..count]) {
            Ok(read) => Ok(read),
            Err(step) => {
                self.broken = Some(step);
                Err(PieceReadError::DiskFault(step))
            }
        }
    }
}

//! The calls of a file that is made that put further chunks into its head, before the first frame.

ghost use Rattle.std.specs.Prelude.{◌≡◌, ◌≤◌, ◌==◌, ◌<◌, false, true, IfErr, OnOk, if◌then◌else◌, length};
ghost use Rattle.snd_disk.specs.Device.{AsksAtMost, GoesOnFrom, OnlyReadsOn, WritesAtMost};
ghost use Rattle.snd_layout.specs.declared.error.PieceError.TheVariants.{Memory};
ghost use Rattle.snd_chunks.specs.Heads.{new_piece};
ghost use Rattle.snd_file.specs.Chunks.{HoldsPut, StandsAsOpened};
ghost use Rattle.snd_file.specs.Handle.{disk_of, known_of, loan_of};
ghost use Rattle.snd_layout.specs.Kinds.{holds_pieces, is_meta_id, is_own_id};
ghost use Rattle.snd_file.specs.Outcomes.{AsksNothing, TellsOn};
ghost use Rattle.snd_edits.specs.PieceCalls.{AddLeaves, CopyLeaves, IsPutRefusal, MayPut, PutLeaves, ReplaceLeaves};
ghost use Rattle.snd_file.specs.PieceCalls.{CountsPut, StandsPut};
ghost use Rattle.snd_edits.specs.Relaid.{added_to, place_named, put_to, replaced_to};

use crate::handle::File;
use snd_disk::Disk;
use snd_edits::{CanMake, Wanted};
use snd_fields::Id4;
use snd_frames::{keeps_rules, place_named, put_ruled};
use snd_layout::{LONGEST_PIECE, MOST_PIECES, PieceError};

impl<'d, D: Disk, M: CanMake> File<'d, D, M> {
    /// Puts a further chunk behind the others: the file holds those that it held, with this one. It writes at
    /// most 16777216 bytes and reads none.
    ///
    /// `Broken` where a call of the disk failed before; then `FramesWritten` exactly where a frame was
    /// written through this handle; `AutoOn` exactly where updates are automatic; `ReservedChunk` exactly
    /// where the container uses the identifier itself, or has a call of its own for it; `NoChunks` exactly
    /// where files of the kind are given no chunks; `ChunkTooLarge` exactly where the body has more than
    /// 65536 bytes; `TooManyChunks` exactly where 240 chunks stand; `Memory` where there is none: these
    /// leave all as it was. `DiskFault` where a call of the disk failed now: from then on the file is
    /// broken, and what its disk holds is not said.
    pub fn add_piece(&mut self, id: Id4, body: &[u8]) -> Result<(), PieceError>
        ensures loan { loan_of self.new ≡ loan_of self.old }
        ensures left { AddLeaves id.0 body.now (known_of self.old) (known_of self.new) result }
        ensures stands { StandsPut D.state self.old self.new (added_to id.0 body.now) result }
        ensures holds { OnOk result (HoldsPut D.state (length (known_of self.old).shape.pieces) (new_piece id.0 body.now) self.old self.new) }
        ensures begins { OnOk result (StandsAsOpened D.state self.new) }
        ensures unchanged { IfErr result (λ e. e ≡ Memory → OnlyReadsOn D.state D.may_leave D.left_between (disk_of self.old) (disk_of self.new)) }
        ensures tells { TellsOn D.state self.old self.new }
        ensures time { GoesOnFrom D.state D.left_between (disk_of self.old) (disk_of self.new) }
        ensures faults { CountsPut D.state (disk_of self.old) (disk_of self.new) result }
        ensures written { WritesAtMost D.state 16777216 (disk_of self.old) (disk_of self.new) }
        ensures asked { AsksNothing D.state self.old self.new }
    {
        let kind = self.layout.kind;
        let wanted = Wanted {
            reserved: kind.is_reserved(id),
            held: kind.holds_pieces(),
            len: body.len(),
            place: self.layout.pieces.len(),
        };
        self.put_wanted(wanted, id, body)
    }

    /// Puts a further chunk of another file behind the others, under the conditions and with the answers of
    /// `add_piece`, but for `ReservedChunk`: its identifier is one that `may_be_piece` accepts.
    pub fn copy_piece(&mut self, id: Id4, body: &[u8]) -> Result<(), PieceError>
        requires { is_own_id (known_of self.old).shape.kind id.0 ≡ false }
        ensures loan { loan_of self.new ≡ loan_of self.old }
        ensures left { CopyLeaves id.0 body.now (known_of self.old) (known_of self.new) result }
        ensures stands { StandsPut D.state self.old self.new (added_to id.0 body.now) result }
        ensures holds { OnOk result (HoldsPut D.state (length (known_of self.old).shape.pieces) (new_piece id.0 body.now) self.old self.new) }
        ensures begins { OnOk result (StandsAsOpened D.state self.new) }
        ensures unchanged { IfErr result (λ e. e ≡ Memory → OnlyReadsOn D.state D.may_leave D.left_between (disk_of self.old) (disk_of self.new)) }
        ensures tells { TellsOn D.state self.old self.new }
        ensures time { GoesOnFrom D.state D.left_between (disk_of self.old) (disk_of self.new) }
        ensures faults { CountsPut D.state (disk_of self.old) (disk_of self.new) result }
        ensures written { WritesAtMost D.state 16777216 (disk_of self.old) (disk_of self.new) }
        ensures asked { AsksNothing D.state self.old self.new }
    {
        let wanted = Wanted {
            reserved: false,
            held: self.layout.kind.holds_pieces(),
            len: body.len(),
            place: self.layout.pieces.len(),
        };
        self.put_wanted(wanted, id, body)
    }

    /// Puts an INFO list, cue points or a broadcast extension: the chunk `LIST`, `cue ` or `bext`. It takes
    /// the place of the first chunk with that identifier, or stands behind the others where there is none.
    /// It writes at most 16777216 bytes, and reads at most 16711680.
    ///
    /// The answers are those of `add_piece`, but `ReservedChunk` never comes; `NoChunks` comes exactly where
    /// files of the kind are not given such chunks, and `TooManyChunks` exactly where 240 chunks stand and
    /// none of them has that identifier.
    pub fn put_meta(&mut self, id: Id4, body: &[u8]) -> Result<(), PieceError>
        requires { is_meta_id id.0 ≡ true }
        ensures loan { loan_of self.new ≡ loan_of self.old }
        ensures left { ReplaceLeaves id.0 body.now (known_of self.old) (known_of self.new) result }
        ensures stands { StandsPut D.state self.old self.new (replaced_to id.0 body.now) result }
        ensures holds { OnOk result (HoldsPut D.state (place_named id.0 (known_of self.old).shape) (new_piece id.0 body.now) self.old self.new) }
        ensures begins { OnOk result (StandsAsOpened D.state self.new) }
        ensures unchanged { IfErr result (λ e. e ≡ Memory → OnlyReadsOn D.state D.may_leave D.left_between (disk_of self.old) (disk_of self.new)) }
        ensures tells { TellsOn D.state self.old self.new }
        ensures time { GoesOnFrom D.state D.left_between (disk_of self.old) (disk_of self.new) }
        ensures faults { CountsPut D.state (disk_of self.old) (disk_of self.new) result }
        ensures written { WritesAtMost D.state 16777216 (disk_of self.old) (disk_of self.new) }
        ensures asked { AsksAtMost D.state 16711680 (disk_of self.old) (disk_of self.new) }
    {
        let wanted = Wanted {
            reserved: false,
            held: self.layout.kind.holds_meta(),
            len: body.len(),
            place: place_named(&self.layout, id),
        };
        self.put_wanted(wanted, id, body)
    }

    // Puts a chunk at a place of the list, where nothing speaks against it.
    fn put_wanted(&mut self, wanted: Wanted, id: Id4, body: &[u8]) -> Result<(), PieceError>
        requires len { wanted.len ≡ length body.now }
        requires place { wanted.place ≤ length (known_of self.old).shape.pieces }
        requires held { wanted.held ≡ true → holds_pieces (known_of self.old).shape.kind ≡ true }
        requires other { wanted.reserved ≡ false → is_own_id (known_of self.old).shape.kind id.0 ≡ false }
        ensures loan { loan_of self.new ≡ loan_of self.old }
        ensures left { PutLeaves wanted (new_piece id.0 body.now) (known_of self.old) (known_of self.new) result }
        ensures stands { StandsPut D.state self.old self.new (put_to wanted.place (new_piece id.0 body.now)) result }
        ensures holds { OnOk result (HoldsPut D.state wanted.place (new_piece id.0 body.now) self.old self.new) }
        ensures begins { OnOk result (StandsAsOpened D.state self.new) }
        ensures unchanged { IfErr result (λ e. e ≡ Memory → OnlyReadsOn D.state D.may_leave D.left_between (disk_of self.old) (disk_of self.new)) }
        ensures tells { TellsOn D.state self.old self.new }
        ensures time { GoesOnFrom D.state D.left_between (disk_of self.old) (disk_of self.new) }
        ensures faults { CountsPut D.state (disk_of self.old) (disk_of self.new) result }
        ensures written { WritesAtMost D.state 16777216 (disk_of self.old) (disk_of self.new) }
        ensures asked { AsksAtMost D.state (if wanted.place == length (known_of self.old).shape.pieces then 0 else 16711680) (disk_of self.old) (disk_of self.new) }
    {
        self.may_put(&wanted)?;
        keeps_rules(&self.layout);
        match put_ruled(self.disk, &mut self.layout, wanted.place, id, body) {
            Ok(()) => Ok(()),
            Err(PieceError::DiskFault(step)) => {
                self.broken = Some(step);
                Err(PieceError::DiskFault(step))
            }
            Err(PieceError::Memory) => Err(PieceError::Memory),
            Err(
                PieceError::Broken(_)
                | PieceError::FramesWritten
                | PieceError::AutoOn
                | PieceError::ReservedChunk
                | PieceError::NoChunks
                | PieceError::ChunkTooLarge
                | PieceError::TooManyChunks
                | PieceError::ContainerFull,
            ) => unreachable!(),
        }
    }

    // Whether a chunk may be put, or why not.
    fn may_put(&self, wanted: &Wanted) -> Result<(), PieceError>
        ensures may { OnOk result (MayPut wanted.now (known_of self.now)) }
        ensures refused { IfErr result (IsPutRefusal wanted.now (known_of self.now)) }
    {
        if let Some(step) = self.broken {
            return Err(PieceError::Broken(step));
        }
        if self.written {
            return Err(PieceError::FramesWritten);
        }
        if self.automatic {
            return Err(PieceError::AutoOn);
        }
        if wanted.reserved {
            return Err(PieceError::ReservedChunk);
        }
        if !wanted.held {
            return Err(PieceError::NoChunks);
        }
        if wanted.len > LONGEST_PIECE as usize {
            return Err(PieceError::ChunkTooLarge);
        }
        if wanted.place == self.layout.pieces.len() && wanted.place >= MOST_PIECES {
            return Err(PieceError::TooManyChunks);
        }
        Ok(())
    }
}

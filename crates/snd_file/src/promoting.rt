//! A WAVE file that is turned into RF64 while it is open.

ghost use Rattle.std.specs.Prelude.{◌≡◌, None, MatchResult, OnOk};
ghost use Rattle.snd_disk.specs.Device.{CountsOn, GoesOnFrom, IsStable, WritesAtMost};
ghost use Rattle.snd_edits.specs.Outcomes.{Done};
ghost use Rattle.snd_file.specs.Chunks.{KeepsChunksOn};
ghost use Rattle.snd_file.specs.Handle.{StandsAfter, disk_of, known_of, loan_of};
ghost use Rattle.snd_file.specs.Outcomes.{AsksNothing, CountsCall, StandsOn, TellsOn};
ghost use Rattle.snd_file.specs.Promoting.{KeepsTurned, RestsPromoted};
ghost use Rattle.snd_file.specs.Rest.{LeavesSafe};
ghost use Rattle.snd_reservations.specs.Calls.{IsPromoteFault, PromoteLeaves, promote_outcome};
ghost use Rattle.snd_reservations.specs.States.{MayTurn, known_promoted, promoted_to};

use crate::handle::File;
use snd_disk::{Disk, Step};
use snd_edits::Update;
use snd_frames::keeps_rules;
use snd_promote::promote;
use snd_reservations::PromoteError;

impl<'d, D: Disk> File<'d, D, Update> {
    /// Seals the file as `update_now` does, and turns it into RF64 in place (EBU Tech 3306): its reservation, a
    /// chunk `JUNK` of 28 bytes or more before all others, becomes `ds64`, which states the sizes in 64 bits. The
    /// answer is how many frames there are. It keeps its parameters, its frames, its further chunks, its places,
    /// and whether updates are automatic; from then on its data may grow past 4 GiB, and the field that decides
    /// the count lies in one sector. It writes at most 116 bytes, reads none, and takes no memory.
    ///
    /// `Broken` where a call of the disk failed before; then `NoRoom` exactly where the file has no reservation,
    /// as no file of another kind has, and `TrailingData` exactly where it goes on behind its data: these leave
    /// all as it was. `DiskFault` where a call of the disk failed now: from then on the file is broken. Every
    /// byte before the end of the data is as it was then, beside the fields of the head, the first 48 bytes and
    /// the four before the data; and the first 48 are all new, or, beside the fields, as they were.
    ///
    /// Where the file is at rest, a crash at any moment of the call leaves a file that opens, as the WAVE file or
    /// as the RF64 file, with all frames and further chunks. A call that succeeds leaves the file at rest, as the
    /// file that its bytes are now.
    pub fn promote(&mut self) -> Result<u64, PromoteError>
        ensures loan { loan_of self.new ≡ loan_of self.old }
        ensures left { PromoteLeaves (known_of self.old) (known_of self.new) result }
        ensures stands { StandsOn (promote_outcome result) D.state self.old self.new promoted_to }
        ensures chunks { OnOk result (KeepsChunksOn D.state self.old self.new) }
        ensures stable { OnOk result (IsStable D.state D.may_leave (disk_of self.new)) }

        ensures leaves { LeavesSafe D.Disk (promote_outcome result) promoted_to self.old self.new }
        ensures rests { RestsPromoted D.Disk (promote_outcome result) self.old self.new }

        ensures beside { KeepsTurned D.state self.old self.new }
        ensures tells { TellsOn D.state self.old self.new }
        ensures time { GoesOnFrom D.state D.left_between (disk_of self.old) (disk_of self.new) }
        ensures faults { CountsCall (promote_outcome result) D.state self.old self.new }
        ensures written { WritesAtMost D.state 116 (disk_of self.old) (disk_of self.new) }
        ensures asked { AsksNothing D.state self.old self.new }
    {
        if let Some(step) = self.broken {
            return Err(PromoteError::Broken(step));
        }
        if self.layout.reserve.is_none() {
            return Err(PromoteError::NoRoom);
        }
        if self.layout.trailing {
            return Err(PromoteError::TrailingData);
        }
        self.turn()?;
        Ok(self.layout.frames)
    }

    // Turns a file that may be promoted, no call of whose disk has failed. Where one fails now, the file is broken.
    fn turn(&mut self) -> Result<(), Step>
        requires working { (known_of self.old).broken ≡ None }
        requires may { MayTurn (known_of self.old).shape }
        ensures loan { loan_of self.new ≡ loan_of self.old }
        ensures left { MatchResult result (λ _. known_of self.new ≡ known_promoted (known_of self.old)) (IsPromoteFault (known_of self.old) (known_of self.new)) }
        ensures stands { OnOk result (StandsAfter D.state self.old self.new promoted_to) }
        ensures stable { OnOk result (IsStable D.state D.may_leave (disk_of self.new)) }
        ensures leaves { LeavesSafe D.Disk Done promoted_to self.old self.new }

        ensures beside { KeepsTurned D.state self.old self.new }
        ensures tells { TellsOn D.state self.old self.new }
        ensures time { GoesOnFrom D.state D.left_between (disk_of self.old) (disk_of self.new) }
        ensures faults { CountsOn D.state (disk_of self.old) (disk_of self.new) result }
        ensures written { WritesAtMost D.state 116 (disk_of self.old) (disk_of self.new) }
        ensures asked { AsksNothing D.state self.old self.new }
    {
        keeps_rules(&self.layout);
        match promote(self.disk, &mut self.layout) {
            Ok(()) => Ok(()),
            Err(step) => {
                self.broken = Some(step);
                Err(step)
            }
        }
    }
}

//! A chunk that is reserved for 64-bit sizes in the head of a file that is made.

ghost use Rattle.std.specs.Prelude.{◌≡◌, Some, MatchResult, OnOk};
ghost use Rattle.snd_disk.specs.Device.{CountsOn, GoesOnFrom, WritesAtMost};
ghost use Rattle.snd_file.specs.Chunks.{StandsAsOpened};
ghost use Rattle.snd_file.specs.Handle.{StandsAfter, disk_of, known_of, loan_of};
ghost use Rattle.snd_file.specs.Outcomes.{AsksNothing, CountsCall, StandsOn, TellsOn};
ghost use Rattle.snd_reservations.specs.Calls.{MayReserve, ReserveLeaves, reserve_outcome};
ghost use Rattle.snd_reservations.specs.States.{known_reserved, reserved_to};

use crate::handle::File;
use snd_disk::{Disk, Step};
use snd_edits::CanMake;
use snd_frames::keeps_rules;
use snd_reservations::{ReserveError, has_place, lay_ruled};

impl<'d, D: Disk, M: CanMake> File<'d, D, M> {
    /// Reserves a chunk `JUNK` of 28 zeros before all others of a WAVE file, which becomes `ds64` where the file
    /// is promoted (EBU Tech 3306): the head is laid anew with it, and the data begin 36 bytes later. Chunks that
    /// are put afterwards keep it. It writes at most 2048 bytes, reads none, and takes no memory.
    ///
    /// `Broken` where a call of the disk failed before; then `FramesWritten` exactly where a frame was written
    /// through this handle; `AutoOn` exactly where updates are automatic; `NoRoom` exactly where the file is not
    /// a WAVE file, its samples stand in blocks of ADPCM, or it has a further chunk or a reservation: these leave
    /// all as it was. `DiskFault` where a call of the disk failed now: from then on the file is broken, and what
    /// its disk holds is not said.
    pub fn reserve(&mut self) -> Result<(), ReserveError>
        ensures loan { loan_of self.new ≡ loan_of self.old }
        ensures left { ReserveLeaves (known_of self.old) (known_of self.new) result }
        ensures stands { StandsOn (reserve_outcome result) D.state self.old self.new reserved_to }
        ensures begins { OnOk result (StandsAsOpened D.state self.new) }
        ensures tells { TellsOn D.state self.old self.new }
        ensures time { GoesOnFrom D.state D.left_between (disk_of self.old) (disk_of self.new) }
        ensures faults { CountsCall (reserve_outcome result) D.state self.old self.new }
        ensures written { WritesAtMost D.state 2048 (disk_of self.old) (disk_of self.new) }
        ensures asked { AsksNothing D.state self.old self.new }
    {
        if let Some(step) = self.broken {
            return Err(ReserveError::Broken(step));
        }
        if self.written {
            return Err(ReserveError::FramesWritten);
        }
        if self.automatic {
            return Err(ReserveError::AutoOn);
        }
        if !has_place(&self.layout) {
            return Err(ReserveError::NoRoom);
        }
        self.lay_anew()?;
        Ok(())
    }

    // Lays the head anew with a reservation, where nothing speaks against it. Where a call of the disk fails, the
    // file is broken.
    fn lay_anew(&mut self) -> Result<(), Step>
        requires { MayReserve (known_of self.old) }
        ensures loan { loan_of self.new ≡ loan_of self.old }
        ensures left { MatchResult result (λ _. known_of self.new ≡ known_reserved (known_of self.old)) (λ step. known_of self.new ≡ record (known_of self.old) { broken = Some step }) }
        ensures stands { OnOk result (StandsAfter D.state self.old self.new reserved_to) }
        ensures begins { OnOk result (StandsAsOpened D.state self.new) }
        ensures tells { TellsOn D.state self.old self.new }
        ensures time { GoesOnFrom D.state D.left_between (disk_of self.old) (disk_of self.new) }
        ensures faults { CountsOn D.state (disk_of self.old) (disk_of self.new) result }
        ensures written { WritesAtMost D.state 2048 (disk_of self.old) (disk_of self.new) }
        ensures asked { AsksNothing D.state self.old self.new }
    {
        keeps_rules(&self.layout);
        match lay_ruled(self.disk, &mut self.layout) {
            Ok(()) => Ok(()),
            Err(step) => {
                self.broken = Some(step);
                Err(step)
            }
        }
    }
}

//! The calls of an open file that write.

ghost use Rattle.std.specs.Prelude.{◌≡◌, ◌≤◌, None, Some, false, true, MatchResult, OnOk, length};
ghost use Rattle.snd_disk.specs.Device.{CountsOn, GoesOnFrom, IsStable, WritesAtMost};
ghost use Rattle.snd_container.specs.Values.{closed_end};
ghost use Rattle.snd_file.specs.Chunks.{KeepsChunksOn};
ghost use Rattle.snd_edits.specs.Edits.{automatic_to, moved_write_to, sealed_to, state_after, written_to};
ghost use Rattle.snd_edits.specs.Bytes.{AreWhole};
ghost use Rattle.snd_file.specs.Bytes.{sources_of};
ghost use Rattle.snd_frames.specs.Given.{MayBeGiven};
ghost use Rattle.snd_file.specs.Given.{given_to};
ghost use Rattle.snd_file.specs.Handle.{StandsAfter, codec_of, disk_of, known_of, loan_of};
ghost use Rattle.snd_edits.specs.Outcomes.{auto_outcome, update_outcome, write_outcome};
ghost use Rattle.snd_file.specs.Outcomes.{AsksNothing, CountsCall, KeepsBefore, KeepsFrames, StandsOn, TellsOn, WritesFrames};
ghost use Rattle.snd_file.specs.Rest.{ComesToRest, LeavesSafe, SealsSafely, StaysAtRest};
ghost use Rattle.snd_edits.specs.WriteCalls.{AutoLeaves, SeekWriteLeaves, UpdateLeaves, WriteLeaves, known_sealed};

use crate::handle::File;
use snd_disk::{Disk, Step};
use snd_edits::{AutoError, CanSeal, CanWrite, SeekError, UpdateError, WriteError};
use snd_frames::{Given, end_of_write, has_whole_field, keeps_rules, write_over};
use snd_patch::seal;

impl<'d, D: Disk, M: CanWrite> File<'d, D, M> {
    /// Makes a frame the one to write next: from 0 to the number of frames, which is the end. The disk is
    /// not touched. `Broken` where a call of the disk failed before, and then `SeekRange` exactly where
    /// the place is past the end; the place stays.
    pub fn seek_write(&mut self, to: u64) -> Result<(), SeekError>
        ensures loan { loan_of self.new ≡ loan_of self.old }
        ensures same_disk { disk_of self.new ≡ disk_of self.old }
        ensures left { SeekWriteLeaves to (known_of self.old) (known_of self.new) result }
        ensures stands { StandsAfter D.state self.old self.new (state_after (moved_write_to to) result) }
    {
        if let Some(step) = self.broken {
            return Err(SeekError::Broken(step));
        }
        if to > self.layout.frames {
            return Err(SeekError::SeekRange);
        }
        self.write_place = to;
        Ok(())
    }

    /// Writes frames from the one to write next on, over old frames and past the end, and moves the place
    /// behind them. A frame has one number for each channel, in turn. Where the end moves, what closes the
    /// data is put behind it; where updates are automatic, the head is brought up to the frames and all is
    /// made stable. Each further chunk stays. It writes the bytes of the frames and at most 8 more, and 64
    /// more where updates are automatic; it takes no memory.
    ///
    /// `Broken` where a call of the disk failed before; then `PartFrame` exactly where the slice does not
    /// hold whole frames; `SampleRange` exactly where a number is outside the codec's range;
    /// `TrailingData` exactly where the end would move and the file goes on behind its data;
    /// `ContainerFull` exactly where the end would move and the head has no room for the data: these
    /// leave all as it was. `DiskFault` where a call of the disk failed now: from then on the file is
    /// broken; what stands before the place, beside the fields of the head, is as it was.
    ///
    /// Where updates are automatic and the file is at rest, a crash at any moment of the call leaves a file
    /// that opens, with as many frames as before or as the call leads to, and with every frame that the
    /// call does not write. A call that succeeds leaves the file at rest.
    pub fn write_frames(&mut self, from: &[i32]) -> Result<(), WriteError>
        ensures loan { loan_of self.new ≡ loan_of self.old }
        ensures left { WriteLeaves from.now (known_of self.old) (known_of self.new) result }
        ensures stands { StandsOn (write_outcome result) D.state self.old self.new (written_to from.now) }
        ensures chunks { OnOk result (KeepsChunksOn D.state self.old self.new) }
        ensures stable { OnOk result ((known_of self.old).automatic ≡ true → IsStable D.state D.may_leave (disk_of self.new)) }
        ensures leaves { (known_of self.old).automatic ≡ true → LeavesSafe D.Disk (write_outcome result) (written_to from.now) self.old self.new }
        ensures rests { (known_of self.old).automatic ≡ true → StaysAtRest D.Disk (write_outcome result) (written_to from.now) self.old self.new }

        ensures beside { KeepsBefore D.state self.old self.new }
        ensures tells { TellsOn D.state self.old self.new }
        ensures time { GoesOnFrom D.state D.left_between (disk_of self.old) (disk_of self.new) }
        ensures faults { CountsCall (write_outcome result) D.state self.old self.new }
        ensures written { WritesFrames D.state (length from.now) self.old self.new }
        ensures asked { AsksNothing D.state self.old self.new }
    {
        self.write_given(Given::Numbers(from))
    }

    /// Writes frames as `write_frames` does, given as the bytes of their samples. These are always those of
    /// numbers in the codec's range: of the ones that they stand for, but that the second zero of the mu-law
    /// is the byte of -1. The slice holds whole frames.
    pub fn write_bytes(&mut self, from: &[u8]) -> Result<(), WriteError>
        requires { AreWhole (known_of self.old).shape.params (length from.now) }
        ensures loan { loan_of self.new ≡ loan_of self.old }
        ensures left { WriteLeaves (sources_of self.old from.now) (known_of self.old) (known_of self.new) result }
        ensures stands { StandsOn (write_outcome result) D.state self.old self.new (written_to (sources_of self.old from.now)) }
        ensures chunks { OnOk result (KeepsChunksOn D.state self.old self.new) }
        ensures stable { OnOk result ((known_of self.old).automatic ≡ true → IsStable D.state D.may_leave (disk_of self.new)) }
        ensures leaves { (known_of self.old).automatic ≡ true → LeavesSafe D.Disk (write_outcome result) (written_to (sources_of self.old from.now)) self.old self.new }
        ensures rests { (known_of self.old).automatic ≡ true → StaysAtRest D.Disk (write_outcome result) (written_to (sources_of self.old from.now)) self.old self.new }

        ensures beside { KeepsBefore D.state self.old self.new }
        ensures tells { TellsOn D.state self.old self.new }
        ensures time { GoesOnFrom D.state D.left_between (disk_of self.old) (disk_of self.new) }
        ensures faults { CountsCall (write_outcome result) D.state self.old self.new }
        ensures written { WritesFrames D.state (length (sources_of self.old from.now)) self.old self.new }
        ensures asked { AsksNothing D.state self.old self.new }
    {
        self.write_given(Given::Bytes(from))
    }

    // Writes frames, given either way, as `write_frames` says.
    pub(crate) fn write_given(&mut self, from: Given<'_>) -> Result<(), WriteError>
        requires given { MayBeGiven (known_of self.old).shape from }
        ensures loan { loan_of self.new ≡ loan_of self.old }
        ensures left { WriteLeaves (given_to self.old from.entry) (known_of self.old) (known_of self.new) result }
        ensures stands { StandsOn (write_outcome result) D.state self.old self.new (written_to (given_to self.old from.entry)) }
        ensures chunks { OnOk result (KeepsChunksOn D.state self.old self.new) }
        ensures stable { OnOk result ((known_of self.old).automatic ≡ true → IsStable D.state D.may_leave (disk_of self.new)) }
        ensures leaves { (known_of self.old).automatic ≡ true → LeavesSafe D.Disk (write_outcome result) (written_to (given_to self.old from.entry)) self.old self.new }
        ensures rests { (known_of self.old).automatic ≡ true → StaysAtRest D.Disk (write_outcome result) (written_to (given_to self.old from.entry)) self.old self.new }

        ensures beside { KeepsBefore D.state self.old self.new }
        ensures tells { TellsOn D.state self.old self.new }
        ensures time { GoesOnFrom D.state D.left_between (disk_of self.old) (disk_of self.new) }
        ensures faults { CountsCall (write_outcome result) D.state self.old self.new }
        ensures written { WritesFrames D.state (length (given_to self.old from.entry)) self.old self.new }
        ensures asked { AsksNothing D.state self.old self.new }
    {
        if let Some(step) = self.broken {
            return Err(WriteError::Broken(step));
        }
        let place = self.write_place;
        let next = end_of_write(&self.layout, place, from, &mut self.block)?;
        let count = next - place;
        match write_over(
            self.disk,
            &mut self.layout,
            place,
            count,
            from,
            &self.block,
            self.automatic,
        ) {
            Ok(()) => {
                self.write_place = next;
                self.written |= count > 0;
                Ok(())
            }
            Err(step) => {
                self.broken = Some(step);
                Err(WriteError::DiskFault(step))
            }
        }
    }
}

impl<'d, D: Disk, M: CanSeal> File<'d, D, M> {
    /// Brings the head up to the frames, and makes the file stable: what closes the data is put behind it
    /// where it is missing. A file that goes on behind its data is made stable as it is. Each further chunk
    /// stays. The answer is how many frames the head then says. It writes at most 64 bytes and takes no
    /// memory.
    ///
    /// `Broken` where a call of the disk failed before, which leaves all as it was. `DiskFault` where a
    /// call of the disk failed now: from then on the file is broken; what stands before the end of the
    /// data, beside the fields of the head, is as it was.
    ///
    /// Where the file is at rest, a crash at any moment of the call is as harmless as in `write_frames`, and
    /// a call that succeeds leaves the file at rest.
    pub fn update_now(&mut self) -> Result<u64, UpdateError>
        ensures loan { loan_of self.new ≡ loan_of self.old }
        ensures left { UpdateLeaves (known_of self.old) (known_of self.new) result }
        ensures stands { StandsOn (update_outcome result) D.state self.old self.new sealed_to }
        ensures chunks { OnOk result (KeepsChunksOn D.state self.old self.new) }
        ensures stable { OnOk result (IsStable D.state D.may_leave (disk_of self.new)) }

        ensures leaves { LeavesSafe D.Disk (update_outcome result) sealed_to self.old self.new }
        ensures rests { StaysAtRest D.Disk (update_outcome result) sealed_to self.old self.new }

        ensures beside { KeepsFrames D.state self.old self.new }
        ensures tells { TellsOn D.state self.old self.new }
        ensures time { GoesOnFrom D.state D.left_between (disk_of self.old) (disk_of self.new) }
        ensures faults { CountsCall (update_outcome result) D.state self.old self.new }
        ensures written { WritesAtMost D.state 64 (disk_of self.old) (disk_of self.new) }
        ensures asked { AsksNothing D.state self.old self.new }
    {
        if let Some(step) = self.broken {
            return Err(UpdateError::Broken(step));
        }
        self.seal_file()?;
        Ok(self.layout.frames)
    }

    /// Seals the file as `update_now` does, and from then on each write does so, or none does. The answer
    /// is how many frames the head then says. It writes at most 64 bytes and takes no memory.
    ///
    /// `Broken` where a call of the disk failed before; then `Straddle` exactly where updates are to be
    /// automatic and the field that decides the count does not lie in one sector of 512 bytes: these leave
    /// all as it was. `DiskFault` as in `update_now`.
    ///
    /// A file is at rest where a crash leaves its bytes alone, these say what the handle knows, all declared
    /// data are there, and the field that decides the count lies in one sector. Switched on, this call brings
    /// a file to rest; where it is so already, a crash at any moment of the call is as harmless as in
    /// `write_frames`.
    pub fn set_auto(&mut self, on: bool) -> Result<u64, AutoError>
        ensures loan { loan_of self.new ≡ loan_of self.old }
        ensures left { AutoLeaves on (known_of self.old) (known_of self.new) result }
        ensures stands { StandsOn (auto_outcome result) D.state self.old self.new (automatic_to on) }
        ensures chunks { OnOk result (KeepsChunksOn D.state self.old self.new) }
        ensures stable { OnOk result (IsStable D.state D.may_leave (disk_of self.new)) }

        ensures leaves { LeavesSafe D.Disk (auto_outcome result) (automatic_to on) self.old self.new }
        ensures rests { StaysAtRest D.Disk (auto_outcome result) (automatic_to on) self.old self.new }
        ensures begins { OnOk result (on ≡ true → ComesToRest D.Disk (automatic_to on) self.old self.new) }

        ensures beside { KeepsFrames D.state self.old self.new }
        ensures tells { TellsOn D.state self.old self.new }
        ensures time { GoesOnFrom D.state D.left_between (disk_of self.old) (disk_of self.new) }
        ensures faults { CountsCall (auto_outcome result) D.state self.old self.new }
        ensures written { WritesAtMost D.state 64 (disk_of self.old) (disk_of self.new) }
        ensures asked { AsksNothing D.state self.old self.new }
    {
        if let Some(step) = self.broken {
            return Err(AutoError::Broken(step));
        }
        if on && !has_whole_field(&self.layout) {
            return Err(AutoError::Straddle);
        }
        self.seal_file()?;
        self.automatic = on;
        Ok(self.layout.frames)
    }

    // Seals the file, no call of whose disk has failed. Where one fails now, the file is broken.
    pub(crate) fn seal_file(&mut self) -> Result<(), Step>
        requires { (known_of self.old).broken ≡ None }
        ensures loan { loan_of self.new ≡ loan_of self.old }
        ensures left { MatchResult result (λ _. known_of self.new ≡ known_sealed (known_of self.old)) (λ step. known_of self.new ≡ record (known_of self.old) { broken = Some step }) }
        ensures stands { OnOk result (StandsAfter D.state self.old self.new sealed_to) }
        ensures closed { OnOk result ((known_of self.old).shape.trailing ≡ false → closed_end (known_of self.new).shape (known_of self.new).shape.frames ≤ (D.state (disk_of self.new)).size) }
        ensures stable { OnOk result (IsStable D.state D.may_leave (disk_of self.new)) }

        ensures leaves { SealsSafely D.Disk self.old self.new }

        ensures beside { KeepsFrames D.state self.old self.new }
        ensures tells { TellsOn D.state self.old self.new }
        ensures time { GoesOnFrom D.state D.left_between (disk_of self.old) (disk_of self.new) }
        ensures faults { CountsOn D.state (disk_of self.old) (disk_of self.new) result }
        ensures written { WritesAtMost D.state 64 (disk_of self.old) (disk_of self.new) }
        ensures asked { AsksNothing D.state self.old self.new }
    {
        keeps_rules(&self.layout);
        match seal(self.disk, &mut self.layout) {
            Ok(()) => Ok(()),
            Err(step) => {
                self.broken = Some(step);
                Err(step)
            }
        }
    }
}

//! Files of ADPCM that are made: the frames that are given to them.

ghost use Rattle.std.specs.Prelude.{◌≡◌, ◌-◌, OnOk, length, true};
ghost use Rattle.snd_disk.specs.Device.{GoesOnFrom, IsStable};
ghost use Rattle.snd_edits.specs.Encoding.{EncodeLeaves, encoded_to};
ghost use Rattle.snd_file.specs.Encoding.{EncodesOn, WritesBlocks};
ghost use Rattle.snd_file.specs.Handle.{disk_of, known_of, loan_of};
ghost use Rattle.snd_edits.specs.Outcomes.{write_outcome};
ghost use Rattle.snd_file.specs.Outcomes.{AsksNothing, CountsCall, KeepsFrames, TellsOn};
ghost use Rattle.snd_file.specs.Rest.{LeavesSafe, StaysAtRest};

use crate::handle::File;
use snd_disk::Disk;
use snd_edits::{Encode, WriteError};
use snd_frames::{end_of_encode, give_writer};

impl<'d, D: Disk> File<'d, D, Encode> {
    /// How many frames the file was given: those on its disk, and those that wait for their block.
    pub fn frames_given(&self) -> u64
        ensures { result ≡ (known_of self.now).write_place }
    {
        self.write_place
    }

    /// Writes frames behind those that were written before. A frame has one number of 16 bits for each
    /// channel, in turn. Blocks reach the disk whole: the numbers of the last one wait until it is, or until
    /// the file is closed. Where updates are automatic, the file is sealed with the frames of its whole
    /// blocks. It writes the bytes of the blocks that as many frames fill, of one more, and 64 more where
    /// updates are automatic; it takes no memory.
    ///
    /// `Broken` where a call of the disk failed before; then `PartFrame` exactly where the slice does not
    /// hold whole frames; `SampleRange` exactly where a number does not have 16 bits; `ContainerFull` exactly
    /// where there is a frame and the head has no room for the data, or the count of a WAVE file for the
    /// number of the frames: these leave all as it was. `DiskFault` where a call of the disk failed now: from
    /// then on the file is broken; the frames on its disk are as they were.
    ///
    /// Where updates are automatic and the file is at rest, a crash at any moment of the call leaves a file
    /// that opens, with the frames of the whole blocks of before or of those that the call leads to. A call
    /// that succeeds leaves the file at rest.
    pub fn encode_frames(&mut self, from: &[i32]) -> Result<(), WriteError>
        ensures loan { loan_of self.new ≡ loan_of self.old }
        ensures left { EncodeLeaves from.now (known_of self.old) (known_of self.new) result }
        ensures stands { EncodesOn (write_outcome result) D.state self.old self.new (encoded_to from.now) }
        ensures stable { OnOk result ((known_of self.old).automatic ≡ true → IsStable D.state D.may_leave (disk_of self.new)) }
        ensures leaves { (known_of self.old).automatic ≡ true → LeavesSafe D.Disk (write_outcome result) (encoded_to from.now) self.old self.new }
        ensures rests { (known_of self.old).automatic ≡ true → StaysAtRest D.Disk (write_outcome result) (encoded_to from.now) self.old self.new }

        ensures beside { KeepsFrames D.state self.old self.new }
        ensures tells { TellsOn D.state self.old self.new }
        ensures time { GoesOnFrom D.state D.left_between (disk_of self.old) (disk_of self.new) }
        ensures faults { CountsCall (write_outcome result) D.state self.old self.new }
        ensures written { WritesBlocks D.state (length from.now) self.old self.new }
        ensures asked { AsksNothing D.state self.old self.new }
    {
        if let Some(step) = self.broken {
            return Err(WriteError::Broken(step));
        }
        let place = self.write_place;
        let next = end_of_encode(&self.layout, place, from, &mut self.block)?;
        match give_writer(
            self.disk,
            &mut self.layout,
            &mut self.writer,
            next,
            from,
            self.automatic,
        ) {
            Ok(()) => {
                self.write_place = next;
                self.written = true;
                Ok(())
            }
            Err(step) => {
                self.broken = Some(step);
                Err(WriteError::DiskFault(step))
            }
        }
    }
}

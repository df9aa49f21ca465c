//! The calls of an open file.

ghost use Rattle.std.specs.Prelude.{◌≡◌, true, false, IfOk, OnOk, length};
ghost use Rattle.snd_disk.specs.Device.{AsksAtMost, GoesOnFrom, IsStable, OnlyReadsOn, WritesAtMost};
ghost use Rattle.snd_blocks.specs.Frames.{has_bad};
ghost use Rattle.snd_layout.specs.Blocks.{is_adpcm};
ghost use Rattle.snd_layout.specs.Params.{data_bytes};
ghost use Rattle.snd_layout.specs.Shape.{KeepsRule, end};
ghost use Rattle.snd_patch.specs.Steps.{KeepsBeside, StillTells};
ghost use Rattle.snd_edits.specs.Bytes.{AreWhole};
ghost use Rattle.snd_file.specs.Bytes.{bytes_behind, numbers_of};
ghost use Rattle.snd_edits.specs.Calls.{CheckLeaves, ReadLeaves, SeekLeaves, count_read};
ghost use Rattle.snd_file.specs.Calls.{AsksForFrames, CountsReading};
ghost use Rattle.snd_file.specs.Chunks.{GivesChunksBack};
ghost use Rattle.snd_edits.specs.Closing.{most_closed};
ghost use Rattle.snd_file.specs.Closing.{ClosesFile, IsCloseCause};
ghost use Rattle.snd_edits.specs.Editing.{frames_read, state_read, state_sought};
ghost use Rattle.snd_file.specs.Handle.{IfOkStanding, StandsAfter, channels_of, codec_of, disk_of, known_of, loan_of};
ghost use Rattle.snd_file.specs.Loans.{disk_back, loan_back};
ghost use Rattle.snd_edits.specs.Reading.{FitCodec, GivesFrames};
ghost use Rattle.snd_file.specs.Reading.{FindsBad, front_of, rest_of};
ghost use Rattle.snd_file.specs.Rest.{ClosesSafely};

use crate::handle::File;
use snd_blocks::BlockError;
use snd_disk::Disk;
use snd_edits::{CanRead, DiskFault, Mode, ReadError, SeekError};
use snd_frames::{align_of, channels_of, check_any, frames_ahead, read_any, read_raw, seal_writer};
use snd_layout::{Kind, Params};
use snd_patch::{data_end, seal};

impl<'d, D: Disk, M: Mode> File<'d, D, M> {
    /// How many frames the file holds.
    pub fn frames(&self) -> u64
        ensures { result ≡ (known_of self.now).shape.frames }
    {
        self.layout.frames
    }

    /// The parameters of its sound.
    pub fn params(&self) -> Params
        ensures { result ≡ (known_of self.now).shape.params }
    {
        self.layout.params
    }

    /// The place in the file behind the data of its frames.
    pub fn data_end(&self) -> u64
        ensures { result ≡ end (known_of self.now).shape (known_of self.now).shape.frames }
    {
        self.layout.keeps_rule();
        data_end(&self.layout, self.layout.frames)
    }

    /// The container that the file is.
    pub fn kind(&self) -> Kind
        ensures { result ≡ (known_of self.now).shape.kind }
    {
        self.layout.kind
    }

    /// What holds of what every open file says of itself, whatever stands on its disk.
    pub fn keeps_rule(&self)
        ensures { KeepsRule (known_of self.now).shape }
    {
        self.layout.keeps_rule();
    }

    /// Gives the disk back. In a mode that writes, the file is sealed first, as `update_now` does; else the
    /// disk is as it was. In a file of ADPCM that is made the frames that wait are written before that, as a
    /// block that zeros fill. It writes at most 64 bytes, and one such block, and takes no memory.
    ///
    /// The answer is the step at which the disk failed, where it did: before, and then nothing is done; or
    /// now, in a mode that writes.
    ///
    /// Where the file is at rest, as `File::set_auto` says, a crash at any moment of the call leaves a file
    /// that opens with all its frames.
    pub fn close(self) -> Result<&'d mut D, (DiskFault, &'d mut D)>
        ensures lends { loan_back result ≡ loan_of self.entry }
        ensures back { ClosesFile M.WRITES D.state self.entry result }
        ensures chunks { M.WRITES ≡ true → OnOk result (GivesChunksBack D.state self.entry (disk_back result)) }
        ensures cause { IsCloseCause M.WRITES D.state self.entry result }
        ensures stable { M.WRITES ≡ true → OnOk result (IsStable D.state D.may_leave (disk_back result)) }

        ensures leaves { M.WRITES ≡ true → ClosesSafely D.Disk self.entry result }

        ensures beside { KeepsBeside D.state (known_of self.entry).shape (known_of self.entry).shape.frames (disk_of self.entry) (disk_back result) }
        ensures tells { StillTells (D.state (disk_of self.entry)) (D.state (disk_back result)) }
        ensures time { GoesOnFrom D.state D.left_between (disk_of self.entry) (disk_back result) }
        ensures written { WritesAtMost D.state (most_closed M.ENCODES (known_of self.entry).shape.params) (disk_of self.entry) (disk_back result) }
        ensures asked { (D.state (disk_back result)).asked ≡ (D.state (disk_of self.entry)).asked }
    {
        let File {
            disk,
            mut layout,
            read_place: _,
            write_place,
            automatic: _,
            written: _,
            broken,
            block: _,
            cache: _,
            mut writer,
            mode: _,
        } = self;
        if let Some(step) = broken {
            return Err((DiskFault(step), disk));
        }
        if !M::WRITES {
            return Ok(disk);
        }
        layout.keeps_rule();
        if writer.is_some() {
            if let Err(step) = seal_writer(disk, &mut layout, &mut writer, write_place) {
                return Err((DiskFault(step), disk));
            }
            return Ok(disk);
        }
        match seal(disk, &mut layout) {
            Ok(()) => Ok(disk),
            Err(step) => Err((DiskFault(step), disk)),
        }
    }
}

impl<'d, D: Disk, M: CanRead> File<'d, D, M> {
    /// Reads frames, from the one to read next on: as many as the slice has places for, fewer only at the
    /// end. A frame has one number for each channel, in turn, each in the range of the codec. The answer is
    /// how many frames were read; the place moves by that number, and the rest of the slice stays.
    ///
    /// `Broken` where a call of the disk failed before; then `PartFrame` exactly where the slice does not
    /// have places for whole frames, and `BadBlock` exactly where the block of one of the wanted frames has a
    /// bad head, in ADPCM; these leave all as it was, but for the slice after `BadBlock`. `DiskFault` where a
    /// call of the disk failed now: the place stays, and from then on the file is broken.
    pub fn read_frames(&mut self, into: &mut [i32]) -> Result<usize, ReadError>
        ensures loan { loan_of self.new ≡ loan_of self.old }
        ensures left { ReadLeaves (length into.old) (known_of self.old) (known_of self.new) result }
        ensures read { IfOkStanding D.state self.old result (GivesFrames (channels_of self.old) into.new) }
        ensures bad { FindsBad D.state (λ e. frames_read e (count_read (length into.old) (known_of self.old))) self.old result }
        ensures in_range { IfOk result (λ k. FitCodec (codec_of self.old) (front_of self.old k into.new)) }
        ensures rest { IfOk result (λ k. rest_of self.old k into.new ≡ rest_of self.old k into.old) }
        ensures stands { StandsAfter D.state self.old self.new (state_read result) }
        ensures faults { CountsReading D.state (disk_of self.old) (disk_of self.new) result }
        ensures reads { OnlyReadsOn D.state D.may_leave D.left_between (disk_of self.old) (disk_of self.new) }
        ensures asked { AsksForFrames D.state (length into.old) self.old self.new }
    {
        if let Some(step) = self.broken {
            return Err(ReadError::Broken(step));
        }
        let channels = channels_of(&self.layout);
        if !into.len().is_multiple_of(channels) {
            return Err(ReadError::PartFrame);
        }
        let count = frames_ahead(&self.layout, self.read_place, into.len() / channels);
        let wanted = &mut into[..count * channels];
        match read_any(
            self.disk,
            &self.layout,
            self.read_place,
            count,
            wanted,
            &mut self.block,
            &mut self.cache,
        ) {
            Ok(()) => {
                self.read_place += count as u64;
                Ok(count)
            }
            Err(BlockError::BadBlock) => Err(ReadError::BadBlock),
            Err(BlockError::DiskFault(step)) => {
                self.broken = Some(step);
                Err(ReadError::DiskFault(step))
            }
        }
    }

    /// Reads frames as `read_frames` does, as the bytes of their samples, where each sample of the codec has
    /// bytes of its own. The slice has places for whole frames, and is full but for the end of the file: what
    /// stands behind the frames that were read stays.
    ///
    /// `Broken` where a call of the disk failed before, which leaves all as it was. `DiskFault` where a call of
    /// the disk failed now: the place stays, and from then on the file is broken. There is no other error.
    pub fn read_bytes(&mut self, into: &mut [u8]) -> Result<usize, ReadError>
        requires fixed { is_adpcm (codec_of self.old) ≡ false }
        requires whole { AreWhole (known_of self.old).shape.params (length into.old) }
        ensures loan { loan_of self.new ≡ loan_of self.old }
        ensures left { ReadLeaves (length (numbers_of self.old into.old)) (known_of self.old) (known_of self.new) result }
        ensures read { IfOkStanding D.state self.old result (GivesFrames (channels_of self.old) (numbers_of self.old into.new)) }
        ensures rest { IfOk result (λ k. bytes_behind self.old k into.new ≡ bytes_behind self.old k into.old) }
        ensures stands { StandsAfter D.state self.old self.new (state_read result) }
        ensures faults { CountsReading D.state (disk_of self.old) (disk_of self.new) result }
        ensures reads { OnlyReadsOn D.state D.may_leave D.left_between (disk_of self.old) (disk_of self.new) }
        ensures asked { AsksForFrames D.state (length (numbers_of self.old into.old)) self.old self.new }
    {
        if let Some(step) = self.broken {
            return Err(ReadError::Broken(step));
        }
        let align = align_of(&self.layout);
        let count = frames_ahead(&self.layout, self.read_place, into.len() / align);
        let wanted = &mut into[..count * align];
        match read_raw(self.disk, &self.layout, self.read_place, count, wanted) {
            Ok(()) => {
                self.read_place += count as u64;
                Ok(count)
            }
            Err(step) => {
                self.broken = Some(step);
                Err(ReadError::DiskFault(step))
            }
        }
    }

    /// Reads all blocks of an ADPCM file that have counted frames, whatever the frame to read next. Of a file
    /// of another codec nothing is read. It takes no memory.
    ///
    /// `Broken` where a call of the disk failed before; then `BadBlock` exactly where one of the blocks has a
    /// bad head: these leave all as it was. `DiskFault` where a call of the disk failed first: from then on the
    /// file is broken.
    pub fn check_blocks(&mut self) -> Result<(), ReadError>
        ensures loan { loan_of self.new ≡ loan_of self.old }
        ensures left { CheckLeaves (known_of self.old) (known_of self.new) result }
        ensures good { IfOkStanding D.state self.old result (λ e _. has_bad e.frames ≡ false) }
        ensures bad { FindsBad D.state (λ e. e.frames) self.old result }
        ensures stands { StandsAfter D.state self.old self.new (λ e. e) }
        ensures faults { CountsReading D.state (disk_of self.old) (disk_of self.new) result }
        ensures reads { OnlyReadsOn D.state D.may_leave D.left_between (disk_of self.old) (disk_of self.new) }
        ensures asked { AsksAtMost D.state (data_bytes (known_of self.old).shape.params (known_of self.old).shape.frames) (disk_of self.old) (disk_of self.new) }
    {
        if let Some(step) = self.broken {
            return Err(ReadError::Broken(step));
        }
        match check_any(self.disk, &self.layout) {
            Ok(()) => Ok(()),
            Err(BlockError::BadBlock) => Err(ReadError::BadBlock),
            Err(BlockError::DiskFault(step)) => {
                self.broken = Some(step);
                Err(ReadError::DiskFault(step))
            }
        }
    }

    /// Makes a frame the one to read next: from 0 to the number of frames, which is the end. The disk is
    /// not touched. `Broken` where a call of the disk failed before, and then `SeekRange` exactly where
    /// the place is past the end; the place stays.
    pub fn seek_read(&mut self, to: u64) -> Result<(), SeekError>
        ensures loan { loan_of self.new ≡ loan_of self.old }
        ensures same_disk { disk_of self.new ≡ disk_of self.old }
        ensures left { SeekLeaves to (known_of self.old) (known_of self.new) result }
        ensures stands { StandsAfter D.state self.old self.new (state_sought to result) }
    {
        if let Some(step) = self.broken {
            return Err(SeekError::Broken(step));
        }
        if to > self.layout.frames {
            return Err(SeekError::SeekRange);
        }
        self.read_place = to;
        Ok(())
    }
}

ghost use Rattle.std.specs.Prelude.{◌≡◌, ◌+◌, ◌<◌, ◌≤◌, ◌^◌, Some, IfOk, IsErr};
ghost use Rattle.std.specs.String.{string_bytes};
ghost use Rattle.snd_disk.specs.State.{Rises};

use crate::regular_file::RegularFile;
use snd_disk::{Disk, Failed};
use std::io;

/// A real file. It keeps the length that it had when it was opened, and changes that with its own
/// writes and cuts; a read that gets fewer bytes than the length promises is a fault. Reads and
/// writes are positioned, and go on after a short or an interrupted one. A file that was there is
/// open for reading alone until the first write or cut opens it again, for both: where that is not
/// permitted, or another file has its name by then, the call is a fault.
#[derive(Drop)]
pub struct FileDisk {
    rt: HostRuntime,
    file: RegularFile,
    name: String,
    size: u64,
    faults: u64,
    written: u64,
    asked: u64,
    ghost fits: { size < 2 ^ 63 },
}

impl FileDisk {
    ghost use Rattle.snd_files.specs.File.{file_state};

    /// An open file, as a disk of this name, under which it is opened again.
    pub(crate) fn new(rt: HostRuntime, file: RegularFile, name: String) -> io::Result<FileDisk>
        ensures name { IfOk result (λ d. (file_state d).name ≡ Some (string_bytes name)) }
        ensures fresh { IfOk result (λ d. ((file_state d).faults ≡ 0) × ((file_state d).written ≡ 0) × ((file_state d).asked ≡ 0)) }
    {
        let size = file.len()?;
        Ok(FileDisk {
            rt,
            file,
            name,
            size,
            faults: 0,
            written: 0,
            asked: 0,
        })
    }

    /// The counts of faults, of bytes written and of bytes asked.
    pub(crate) fn counts(&self) -> (u64, u64, u64)
        ensures { result ≡ ((file_state self.now).faults, (file_state self.now).written, (file_state self.now).asked) }
    {
        (self.faults, self.written, self.asked)
    }

    /// Counts a fault.
    fn fail<T>(&mut self) -> Result<T, Failed>
        ensures state { self.new ≡ record self.old { faults = self.new.faults } }
        ensures rises { Rises self.old.faults self.new.faults }
        ensures later { self.old.faults ≤ self.new.faults }
        ensures failed { IsErr result }
    {
        self.faults = self.faults.saturating_add(1);
        Err(Failed)
    }

    /// Puts bytes at a place. A write of no bytes would not lengthen the file.
    fn put(&mut self, at: u64, from: &[u8]) -> io::Result<()>
        ensures { self.new ≡ record self.old { file = self.new.file } }
    {
        self.file.allow_writing(&self.rt, self.name.as_str())?;
        if from.is_empty() && at > self.size {
            return self.file.set_len(at);
        }
        self.file.write(at, from)
    }

    /// Sets the length of the file.
    fn set_len(&mut self, len: u64) -> io::Result<()>
        ensures { self.new ≡ record self.old { file = self.new.file } }
    {
        self.file.allow_writing(&self.rt, self.name.as_str())?;
        self.file.set_len(len)
    }
}

impl Disk for FileDisk {
    ghost use Rattle.snd_files.specs.File.{file_state, file_left, file_between, file_told, file_fits, file_is_left, file_counts_now, file_only_now, file_none_to_come, file_splits};

    ghost state = { file_state };

    ghost may_leave = { file_left };

    ghost left_between = { file_between };

    ghost size_told = { file_told };

    ghost size_fits = { file_fits };

    ghost is_left = { file_is_left };

    ghost counts_now = { file_counts_now };

    ghost only_now = { file_only_now };

    ghost none_to_come = { file_none_to_come };

    ghost splits = { file_splits };

    fn len(&mut self) -> Result<u64, Failed> {
        Ok(self.size)
    }

    fn read_at(&mut self, at: u64, into: &mut [u8]) -> Result<usize, Failed> {
        self.asked = self.asked.saturating_add(into.len() as u64);
        if at >= self.size {
            return Ok(0);
        }
        let left = self.size - at;
        let count = into.len().min(left as usize);
        match self.file.read(at, &mut into[..count]) {
            Ok(()) => Ok(count),
            Err(_) => self.fail(),
        }
    }

    fn write_at(&mut self, at: u64, from: &[u8]) -> Result<(), Failed> {
        self.written = self.written.saturating_add(from.len() as u64);
        match self.put(at, from) {
            Ok(()) => {
                self.size = self.size.max(at + from.len() as u64);
                Ok(())
            }
            Err(_) => self.fail(),
        }
    }

    fn cut(&mut self, len: u64) -> Result<(), Failed> {
        match self.set_len(len) {
            Ok(()) => {
                self.size = len;
                Ok(())
            }
            Err(_) => self.fail(),
        }
    }

    fn sync(&mut self) -> Result<(), Failed> {
        match self.file.sync() {
            Ok(()) => Ok(()),
            Err(_) => self.fail(),
        }
    }
}

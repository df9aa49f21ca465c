ghost use Rattle.std.specs.Prelude.{◌≡◌, ◌<◌, ◌^◌, ◌<ℤ◌, pos, IfOk};
ghost use Rattle.std.specs.Fd.{file_raw_fd};

use std::fs::{self, File, Metadata, OpenOptions};
use std::io;
use std::os::fd::AsRawFd;
use std::os::unix::fs::{FileExt, MetadataExt};
use std::path::Path;

/// The number of standard error, the last of the standard streams.
const LAST_STREAM: i32 = 2;

/// Keeps the numbers 0 to 2, which are the standard streams', from every file: the system would give
/// the number of a stream that is closed to the next file. A folder that is open for reading stands
/// under each until the answer is dropped, and a use of it as a stream fails. Where one cannot be
/// opened, a `RegularFile` is refused that number all the same.
pub fn keep_stream_numbers(rt: &HostRuntime) -> Vec<File> {
    let mut kept = Vec::new(rt.alloc());
    for _ in 0..=LAST_STREAM {
        let Ok(folder) = File::open(rt, "/") else {
            break;
        };
        if folder.as_raw_fd() > LAST_STREAM || kept.push(folder).is_err() {
            break;
        }
    }
    kept
}

/// The device that a file lies on, and its number there.
#[derive(Clone, Copy, Debug, PartialEq, Eq)]
pub struct Identity {
    device: u64,
    number: u64,
}

impl Identity {
    fn of(data: &Metadata) -> Identity {
        Identity {
            device: data.dev(),
            number: data.ino(),
        }
    }
}

/// A regular file that is open for reading, or for both, and has no standard stream's number.
#[derive(Drop)]
pub struct RegularFile {
    file: File,
    identity: Identity,
    may_write: bool,
    ghost apart: { pos 2 <ℤ file_raw_fd file },
}

impl RegularFile {
    fn new(file: File, may_write: bool) -> io::Result<RegularFile> {
        let data = file.metadata()?;
        if !data.is_file() || file.as_raw_fd() <= LAST_STREAM {
            return Err(io::ErrorKind::InvalidInput.into());
        }
        Ok(RegularFile {
            file,
            identity: Identity::of(&data),
            may_write,
        })
    }

    /// Opens a file for reading alone.
    pub fn open(rt: &HostRuntime, name: &str) -> io::Result<RegularFile> {
        RegularFile::new(File::open(rt, name)?, false)
    }

    /// Makes a file, and syncs the folder, so that the name survives a power cut.
    pub fn make(rt: &HostRuntime, name: &str) -> io::Result<RegularFile> {
        let made = RegularFile::new(File::create_new(rt, name)?, true)?;
        let folder = match Path::new(name).parent() {
            Some(parent) if !parent.as_str().is_empty() => parent.as_str(),
            _ => ".",
        };
        fs::open(rt, folder)?.sync_all()?;
        Ok(made)
    }

    /// Opens the file again, for reading and writing, unless it is so already. Nothing but the very
    /// file is opened: another one that has come under its name meanwhile is an error.
    pub fn allow_writing(&mut self, rt: &HostRuntime, name: &str) -> io::Result<()> {
        if self.may_write {
            return Ok(());
        }
        if Identity::of(&fs::metadata(rt, name)?) != self.identity {
            return Err(io::ErrorKind::NotFound.into());
        }
        let file = OpenOptions::new().read(true).write(true).open(rt, name)?;
        let again = RegularFile::new(file, true)?;
        if again.identity != self.identity {
            return Err(io::ErrorKind::NotFound.into());
        }
        *self = again;
        Ok(())
    }

    pub fn identity(&self) -> Identity {
        self.identity
    }

    /// The length in bytes, where it is below 2^63.
    pub fn len(&self) -> io::Result<u64>
        ensures { IfOk result (λ n. n < 2 ^ 63) }
    {
        let size = self.file.metadata()?.len();
        if size >= 1 << 63 {
            return Err(io::ErrorKind::InvalidData.into());
        }
        Ok(size)
    }

    /// Fills a slice with what stands from a place on.
    pub fn read(&self, at: u64, into: &mut [u8]) -> io::Result<()> {
        self.file.read_exact_at(into, at)
    }

    /// Puts bytes at a place.
    pub fn write(&self, at: u64, from: &[u8]) -> io::Result<()> {
        self.file.write_all_at(from, at)
    }

    /// Sets the length.
    pub fn set_len(&self, len: u64) -> io::Result<()> {
        self.file.set_len(len)
    }

    /// Makes the contents stable, with the length.
    pub fn sync(&self) -> io::Result<()> {
        self.file.sync_all()
    }
}

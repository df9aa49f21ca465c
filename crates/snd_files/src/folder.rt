ghost use Rattle.std.specs.Prelude.{◌≡◌, List, ℕ, true, false, OnErr, IsErrOf, Err, filter, not, if◌then◌else◌};
ghost use Rattle.std.specs.String.{string_bytes};
ghost use Rattle.std.specs.Str.{bytes_eq};

use crate::FileDisk;
use crate::regular_file::{Identity, RegularFile, keep_stream_numbers};
use snd_disk::{Shelf, ShelfFault};
use std::fs::{self, File};
use std::io;

/// A file that is taken out: its name, and what it is under any name.
#[derive(Drop)]
pub struct Taken {
    name: String,
    file: Identity,
}

/// The regular files below the current folder. A folder, a pipe or a device is a fault, and so is
/// another spelling of a file that is taken out. While the shelf lives, the numbers of standard
/// streams that are closed are kept from every file, and a use of such a stream fails.
#[derive(Drop)]
pub struct FolderShelf {
    rt: HostRuntime,
    stream_numbers: Vec<File>,
    taken: Vec<Taken>,
    faults: u64,
    written: u64,
    asked: u64,
}

fn is_not_there(error: &io::Error) -> bool {
    matches!(
        error.kind(),
        io::ErrorKind::NotFound | io::ErrorKind::NotADirectory
    )
}

/// The open file of this name, which is looked at first: opening a pipe could wait for ever.
fn opened(rt: &HostRuntime, name: &str, make: bool) -> Result<RegularFile, ShelfFault>
    ensures { IsErrOf result ShelfFault.Missing → make ≡ false }
{
    let found = match fs::metadata(rt, name) {
        Ok(data) if data.is_file() => RegularFile::open(rt, name),
        Err(error) if is_not_there(&error) => {
            if !make {
                return Err(ShelfFault::Missing);
            }
            RegularFile::make(rt, name)
        }
        _ => return Err(ShelfFault::Failed),
    };
    found.map_err(|_| ShelfFault::Failed)
}

/// Without the files that are taken out under this name.
fn without(taken: &mut Vec<Taken>, name: &str)
    ensures { taken.new.items ≡ filter (λ t. not (bytes_eq (string_bytes t.name) name.now)) taken.old.items }
{
    taken.retain(|t| t.name.as_str() != name);
}

impl FolderShelf {
    ghost use Rattle.std.specs.Prelude.{◌≤◌, OnOk};
    ghost use Rattle.snd_disk.specs.State.{Rises};
    ghost use Rattle.snd_files.specs.Folder.{folder_state};

    /// A shelf on the current folder, with no name taken out.
    pub fn new(rt: HostRuntime) -> FolderShelf
        ensures { (n : List ℕ) → (folder_state result).out n ≡ false }
    {
        FolderShelf {
            rt,
            stream_numbers: keep_stream_numbers(&rt),
            taken: Vec::new(rt.alloc()),
            faults: 0,
            written: 0,
            asked: 0,
        }
    }

    /// Counts a fault.
    fn fail<T>(&mut self) -> Result<T, ShelfFault>
        ensures state { self.new ≡ record self.old { faults = self.new.faults } }
        ensures rises { Rises self.old.faults self.new.faults }
        ensures later { self.old.faults ≤ self.new.faults }
        ensures failed { IsErrOf result ShelfFault.Failed }
    {
        self.faults = self.faults.saturating_add(1);
        Err(ShelfFault::Failed)
    }

    /// Notes a name as taken out.
    fn note(&mut self, name: String, file: Identity) -> Result<(), ShelfFault>
        ensures ok { OnOk result ((n : List ℕ) → (folder_state self.new).out n ≡ (if bytes_eq n (string_bytes name) then true else (folder_state self.old).out n)) }
        ensures err { OnErr result (result ≡ Err ShelfFault.Memory) }
        ensures same { OnErr result (self.new.taken.items ≡ self.old.taken.items) }
        ensures rest { self.new ≡ record self.old { taken = self.new.taken } }
    {
        let Ok(()) = self.taken.push(Taken { name, file }) else {
            return Err(ShelfFault::Memory);
        };
        Ok(())
    }
}

impl Shelf for FolderShelf {
    type Disk = FileDisk;

    ghost use Rattle.snd_files.specs.Folder.{folder_state, folder_left, folder_between, folder_is_left, folder_counts_now, folder_only_now, folder_none_to_come, folder_splits, folder_file_fits};

    ghost state = { folder_state };

    ghost may_leave = { folder_left };

    ghost left_between = { folder_between };

    ghost is_left = { folder_is_left };

    ghost counts_now = { folder_counts_now };

    ghost only_now = { folder_only_now };

    ghost none_to_come = { folder_none_to_come };

    ghost splits = { folder_splits };

    ghost file_fits = { folder_file_fits };

    fn take(&mut self, name: &str, make: bool) -> Result<FileDisk, ShelfFault> {
        let alloc = self.rt.alloc();
        let (Ok(key), Ok(given)) = (String::from_str(alloc, name), String::from_str(alloc, name))
        else {
            return Err(ShelfFault::Memory);
        };
        let file = match opened(&self.rt, name, make) {
            Ok(file) => file,
            Err(ShelfFault::Missing) => return Err(ShelfFault::Missing),
            Err(_) => return self.fail(),
        };
        let identity = file.identity();
        if self.taken.iter().any(|t| t.file == identity) {
            return self.fail();
        }
        match FileDisk::new(self.rt, file, given) {
            Ok(disk) => {
                self.note(key, identity)?;
                Ok(disk)
            }
            Err(_) => self.fail(),
        }
    }

    fn give(&mut self, name: &str, disk: FileDisk) {
        let (faults, written, asked) = disk.counts();
        self.faults = self.faults.saturating_add(faults);
        self.written = self.written.saturating_add(written);
        self.asked = self.asked.saturating_add(asked);
        without(&mut self.taken, name);
    }
}

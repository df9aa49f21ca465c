ghost use Rattle.std.specs.Prelude.{◌≡◌, ◌<◌, List, ℕ, [], true, false, Some, None, IfSome, IfOk, OnOk, OnErr, IfErr, length};
ghost use Rattle.std.specs.String.{string_bytes};
ghost use Rattle.snd_memory.specs.MemoryShelf.{place_of, entry_at, IsEmptyUnder, IsEmptyDisk, Changes, Exchanges};

use crate::MemoryDisk;
use snd_disk::{Shelf, ShelfFault};
use std::alloc::{AllocError, Global};
use std::mem;

/// A name, and its disk where that is not taken out.
#[derive(Drop)]
pub struct Entry {
    name: String,
    disk: Option<MemoryDisk>,
}

/// A shelf of disks in memory. It tells all that it holds.
#[derive(Drop)]
pub struct MemoryShelf {
    alloc: Global,
    entries: Vec<Entry>,
    faults: u64,
    written: u64,
    asked: u64,
}

/// Where a name stands first.
fn find(entries: &[Entry], name: &str) -> Option<usize>
    ensures place { result ≡ place_of entries.now name.now }
    ensures within { IfSome result (λ i. i < length entries.now) }
{
    for (i, entry) in entries.iter().enumerate() {
        if name == entry.name.as_str() {
            return Some(i);
        }
    }
    None
}

/// An empty disk under a name, and the name for its entry.
fn empty(alloc: Global, name: &str) -> Result<(String, MemoryDisk), AllocError>
    ensures { IfOk result (λ p. IsEmptyUnder p.0 p.1 name.now) }
{
    let key = String::from_str(alloc, name)?;
    let given = String::from_str(alloc, name)?;
    let disk = MemoryDisk::new(alloc, Vec::new(alloc), Vec::new(alloc))?;
    Ok((key, disk.named(given)))
}

/// Puts a disk, or none, in the place of what stands under a name, which is the answer. Where no
/// entry has the name, what was to be put comes back.
fn exchange(
    entries: &mut Vec<Entry>,
    name: &str,
    disk: Option<MemoryDisk>,
) -> Result<Option<MemoryDisk>, Option<MemoryDisk>>
    ensures { Exchanges entries.old.items entries.new.items name.now disk result }
{
    match find(entries, name) {
        Some(i) => {
            let entry = &mut entries[i];
            Ok(mem::replace(&mut entry.disk, disk))
        }
        None => Err(disk),
    }
}

/// Adds an entry for a name that has none.
fn add(entries: &mut Vec<Entry>, name: String, disk: Option<MemoryDisk>) -> Result<(), AllocError>
    requires { entry_at entries.old.items (string_bytes name) ≡ None }
    ensures ok { OnOk result (Changes entries.old.items entries.new.items (string_bytes name) disk) }
    ensures err { OnErr result (entries.new.items ≡ entries.old.items) }
{
    entries.push(Entry { name, disk })?;
    Ok(())
}

impl MemoryShelf {
    ghost use Rattle.snd_memory.specs.MemoryShelf.{no_files, shelf_between, shelf_left, shelf_state};
    ghost use Rattle.snd_memory.specs.Memory.{memory_between, memory_left, memory_state};
    ghost use Rattle.snd_disk.specs.Device.{Tells};
    ghost use Rattle.snd_disk.specs.Shelf.{KeepsBytes, KeepsShelf, Puts};
    ghost use Rattle.snd_disk.specs.Shelves.{KeepsImagesOf, KeepsOthers, TakesBack};
    ghost use Rattle.std.specs.Prelude.{if◌then◌else◌};
    ghost use Rattle.std.specs.Str.{bytes_eq};

    /// A shelf with no files, and with no name taken out.
    pub fn new(alloc: Global) -> MemoryShelf
        ensures state { shelf_state result ≡ no_files }
        ensures images { (n x : List ℕ) → shelf_left result n x → ⊥ }
    {
        MemoryShelf {
            alloc,
            entries: Vec::new(alloc),
            faults: 0,
            written: 0,
            asked: 0,
        }
    }

    /// Puts a disk under a name, in the place of one that stands there. The counts of the disk are not
    /// added. Where there is no memory all stays.
    pub fn put(&mut self, name: &str, disk: MemoryDisk) -> Result<(), AllocError>
        ensures put { (b : List ℕ) → Tells memory_state disk b → OnOk result (Puts (shelf_state self.old) (shelf_state self.new) name.now (Some b)) }
        ensures out { OnOk result ((n : List ℕ) → (shelf_state self.new).out n ≡ (if bytes_eq n name.now then false else (shelf_state self.old).out n)) }
        ensures images { OnOk result (TakesBack shelf_state shelf_left shelf_between memory_state memory_left memory_between name.now self.new disk) }
        ensures others { OnOk result (KeepsOthers shelf_state shelf_left shelf_between name.now self.old self.new) }
        ensures same { OnErr result (KeepsShelf (shelf_state self.old) (shelf_state self.new)) }
        ensures same_images { OnErr result ((n : List ℕ) → KeepsImagesOf shelf_state shelf_left shelf_between n self.old self.new) }
        ensures faults { (shelf_state self.new).faults ≡ (shelf_state self.old).faults }
        ensures bytes { KeepsBytes (shelf_state self.old) (shelf_state self.new) }
    {
        match exchange(&mut self.entries, name, Some(disk)) {
            Ok(_) => Ok(()),
            Err(disk) => {
                let name = String::from_str(self.alloc, name)?;
                add(&mut self.entries, name, disk)
            }
        }
    }

    /// Makes an empty file, and hands it out.
    fn make(&mut self, name: &str) -> Result<MemoryDisk, ShelfFault>
        requires { entry_at self.old.entries.items name.now ≡ None }
        ensures made { IfOk result (λ d. IsEmptyDisk d name.now × Changes self.old.entries.items self.new.entries.items name.now None) }
        ensures err { IfErr result (λ e. (e ≡ ShelfFault.Memory) × (self.new.entries.items ≡ self.old.entries.items)) }
        ensures counts { (self.new.faults ≡ self.old.faults) × (self.new.written ≡ self.old.written) × (self.new.asked ≡ self.old.asked) }
    {
        let Ok((key, disk)) = empty(self.alloc, name) else {
            return Err(ShelfFault::Memory);
        };
        match add(&mut self.entries, key, None) {
            Ok(()) => Ok(disk),
            Err(_) => Err(ShelfFault::Memory),
        }
    }
}

impl Shelf for MemoryShelf {
    type Disk = MemoryDisk;

    ghost use Rattle.snd_memory.specs.MemoryShelf.{shelf_state, shelf_left, shelf_between, shelf_is_left, shelf_counts_now, shelf_only_now, shelf_none_to_come, shelf_splits, shelf_file_fits};

    ghost state = { shelf_state };

    ghost may_leave = { shelf_left };

    ghost left_between = { shelf_between };

    ghost is_left = { shelf_is_left };

    ghost counts_now = { shelf_counts_now };

    ghost only_now = { shelf_only_now };

    ghost none_to_come = { shelf_none_to_come };

    ghost splits = { shelf_splits };

    ghost file_fits = { shelf_file_fits };

    fn take(&mut self, name: &str, make: bool) -> Result<MemoryDisk, ShelfFault> {
        let Ok(given) = String::from_str(self.alloc, name) else {
            return Err(ShelfFault::Memory);
        };
        match exchange(&mut self.entries, name, None) {
            Ok(Some(disk)) => Ok(disk.named(given)),
            Ok(None) => unreachable!(),
            Err(_) if !make => Err(ShelfFault::Missing),
            Err(_) => self.make(name),
        }
    }

    fn give(&mut self, name: &str, disk: MemoryDisk) {
        let (faults, written, asked) = disk.counts();
        self.faults = self.faults.saturating_add(faults);
        self.written = self.written.saturating_add(written);
        self.asked = self.asked.saturating_add(asked);
        match exchange(&mut self.entries, name, Some(disk)) {
            Ok(_) => {}
            Err(_) => unreachable!(),
        }
    }
}

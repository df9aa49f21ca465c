ghost use Rattle.std.specs.Prelude.{◌≡◌, ◌+◌, ◌-◌, ◌<◌, ◌≤◌, ◌^◌, ◌++◌, List, ℕ, length, take, drop, get_or, replicate, max, min, nat_lt, if◌then◌else◌, ◌/◌, IfOk, OnOk, OnErr};
ghost use Rattle.snd_disk.specs.Bytes.{over};
ghost use Rattle.snd_memory.specs.Past.{contents_by, partly, with_sectors_of};

use crate::call::{Call, End, FailingCall, Made};
use snd_disk::{Disk, Failed};
use std::alloc::{AllocError, Global};

/// A disk in memory. It tells its contents, keeps a record of all its writes, cuts and syncs, and
/// can be told which of its calls are to fail.
#[derive(Drop)]
pub struct MemoryDisk {
    alloc: Global,
    name: Option<String>,
    first: Vec<u8>,
    bytes: Vec<u8>,
    past: Vec<Made>,
    failing: Vec<FailingCall>,
    calls: u64,
    faults: u64,
    written: u64,
    asked: u64,
    ghost kept: { bytes.items ≡ contents_by past.items first.items },
}

/// Adds zeros up to a length, where there is memory.
fn lengthen(bytes: &mut Vec<u8>, len: usize) -> Result<(), AllocError>
    ensures ok { OnOk result (bytes.new.items ≡ bytes.old.items ++ replicate (len - length bytes.old.items) 0) }
    ensures err { OnErr result (bytes.new.items ≡ bytes.old.items) }
{
    if bytes.len() < len {
        return bytes.resize(len, 0);
    }
    Ok(())
}

fn copy_to(bytes: &mut [u8], at: usize, from: &[u8])
    requires { at + length from.now ≤ length bytes.old }
    ensures { bytes.new ≡ take at bytes.old ++ from.now ++ drop (at + length from.now) bytes.old }
{
    bytes[at..at + from.len()].copy_from_slice(from);
}

/// Puts bytes over others, which stay where there is no memory.
pub(crate) fn put_over(bytes: &mut Vec<u8>, at: usize, from: &[u8]) -> Result<(), AllocError>
    requires { at + length from.now < 2 ^ 63 }
    ensures ok { OnOk result (bytes.new.items ≡ over bytes.old.items at from.now) }
    ensures err { OnErr result (bytes.new.items ≡ bytes.old.items) }
{
    lengthen(bytes, at + from.len())?;
    copy_to(bytes, at, from);
    Ok(())
}

pub(crate) fn byte_or_zero(bytes: &[u8], i: usize) -> u8
    ensures { result ≡ get_or bytes.now i 0 }
{
    bytes.get(i).copied().unwrap_or(0)
}

/// The new byte at a place where its sector is below a number, else the old one.
fn byte_of(old: &[u8], new: &[u8], sectors: u64, i: usize) -> u8
    ensures { result ≡ (if nat_lt (i / 512) sectors then get_or new.now i 0 else get_or old.now i 0) }
{
    if i as u64 / 512 < sectors {
        byte_or_zero(new, i)
    } else {
        byte_or_zero(old, i)
    }
}

/// The old bytes, with those of the sectors below a number in the place of the first.
fn with_sectors(alloc: Global, old: &[u8], new: &[u8], sectors: u64) -> Result<Vec<u8>, AllocError>
    ensures { IfOk result (λ v. v.items ≡ with_sectors_of old.now new.now sectors) }
{
    let mut bytes = Vec::new(alloc);
    for i in 0..old.len() {
        bytes.push(byte_of(old, new, sectors, i))?;
    }
    Ok(bytes)
}

/// What a broken call leaves.
pub(crate) fn partly_changed(
    alloc: Global,
    old: &[u8],
    new: &[u8],
    sectors: u64,
) -> Result<Vec<u8>, AllocError>
    requires { max (length old.now) (length new.now) < 2 ^ 63 }
    ensures { IfOk result (λ v. v.items ≡ partly old.now new.now sectors) }
{
    let size = old.len().max(new.len()) as u64;
    if (size + 511) / 512 <= sectors {
        return new.to_vec(alloc);
    }
    with_sectors(alloc, old, new, sectors)
}

/// What a broken write leaves.
fn partly_over(
    alloc: Global,
    old: &[u8],
    at: usize,
    from: &[u8],
    sectors: u64,
) -> Result<Vec<u8>, AllocError>
    requires old { length old.now < 2 ^ 63 }
    requires new { at + length from.now < 2 ^ 63 }
    ensures { IfOk result (λ v. v.items ≡ partly old.now (over old.now at from.now) sectors) }
{
    let mut new = old.to_vec(alloc)?;
    put_over(&mut new, at, from)?;
    partly_changed(alloc, old, &new, sectors)
}

/// Copies what stands from a place on into the front of a slice.
fn read_from(bytes: &[u8], at: usize, into: &mut [u8]) -> usize
    ensures value { result ≡ min (length into.old) (length bytes.now - at) }
    ensures front { take result into.new ≡ take result (drop at bytes.now) }
    ensures rest { drop result into.new ≡ drop result into.old }
{
    if at >= bytes.len() {
        return 0;
    }
    let count = into.len().min(bytes.len() - at);
    into[..count].copy_from_slice(&bytes[at..at + count]);
    count
}

impl MemoryDisk {
    ghost use Rattle.snd_memory.specs.Memory.{memory_state, memory_left, memory_between, past_calls, first_bytes, Notes, Stays, MayNote};
    ghost use Rattle.snd_memory.specs.Past.{contents_of};
    ghost use Rattle.snd_disk.specs.State.{Adds, Counts, Rises};
    ghost use Rattle.snd_disk.specs.Device.{KeepsImagesOn};
    ghost use Rattle.std.specs.Prelude.{IsErr, Some, None, [], ◌⊎◌};
    ghost use Rattle.std.specs.String.{string_bytes};

    /// A disk with these bytes, all of them stable, whose calls with these numbers fail.
    pub fn new(
        alloc: Global,
        bytes: Vec<u8>,
        failing: Vec<FailingCall>,
    ) -> Result<MemoryDisk, AllocError>
        ensures told { IfOk result (λ d. memory_state d ≡ record { size = length bytes.items; contents = Some bytes.items; name = None; faults = 0; written = 0; asked = 0; clock = 0 }) }
        ensures images { IfOk result (λ d. (x : List ℕ) → memory_left d x → x ≡ bytes.items) }
        ensures record { IfOk result (λ d. past_calls d ≡ []) }
    {
        Ok(MemoryDisk {
            alloc,
            name: None,
            first: bytes.to_vec(alloc)?,
            bytes,
            past: Vec::new(alloc),
            failing,
            calls: 0,
            faults: 0,
            written: 0,
            asked: 0,
        })
    }

    /// The same disk, given under a name, with its three counts begun anew.
    pub fn named(self, name: String) -> MemoryDisk
        ensures told { memory_state result ≡ record (memory_state self) { name = Some (string_bytes name); faults = 0; written = 0; asked = 0 } }
        ensures images { KeepsImagesOn memory_state memory_left memory_between self result }
    {
        MemoryDisk {
            alloc: self.alloc,
            name: Some(name),
            first: self.first,
            bytes: self.bytes,
            past: self.past,
            failing: self.failing,
            calls: self.calls,
            faults: 0,
            written: 0,
            asked: 0,
        }
    }

    /// The bytes that the disk holds.
    pub fn bytes(&self) -> &[u8]
        ensures { (memory_state self.now).contents ≡ Some result.now }
    {
        &self.bytes
    }

    /// The bytes that it held at first, all of them stable.
    pub fn first(&self) -> &[u8]
        ensures { result.now ≡ first_bytes self.now }
    {
        &self.first
    }

    /// All writes, cuts and syncs so far, failed ones too, in order.
    pub fn past(&self) -> &[Made]
        ensures { result.now ≡ past_calls self.now }
    {
        &self.past
    }

    /// The counts of faults, of bytes written and of bytes asked.
    pub(crate) fn counts(&self) -> (u64, u64, u64)
        ensures { result ≡ ((memory_state self.now).faults, (memory_state self.now).written, (memory_state self.now).asked) }
    {
        (self.faults, self.written, self.asked)
    }

    /// Counts a fault.
    fn fail<T>(&mut self) -> Result<T, Failed>
        ensures state { self.new ≡ record self.old { faults = self.new.faults } }
        ensures rises { Rises self.old.faults self.new.faults }
        ensures later { self.old.faults ≤ self.new.faults }
        ensures failed { IsErr result }
    {
        self.faults = self.faults.saturating_add(1);
        Err(Failed)
    }

    /// Counts a call, and finds how many sectors change all the same where it is to fail.
    fn failure(&mut self) -> Option<u64>
        ensures { self.new ≡ record self.old { calls = self.new.calls } }
    {
        self.calls = self.calls.saturating_add(1);
        let number = self.calls;
        self.failing
            .iter()
            .find(|call| call.number == number)
            .map(|call| call.sectors)
    }

    /// The length in bytes.
    pub(crate) fn length(&self) -> u64
        ensures { result ≡ (memory_state self.now).size }
    {
        self.bytes.len() as u64
    }

    /// Counts the bytes that are asked for, and copies those that stand there.
    pub(crate) fn read(&mut self, at: u64, into: &mut [u8]) -> usize
        ensures value { result ≡ min (length into.old) (length self.old.bytes.items - at) }
        ensures front { take result into.new ≡ take result (drop at self.old.bytes.items) }
        ensures rest { drop result into.new ≡ drop result into.old }
        ensures state { self.new ≡ record self.old { asked = self.new.asked } }
        ensures asked { Adds self.old.asked (length into.old) self.new.asked }
    {
        self.count_asked(into.len());
        read_from(&self.bytes, at as usize, into)
    }

    /// Counts bytes that are asked for.
    fn count_asked(&mut self, count: usize)
        ensures state { self.new ≡ record self.old { asked = self.new.asked } }
        ensures asked { Adds self.old.asked count self.new.asked }
    {
        self.asked = self.asked.saturating_add(count as u64);
    }

    /// Counts the bytes of a write, and copies them for the record.
    pub(crate) fn begin_write(&mut self, from: &[u8]) -> Result<Vec<u8>, Failed>
        ensures copied { IfOk result (λ copy. copy.items ≡ from.now) }
        ensures state { self.new ≡ record self.old { written = self.new.written; faults = self.new.faults } }
        ensures written { Adds self.old.written (length from.now) self.new.written }
        ensures faults { Counts self.old.faults self.new.faults result }
    {
        self.written = self.written.saturating_add(from.len() as u64);
        match from.to_vec(self.alloc) {
            Ok(copy) => Ok(copy),
            Err(_) => self.fail(),
        }
    }

    /// Carries out a write, and notes it.
    pub(crate) fn write(&mut self, at: u64, from: &[u8], copy: Vec<u8>) -> Result<(), Failed>
        requires fits { at + length from.now < 2 ^ 63 }
        requires same { copy.items ≡ from.now }
        ensures noted { MayNote self.old self.new (record { call = Call.Write at copy; end = End.Done }) }
        ensures ok { OnOk result (Notes self.old self.new (record { call = Call.Write at copy; end = End.Done })) }
        ensures err { OnErr result (Stays self.old self.new) }
        ensures faults { Counts self.old.faults self.new.faults result }
    {
        let Ok(()) = self.past.reserve(1) else {
            return self.fail();
        };
        let Ok(()) = put_over(&mut self.bytes, at as usize, from) else {
            return self.fail();
        };
        let call = Call::Write { at, from: copy };
        let made = Made {
            call,
            end: End::Done,
        };
        let Ok(()) = self.past.push(made) else {
            unreachable!()
        };
        Ok(())
    }

    /// Carries out a cut, and notes it.
    pub(crate) fn shorten(&mut self, len: u64) -> Result<(), Failed>
        ensures noted { MayNote self.old self.new (record { call = Call.Cut len; end = End.Done }) }
        ensures ok { OnOk result (Notes self.old self.new (record { call = Call.Cut len; end = End.Done })) }
        ensures err { OnErr result (Stays self.old self.new) }
        ensures faults { Counts self.old.faults self.new.faults result }
    {
        let made = Made {
            call: Call::Cut { len },
            end: End::Done,
        };
        let Ok(()) = self.past.push(made) else {
            return self.fail();
        };
        self.bytes.truncate(len as usize);
        Ok(())
    }

    /// Notes a sync, as one that ended so.
    pub(crate) fn settle(&mut self, end: End) -> Result<(), Failed>
        ensures noted { MayNote self.old self.new (record { call = Call.Sync; end = end }) }
        ensures ok { OnOk result (Notes self.old self.new (record { call = Call.Sync; end = end })) }
        ensures err { OnErr result (Stays self.old self.new) }
        ensures faults { Counts self.old.faults self.new.faults result }
    {
        let made = Made {
            call: Call::Sync,
            end,
        };
        let Ok(()) = self.past.push(made) else {
            return self.fail();
        };
        Ok(())
    }

    /// Notes a call that failed, and leaves what was changed all the same.
    fn break_off(&mut self, call: Call, bytes: Vec<u8>, sectors: u64) -> Result<(), Failed>
        requires { bytes.items ≡ contents_of call (End.Broken sectors) self.old.bytes.items }
        ensures noted { MayNote self.old self.new (record { call = call; end = End.Broken sectors }) }
        ensures rises { Rises self.old.faults self.new.faults }
        ensures later { self.old.faults ≤ self.new.faults }
        ensures failed { IsErr result }
    {
        let end = End::Broken { sectors };
        let Ok(()) = self.past.push(Made { call, end }) else {
            return self.fail();
        };
        self.bytes = bytes;
        self.fail()
    }
}

impl Disk for MemoryDisk {
    ghost use Rattle.snd_memory.specs.Memory.{memory_state, memory_left, memory_between, memory_told, memory_fits, memory_is_left, memory_counts_now, memory_only_now, memory_none_to_come, memory_splits};

    ghost state = { memory_state };

    ghost may_leave = { memory_left };

    ghost left_between = { memory_between };

    ghost size_told = { memory_told };

    ghost size_fits = { memory_fits };

    ghost is_left = { memory_is_left };

    ghost counts_now = { memory_counts_now };

    ghost only_now = { memory_only_now };

    ghost none_to_come = { memory_none_to_come };

    ghost splits = { memory_splits };

    fn len(&mut self) -> Result<u64, Failed> {
        match self.failure() {
            None => Ok(self.bytes.len() as u64),
            Some(_) => self.fail(),
        }
    }

    fn read_at(&mut self, at: u64, into: &mut [u8]) -> Result<usize, Failed> {
        match self.failure() {
            None => Ok(self.read(at, into)),
            Some(_) => {
                self.count_asked(into.len());
                self.fail()
            }
        }
    }

    fn write_at(&mut self, at: u64, from: &[u8]) -> Result<(), Failed> {
        let copy = self.begin_write(from)?;
        match self.failure() {
            None => self.write(at, from, copy),
            Some(sectors) => {
                let Ok(bytes) = partly_over(self.alloc, &self.bytes, at as usize, from, sectors)
                else {
                    return self.fail();
                };
                self.break_off(Call::Write { at, from: copy }, bytes, sectors)
            }
        }
    }

    fn cut(&mut self, len: u64) -> Result<(), Failed> {
        match self.failure() {
            None => self.shorten(len),
            Some(sectors) => {
                let front = &self.bytes[..len as usize];
                let Ok(bytes) = partly_changed(self.alloc, &self.bytes, front, sectors) else {
                    return self.fail();
                };
                self.break_off(Call::Cut { len }, bytes, sectors)
            }
        }
    }

    fn sync(&mut self) -> Result<(), Failed> {
        match self.failure() {
            None => self.settle(End::Done),
            Some(sectors) => {
                let Ok(()) = self.settle(End::Broken { sectors }) else {
                    return Err(Failed);
                };
                self.fail()
            }
        }
    }
}

ghost use Rattle.std.specs.Prelude.{◌≡◌, ◌+◌, ◌-◌, ◌<◌, ◌≤◌, ◌^◌, ◌⊎◌, List, ℕ, [], None, Some, IfOk, IsOk, OnOk, OnErr, length, min, take};
ghost use Rattle.snd_disk.specs.Bytes.{over};

use crate::{End, Made, MemoryDisk};
use snd_disk::{Disk, Failed};
use std::alloc::{AllocError, Global};

/// A disk in memory none of whose calls fails, but for want of memory: reading never fails, and a
/// call that finds no memory for a growth changes nothing but counts.
#[derive(Drop)]
pub struct SteadyDisk {
    disk: MemoryDisk,
}

impl SteadyDisk {
    ghost use Rattle.snd_memory.specs.Steady.{steady_state, steady_left};
    ghost use Rattle.snd_memory.specs.Memory.{past_calls};

    /// A disk with these bytes, all of them stable.
    pub fn new(alloc: Global, bytes: Vec<u8>) -> Result<SteadyDisk, AllocError>
        ensures told { IfOk result (λ d. steady_state d ≡ record { size = length bytes.items; contents = Some bytes.items; name = None; faults = 0; written = 0; asked = 0; clock = 0 }) }
        ensures images { IfOk result (λ d. (x : List ℕ) → steady_left d x → x ≡ bytes.items) }
    {
        let disk = MemoryDisk::new(alloc, bytes, Vec::new(alloc))?;
        Ok(SteadyDisk { disk })
    }

    /// The bytes that the disk holds.
    pub fn bytes(&self) -> &[u8]
        ensures { (steady_state self.now).contents ≡ Some result.now }
    {
        self.disk.bytes()
    }

    /// All writes, cuts and syncs so far, in order.
    pub fn past(&self) -> &[Made]
        ensures { result.now ≡ past_calls self.now.disk }
    {
        self.disk.past()
    }
}

impl Disk for SteadyDisk {
    ghost use Rattle.snd_disk.specs.Device.{CountsOn, IsStable, IsUnchanged, MixesOn, MixesAllOn, PassesOn, TicksOn, OnlyReadsOn};
    ghost use Rattle.snd_disk.specs.State.{Keeps, Adds, ReadsFrom, SameImages, IsWritten, IsPartlyWritten, IsCut, IsPartlyCut};
    ghost use Rattle.snd_memory.specs.Steady.{steady_state, steady_left, steady_between, steady_told, steady_fits, steady_is_left, steady_counts_now, steady_only_now, steady_none_to_come, steady_splits};

    ghost state = { steady_state };

    ghost may_leave = { steady_left };

    ghost left_between = { steady_between };

    ghost size_told = { steady_told };

    ghost size_fits = { steady_fits };

    ghost is_left = { steady_is_left };

    ghost counts_now = { steady_counts_now };

    ghost only_now = { steady_only_now };

    ghost none_to_come = { steady_none_to_come };

    ghost splits = { steady_splits };

    fn len(&mut self) -> Result<u64, Failed>
        ensures value { IfOk result (λ n. n ≡ (steady_state self.old).size) }
        ensures steady { IsOk result }
        ensures reads { OnlyReadsOn steady_state steady_left steady_between self.old self.new }
        ensures faults { CountsOn steady_state self.old self.new result }
        ensures asked { (steady_state self.new).asked ≡ (steady_state self.old).asked }
    {
        Ok(self.disk.length())
    }

    fn read_at(&mut self, at: u64, into: &mut [u8]) -> Result<usize, Failed>
        requires { at + length into.old < 2 ^ 63 }
        ensures value { IfOk result (λ n. n ≡ min (length into.old) ((steady_state self.old).size - at)) }
        ensures steady { IsOk result }
        ensures bytes { IfOk result (λ n. ReadsFrom (steady_state self.old) at n into.old into.new) }
        ensures reads { OnlyReadsOn steady_state steady_left steady_between self.old self.new }
        ensures faults { CountsOn steady_state self.old self.new result }
        ensures asked { Adds (steady_state self.old).asked (length into.old) (steady_state self.new).asked }
    {
        Ok(self.disk.read(at, into))
    }

    fn write_at(&mut self, at: u64, from: &[u8]) -> Result<(), Failed>
        requires { at + length from.now < 2 ^ 63 }
        ensures done { OnOk result (IsWritten at from.now (steady_state self.old) (steady_state self.new)) }
        ensures steady { OnErr result (IsUnchanged steady_state steady_left steady_between self.old self.new) }
        ensures broken { OnErr result (IsPartlyWritten at from.now (steady_state self.old) (steady_state self.new)) }
        ensures images { MixesOn steady_state steady_left (λ b. over b at from.now) self.old self.new }
        ensures all_images { OnOk result (MixesAllOn steady_state steady_left (λ b. over b at from.now) self.old self.new) }
        ensures all_or_none { OnErr result (MixesAllOn steady_state steady_left (λ b. over b at from.now) self.old self.new
            ⊎ IsUnchanged steady_state steady_left steady_between self.old self.new) }
        ensures time { PassesOn steady_state steady_left steady_between self.old self.new }
        ensures ticks { TicksOn steady_state steady_left steady_between self.old self.new }
        ensures faults { CountsOn steady_state self.old self.new result }
        ensures written { Adds (steady_state self.old).written (length from.now) (steady_state self.new).written }
        ensures asked { (steady_state self.new).asked ≡ (steady_state self.old).asked }
    {
        let copy = self.disk.begin_write(from)?;
        self.disk.write(at, from, copy)
    }

    fn cut(&mut self, len: u64) -> Result<(), Failed>
        requires { len ≤ (steady_state self.old).size }
        ensures done { OnOk result (IsCut len (steady_state self.old) (steady_state self.new)) }
        ensures steady { OnErr result (IsUnchanged steady_state steady_left steady_between self.old self.new) }
        ensures broken { OnErr result (IsPartlyCut len (steady_state self.old) (steady_state self.new)) }
        ensures images { MixesOn steady_state steady_left (take len) self.old self.new }
        ensures all_images { OnOk result (MixesAllOn steady_state steady_left (take len) self.old self.new) }
        ensures all_or_none { OnErr result (MixesAllOn steady_state steady_left (take len) self.old self.new
            ⊎ IsUnchanged steady_state steady_left steady_between self.old self.new) }
        ensures time { PassesOn steady_state steady_left steady_between self.old self.new }
        ensures ticks { TicksOn steady_state steady_left steady_between self.old self.new }
        ensures faults { CountsOn steady_state self.old self.new result }
        ensures written { (steady_state self.new).written ≡ (steady_state self.old).written }
        ensures asked { (steady_state self.new).asked ≡ (steady_state self.old).asked }
    {
        self.disk.shorten(len)
    }

    fn sync(&mut self) -> Result<(), Failed>
        ensures same { Keeps (steady_state self.old) (steady_state self.new) }
        ensures done { OnOk result (IsStable steady_state steady_left self.new) }
        ensures steady { OnErr result (IsUnchanged steady_state steady_left steady_between self.old self.new) }
        ensures images { OnErr result (SameImages (steady_left self.old) (steady_left self.new)) }
        ensures time { PassesOn steady_state steady_left steady_between self.old self.new }
        ensures ticks { TicksOn steady_state steady_left steady_between self.old self.new }
        ensures faults { CountsOn steady_state self.old self.new result }
        ensures written { (steady_state self.new).written ≡ (steady_state self.old).written }
        ensures asked { (steady_state self.new).asked ≡ (steady_state self.old).asked }
    {
        self.disk.settle(End::Done)
    }
}

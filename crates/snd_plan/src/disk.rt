ghost use Rattle.std.specs.Prelude.{◌≡◌, ◌<◌, ◌≤◌, ◌^◌, ◌-◌, ◌||◌, ℕ, List, length, min, nat_eq, true};
ghost use Rattle.snd_disk.specs.Runs.{HasAt};
ghost use Rattle.snd_plan.specs.Operations.{all_shorten, file_end, length_after, length_after_all, operation_of, tape_end};
ghost use Rattle.snd_plan.specs.Plans.{operations};
ghost use Rattle.snd_plan.specs.Windows.{HasParts, are_held, parts};

use crate::Planned;
use crate::patch::{clear_from, patch};
use crate::plan::Plan;
use crate::windows::Windows;
use snd_disk::{Disk, Failed};
use std::alloc::{AllocError, Global};

/// Bytes of the file that a read needed, and that were not there.
#[derive(Clone, Copy, Debug, PartialEq, Eq)]
pub struct Wanted {
    pub at: u64,
    pub len: u64,
}

/// A file whose bytes somebody else moves. `held` is its length as it stands, and `size` the one that
/// it has once all that is planned is carried out.
#[derive(Drop)]
pub struct PlanDisk {
    plan: Plan,
    windows: Windows,
    wanted: Option<Wanted>,
    held: u64,
    size: u64,
    faults: u64,
    written: u64,
    asked: u64,
    ghost fits: { size < 2 ^ 63 },
    ghost stands: { held < 2 ^ 63 },
    ghost sized: { length_after_all (operations plan) held ≡ size },
    ghost shortens: { all_shorten (operations plan) held ≡ true },
}

/// The length of a file after an operation.
fn held_after(step: Planned, held: u64) -> u64
    requires placed { file_end step < 2 ^ 63 }
    requires stands { held < 2 ^ 63 }
    ensures length { (tape : List ℕ) → tape_end step ≤ length tape → result ≡ length_after (operation_of tape step) held }
    ensures fits { result < 2 ^ 63 }
{
    match step {
        Planned::Write { at, len, .. } => held.max(at + len as u64),
        Planned::Cut { len } => len.min(held),
        Planned::Sync => held,
    }
}

/// Copies what was read of a file from a place on, with zeros behind its end.
fn read_file(windows: &Windows, held: u64, at: u64, into: &mut [u8]) -> bool
    ensures exact { result ≡ (nat_eq (min (length into.old) (held - at)) 0 || are_held (parts windows.now) at (min (length into.old) (held - at))) }
    ensures bytes { result ≡ true → (b : List ℕ) → length b ≡ held → HasParts b (parts windows.now) → HasAt b at into.new }
{
    let there = (held.saturating_sub(at)).min(into.len() as u64) as usize;
    clear_from(into, there);
    if there == 0 {
        return true;
    }
    windows.copy(at, &mut into[..there])
}

impl PlanDisk {
    ghost use Rattle.std.specs.Prelude.{◌++◌, ◌∷◌, ◌+◌, [], take, drop, option_map, Some, None, IfSome, IsErr, OnOk, OnErr, slice_get};
    ghost use Rattle.snd_disk.specs.State.{Rises};
    ghost use Rattle.snd_plan.specs.Disks.{IsFile, IsMixed, IsMixedOrSame, KeepsPlan, KeepsRead, Shows, given, has_all, held_length, plan_state, planned, shown, tape_of, wanted_of};

    /// A file of a length, of which nothing was read, and to which nothing is to be done.
    pub fn new(alloc: Global, size: u64) -> PlanDisk
        requires { size < 2 ^ 63 }
        ensures state { plan_state result ≡ record { size = size; contents = None; name = None; faults = 0; written = 0; asked = 0; clock = 0 } }
        ensures file { held_length result ≡ size }
        ensures plan { planned result ≡ [] }
        ensures read { given result ≡ [] }
        ensures want { wanted_of result ≡ None }
    {
        PlanDisk {
            plan: Plan::new(alloc),
            windows: Windows::new(alloc),
            wanted: None,
            held: size,
            size,
            faults: 0,
            written: 0,
            asked: 0,
        }
    }

    /// The bytes that the last read needed which failed for want of them, until some are given.
    pub fn wanted(&self) -> Option<Wanted>
        ensures { result ≡ wanted_of self.now }
    {
        self.wanted
    }

    /// The length of the file as it stands, before anything that is planned is carried out.
    pub fn held(&self) -> u64
        ensures { result ≡ held_length self.now }
    {
        self.held
    }

    /// Takes bytes that were read of the file at a place, and copies them.
    pub fn give(&mut self, at: u64, bytes: &[u8]) -> Result<(), AllocError>
        ensures read { OnOk result (given self.new ≡ given self.old ++ (at, bytes.now) ∷ []) }
        ensures want { OnOk result (wanted_of self.new ≡ None) }
        ensures same { OnErr result (KeepsRead self.old self.new) }
        ensures plan { KeepsPlan self.old self.new }
        ensures state { plan_state self.new ≡ plan_state self.old }
    {
        self.windows.add(at, bytes)?;
        self.wanted = None;
        Ok(())
    }

    /// Forgets all that was read of the file.
    pub fn forget(&mut self)
        ensures read { given self.new ≡ [] }
        ensures want { wanted_of self.new ≡ None }
        ensures plan { KeepsPlan self.old self.new }
        ensures state { plan_state self.new ≡ plan_state self.old }
    {
        self.windows.clear();
        self.wanted = None;
    }

    /// What is to be done to the file first. The bytes of a write stand on the tape.
    pub fn first(&self) -> Option<Planned>
        ensures first { option_map (operation_of (tape_of self.now)) result ≡ slice_get (planned self.now) 0 }
        ensures taped { IfSome result (λ s. tape_end s ≤ length (tape_of self.now)) }
        ensures placed { IfSome result (λ s. file_end s < 2 ^ 63) }
    {
        self.plan.first()
    }

    /// The tape, with the bytes of all writes that are planned.
    pub fn tape(&self) -> &[u8]
        ensures { result.now ≡ tape_of self.now }
    {
        self.plan.tape()
    }

    /// The first operation was carried out on the file. What was read of it before is forgotten.
    pub fn carried(&mut self)
        ensures plan { planned self.new ≡ drop 1 (planned self.old) }
        ensures file { held_length self.new ≡ length_after_all (take 1 (planned self.old)) (held_length self.old) }
        ensures read { given self.new ≡ [] }
        ensures want { wanted_of self.new ≡ None }
        ensures state { plan_state self.new ≡ plan_state self.old }
    {
        let Some(step) = self.plan.first() else {
            return self.forget();
        };
        self.held = held_after(step, self.held);
        self.plan.advance();
        self.forget();
    }

    /// Copies the bytes from a place on as the disk shows them, where all was read that this needs.
    fn copy(&self, at: u64, into: &mut [u8]) -> bool
        requires { at + length into.old ≤ (plan_state self.now).size }
        ensures exact { result ≡ has_all self.now at (length into.old) }
        ensures bytes { result ≡ true → Shows self.now at into.new }
    {
        let read = read_file(&self.windows, self.held, at, into);
        if read {
            patch(self.plan.steps(), self.plan.tape(), at, into);
        }
        read
    }

    /// Notes what a read needed, and counts a fault.
    fn want<T>(&mut self, at: u64, len: u64) -> Result<T, Failed>
        ensures state { self.new ≡ record self.old { wanted = Some (record { at = at; len = len }); faults = self.new.faults } }
        ensures rises { Rises self.old.faults self.new.faults }
        ensures later { self.old.faults ≤ self.new.faults }
        ensures failed { IsErr result }
    {
        self.wanted = Some(Wanted { at, len });
        self.fail()
    }

    /// Counts a fault.
    fn fail<T>(&mut self) -> Result<T, Failed>
        ensures state { self.new ≡ record self.old { faults = self.new.faults } }
        ensures rises { Rises self.old.faults self.new.faults }
        ensures later { self.old.faults ≤ self.new.faults }
        ensures failed { IsErr result }
    {
        self.faults = self.faults.saturating_add(1);
        Err(Failed)
    }
}

impl Disk for PlanDisk {
    ghost use Rattle.std.specs.Prelude.{◌+◌, ◌⊎◌, take, Some, is_ok, IfOk, OnOk, OnErr};
    ghost use Rattle.snd_disk.specs.Bytes.{over};
    ghost use Rattle.snd_disk.specs.Device.{CountsOn, IsStable, IsUnchanged, MixesOn, MixesAllOn, PassesOn, TicksOn, OnlyReadsOn};
    ghost use Rattle.snd_disk.specs.State.{Keeps, Adds, ReadsFrom, SameImages, IsWritten, IsPartlyWritten, IsCut, IsPartlyCut};
    ghost use Rattle.snd_plan.specs.Operations.{Operation};
    ghost use Rattle.snd_plan.specs.Disks.{IsFile, IsMixed, IsMixedOrSame, KeepsPlan, Notes, NotesNothing, Shows, given, has_all, needs, plan_between, plan_counts_now, plan_fits, plan_is_left, plan_left, plan_none_to_come, plan_only_now, plan_splits, plan_state, plan_told, shown, wanted_of};

    ghost state = { plan_state };

    ghost may_leave = { plan_left };

    ghost left_between = { plan_between };

    ghost size_told = { plan_told };

    ghost size_fits = { plan_fits };

    ghost is_left = { plan_is_left };

    ghost counts_now = { plan_counts_now };

    ghost only_now = { plan_only_now };

    ghost none_to_come = { plan_none_to_come };

    ghost splits = { plan_splits };

    fn len(&mut self) -> Result<u64, Failed>
        ensures value { IfOk result (λ n. n ≡ (plan_state self.old).size) }
        ensures reads { OnlyReadsOn plan_state plan_left plan_between self.old self.new }
        ensures faults { CountsOn plan_state self.old self.new result }
        ensures asked { (plan_state self.new).asked ≡ (plan_state self.old).asked }
        ensures same { self.new ≡ self.old }
    {
        Ok(self.size)
    }

    fn read_at(&mut self, at: u64, into: &mut [u8]) -> Result<usize, Failed>
        requires { at + length into.old < 2 ^ 63 }
        ensures value { IfOk result (λ n. n ≡ min (length into.old) ((plan_state self.old).size - at)) }
        ensures bytes { IfOk result (λ n. ReadsFrom (plan_state self.old) at n into.old into.new) }
        ensures reads { OnlyReadsOn plan_state plan_left plan_between self.old self.new }
        ensures faults { CountsOn plan_state self.old self.new result }
        ensures asked { Adds (plan_state self.old).asked (length into.old) (plan_state self.new).asked }
        ensures exact { is_ok result ≡ has_all self.old at (length into.old) }
        ensures shown { IfOk result (λ n. Shows self.old at (take n into.new)) }
        ensures wants { OnErr result (wanted_of self.new ≡ Some (record { at = at; len = needs self.old at (length into.old) })) }
        ensures want { OnOk result (wanted_of self.new ≡ wanted_of self.old) }
        ensures plan { KeepsPlan self.old self.new }
        ensures read { given self.new ≡ given self.old }
    {
        self.asked = self.asked.saturating_add(into.len() as u64);
        if at >= self.size {
            return Ok(0);
        }
        let left = self.size - at;
        let count = into.len().min(left as usize);
        if self.copy(at, &mut into[..count]) {
            return Ok(count);
        }
        self.want(at, self.held.saturating_sub(at).min(count as u64))
    }

    fn write_at(&mut self, at: u64, from: &[u8]) -> Result<(), Failed>
        requires { at + length from.now < 2 ^ 63 }
        ensures done { OnOk result (IsWritten at from.now (plan_state self.old) (plan_state self.new)) }
        ensures broken { OnErr result (IsPartlyWritten at from.now (plan_state self.old) (plan_state self.new)) }
        ensures images { MixesOn plan_state plan_left (λ b. over b at from.now) self.old self.new }
        ensures all_images { OnOk result (IsMixed (λ b. over b at from.now) self.old self.new) }
        ensures all_or_none { OnErr result (IsMixedOrSame (λ b. over b at from.now) self.old self.new) }
        ensures time { PassesOn plan_state plan_left plan_between self.old self.new }
        ensures ticks { TicksOn plan_state plan_left plan_between self.old self.new }
        ensures faults { CountsOn plan_state self.old self.new result }
        ensures written { Adds (plan_state self.old).written (length from.now) (plan_state self.new).written }
        ensures asked { (plan_state self.new).asked ≡ (plan_state self.old).asked }
        ensures noted { OnOk result (Notes self.old self.new (Operation.write at from.now)) }
        ensures unnoted { OnErr result (NotesNothing self.old self.new) }
    {
        self.written = self.written.saturating_add(from.len() as u64);
        match self.plan.write(at, from) {
            Ok(()) => {
                self.size = self.size.max(at + from.len() as u64);
                Ok(())
            }
            Err(_) => self.fail(),
        }
    }

    fn cut(&mut self, len: u64) -> Result<(), Failed>
        requires { len ≤ (plan_state self.old).size }
        ensures done { OnOk result (IsCut len (plan_state self.old) (plan_state self.new)) }
        ensures broken { OnErr result (IsPartlyCut len (plan_state self.old) (plan_state self.new)) }
        ensures images { MixesOn plan_state plan_left (take len) self.old self.new }
        ensures all_images { OnOk result (IsMixed (take len) self.old self.new) }
        ensures all_or_none { OnErr result (IsMixedOrSame (take len) self.old self.new) }
        ensures time { PassesOn plan_state plan_left plan_between self.old self.new }
        ensures ticks { TicksOn plan_state plan_left plan_between self.old self.new }
        ensures faults { CountsOn plan_state self.old self.new result }
        ensures written { (plan_state self.new).written ≡ (plan_state self.old).written }
        ensures asked { (plan_state self.new).asked ≡ (plan_state self.old).asked }
        ensures noted { OnOk result (Notes self.old self.new (Operation.cut len)) }
        ensures unnoted { OnErr result (NotesNothing self.old self.new) }
    {
        match self.plan.cut(len) {
            Ok(()) => {
                self.size = len;
                Ok(())
            }
            Err(_) => self.fail(),
        }
    }

    fn sync(&mut self) -> Result<(), Failed>
        ensures same { Keeps (plan_state self.old) (plan_state self.new) }
        ensures done { OnOk result (IsStable plan_state plan_left self.new) }
        ensures images { OnErr result (SameImages (plan_left self.old) (plan_left self.new)) }
        ensures time { PassesOn plan_state plan_left plan_between self.old self.new }
        ensures ticks { TicksOn plan_state plan_left plan_between self.old self.new }
        ensures faults { CountsOn plan_state self.old self.new result }
        ensures written { (plan_state self.new).written ≡ (plan_state self.old).written }
        ensures asked { (plan_state self.new).asked ≡ (plan_state self.old).asked }
        ensures noted { OnOk result (Notes self.old self.new Operation.sync) }
        ensures unnoted { OnErr result (NotesNothing self.old self.new) }
    {
        match self.plan.sync() {
            Ok(()) => Ok(()),
            Err(_) => self.fail(),
        }
    }
}

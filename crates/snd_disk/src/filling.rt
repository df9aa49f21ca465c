//! Bytes that are known to be there.

ghost use Rattle.std.specs.Prelude.{◌≡◌, ◌+◌, ◌≤◌, List, ℕ, OnOk, length, take, drop};
ghost use Rattle.snd_disk.specs.Device.{AsksAtMost, CountsOn, OnlyReadsOn, Tells};

use crate::{Disk, Failed, Step};

/// Fills a slice with the bytes from a place on, all of which the disk has.
pub fn fill<D: Disk>(disk: &mut D, at: u64, into: &mut [u8]) -> Result<(), Step>
    requires { at + length into.old ≤ (D.state disk.old).size }
    ensures told { OnOk result ((b : List ℕ) → Tells D.state disk.old b → into.new ≡ take (length into.old) (drop at b)) }
    ensures faults { CountsOn D.state disk.old disk.new result }
    ensures reads { OnlyReadsOn D.state D.may_leave D.left_between disk.old disk.new }
    ensures asked { AsksAtMost D.state (length into.old) disk.old disk.new }
{
    match disk.read_at(at, into) {
        Ok(_) => Ok(()),
        Err(Failed) => Err(Step::Read),
    }
}

//! Bytes of a disk, with zeros for those that lie past its end.

ghost use Rattle.std.specs.Prelude.{◌≡◌, ◌+◌, ◌<◌, ◌≤◌, ◌^◌, List, ℕ, OnOk, length, replicate};
ghost use Rattle.snd_disk.specs.Device.{AsksAtMost, CountsOn, OnlyReadsOn, Tells};
ghost use Rattle.snd_voc.specs.Parts.{AgreesFrom};

use snd_disk::{Disk, Failed, Step};

/// Reads the bytes from a place on into a slice of zeros, which stay past the end of the disk.
pub(crate) fn read_from<D: Disk>(disk: &mut D, at: u64, into: &mut [u8]) -> Result<(), Step>
    requires early { at + length into.old < 2 ^ 63 }
    requires zeros { into.old ≡ replicate (length into.old) 0 }
    ensures told { OnOk result ((b : List ℕ) → Tells D.state disk.old b → AgreesFrom b at (length into.old) into.new) }
    ensures len { length into.new ≡ length into.old }
    ensures faults { CountsOn D.state disk.old disk.new result }
    ensures reads { OnlyReadsOn D.state D.may_leave D.left_between disk.old disk.new }
    ensures asked { AsksAtMost D.state (length into.old) disk.old disk.new }
{
    match disk.read_at(at, into) {
        Ok(_) => Ok(()),
        Err(Failed) => Err(Step::Read),
    }
}

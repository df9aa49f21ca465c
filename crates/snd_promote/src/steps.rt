//! The calls of a disk that a promotion makes.

ghost use Rattle.std.specs.Prelude.{◌≡◌, ◌+◌, ◌<◌, ◌≤◌, ◌^◌, [], ◌∷◌, length, OnErr, OnOk};
ghost use Rattle.snd_disk.specs.Bytes.{over};
ghost use Rattle.snd_disk.specs.Device.{CountsOn, GoesOnFrom, IsStable, WritesAtMost};
ghost use Rattle.snd_disk.specs.Runs.{Since};
ghost use Rattle.snd_disk.specs.State.{IsPartlyWritten, IsWritten, Keeps};
ghost use Rattle.snd_patch.specs.Steps.{Runs};
ghost use Rattle.snd_promote.specs.Steps.{HasPut, Puts};

use snd_disk::{Disk, Failed, Step};

// Makes the contents stable.
fn settle<D: Disk>(disk: &mut D) -> Result<(), Step>
    ensures same { Keeps (D.state disk.old) (D.state disk.new) }
    ensures stable { OnOk result (IsStable D.state D.may_leave disk.new) }
    ensures run { Since D.state D.may_leave D.left_between disk.old disk.new [] }
    ensures time { GoesOnFrom D.state D.left_between disk.old disk.new }
    ensures faults { CountsOn D.state disk.old disk.new result }
    ensures written { (D.state disk.new).written ≡ (D.state disk.old).written }
    ensures asked { (D.state disk.new).asked ≡ (D.state disk.old).asked }
{
    match disk.sync() {
        Ok(()) => Ok(()),
        Err(Failed) => Err(Step::Sync),
    }
}

// Puts bytes at a place.
fn put_bytes<D: Disk>(disk: &mut D, at: u64, bytes: &[u8]) -> Result<(), Step>
    requires { at + length bytes.now < 2 ^ 63 }
    ensures done { OnOk result (IsWritten at bytes.now (D.state disk.old) (D.state disk.new)) }
    ensures broken { OnErr result (IsPartlyWritten at bytes.now (D.state disk.old) (D.state disk.new)) }
    ensures run { Runs D.state D.may_leave D.left_between (λ b. over b at bytes.now ∷ []) disk.old disk.new }
    ensures time { GoesOnFrom D.state D.left_between disk.old disk.new }
    ensures faults { CountsOn D.state disk.old disk.new result }
    ensures written { WritesAtMost D.state (length bytes.now) disk.old disk.new }
    ensures asked { (D.state disk.new).asked ≡ (D.state disk.old).asked }
{
    match disk.write_at(at, bytes) {
        Ok(()) => Ok(()),
        Err(Failed) => Err(Step::Write),
    }
}

/// Puts bytes at a place before the end, and makes them stable.
pub(crate) fn put_stable<D: Disk>(disk: &mut D, at: u64, bytes: &[u8]) -> Result<(), Step>
    requires { at + length bytes.now ≤ (D.state disk.old).size }
    ensures puts { Puts D.Disk at bytes.now disk.old disk.new }
    ensures put { OnOk result (HasPut D.Disk at bytes.now disk.old disk.new) }
    ensures faults { CountsOn D.state disk.old disk.new result }
{
    put_bytes(disk, at, bytes)?;
    settle(disk)
}

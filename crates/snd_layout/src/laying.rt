//! The head of a file that is made: it replaces what a disk holds.

ghost use Rattle.std.specs.Prelude.{◌≡◌, ◌≤◌, OnOk, is_some, length};
ghost use Rattle.snd_disk.specs.Device.{CountsOn, GoesOnFrom, WritesAtMost};
ghost use Rattle.snd_disk.specs.State.{IsCut};
ghost use Rattle.snd_layout.specs.Laid.{HoldsJust};

use snd_disk::{Disk, Step};

// Takes all bytes from a disk.
fn empty<D: Disk>(disk: &mut D) -> Result<(), Step>
    ensures done { OnOk result (IsCut 0 (D.state disk.old) (D.state disk.new)) }
    ensures faults { CountsOn D.state disk.old disk.new result }
    ensures name { (D.state disk.new).name ≡ (D.state disk.old).name }
    ensures told { is_some (D.state disk.new).contents ≡ is_some (D.state disk.old).contents }
    ensures time { GoesOnFrom D.state D.left_between disk.old disk.new }
    ensures written { (D.state disk.new).written ≡ (D.state disk.old).written }
    ensures asked { (D.state disk.new).asked ≡ (D.state disk.old).asked }
{
    let Ok(()) = disk.cut(0) else {
        return Err(Step::Cut);
    };
    Ok(())
}

// Writes all bytes of an empty disk.
fn fill<D: Disk>(disk: &mut D, bytes: &[u8]) -> Result<(), Step>
    requires empty { (D.state disk.old).size ≡ 0 }
    requires few { length bytes.now ≤ 2048 }
    ensures done { OnOk result (HoldsJust bytes.now (D.state disk.old) (D.state disk.new)) }
    ensures faults { CountsOn D.state disk.old disk.new result }
    ensures name { (D.state disk.new).name ≡ (D.state disk.old).name }
    ensures told { is_some (D.state disk.new).contents ≡ is_some (D.state disk.old).contents }
    ensures time { GoesOnFrom D.state D.left_between disk.old disk.new }
    ensures written { WritesAtMost D.state 2048 disk.old disk.new }
    ensures asked { (D.state disk.new).asked ≡ (D.state disk.old).asked }
{
    let Ok(()) = disk.write_at(0, bytes) else {
        return Err(Step::Write);
    };
    Ok(())
}

/// Replaces what a disk holds by these bytes, of which there are at most 2048. It reads nothing. The error
/// is the call of the disk that failed; what the disk holds then is not said.
pub fn write_whole<D: Disk>(disk: &mut D, bytes: &[u8]) -> Result<(), Step>
    requires { length bytes.now ≤ 2048 }
    ensures done { OnOk result (HoldsJust bytes.now (D.state disk.old) (D.state disk.new)) }
    ensures faults { CountsOn D.state disk.old disk.new result }
    ensures name { (D.state disk.new).name ≡ (D.state disk.old).name }
    ensures told { is_some (D.state disk.new).contents ≡ is_some (D.state disk.old).contents }
    ensures time { GoesOnFrom D.state D.left_between disk.old disk.new }
    ensures written { WritesAtMost D.state 2048 disk.old disk.new }
    ensures asked { (D.state disk.new).asked ≡ (D.state disk.old).asked }
{
    empty(disk)?;
    fill(disk, bytes)?;
    Ok(())
}

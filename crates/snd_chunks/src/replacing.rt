//! The calls of a disk that replace what it holds from a place on.

ghost use Rattle.std.specs.Prelude.{◌≡◌, ◌+◌, ◌<◌, ◌≤◌, ◌^◌, OnOk, is_some, length};
ghost use Rattle.snd_disk.specs.Device.{CountsOn, GoesOnFrom, WritesAtMost};
ghost use Rattle.snd_disk.specs.State.{IsCut, IsWritten};
ghost use Rattle.snd_chunks.specs.Replaced.{IsReplaced};

use snd_disk::{Disk, Step};

// Shortens a disk to a length.
fn cut_to<D: Disk>(disk: &mut D, len: u64) -> Result<(), Step>
    requires { len ≤ (D.state disk.old).size }
    ensures done { OnOk result (IsCut len (D.state disk.old) (D.state disk.new)) }
    ensures faults { CountsOn D.state disk.old disk.new result }
    ensures name { (D.state disk.new).name ≡ (D.state disk.old).name }
    ensures told { is_some (D.state disk.new).contents ≡ is_some (D.state disk.old).contents }
    ensures time { GoesOnFrom D.state D.left_between disk.old disk.new }
    ensures written { (D.state disk.new).written ≡ (D.state disk.old).written }
    ensures asked { (D.state disk.new).asked ≡ (D.state disk.old).asked }
{
    let Ok(()) = disk.cut(len) else {
        return Err(Step::Cut);
    };
    Ok(())
}

// Puts bytes at a place.
fn put_bytes<D: Disk>(disk: &mut D, at: u64, bytes: &[u8]) -> Result<(), Step>
    requires { at + length bytes.now < 2 ^ 63 }
    ensures done { OnOk result (IsWritten at bytes.now (D.state disk.old) (D.state disk.new)) }
    ensures faults { CountsOn D.state disk.old disk.new result }
    ensures name { (D.state disk.new).name ≡ (D.state disk.old).name }
    ensures told { is_some (D.state disk.new).contents ≡ is_some (D.state disk.old).contents }
    ensures time { GoesOnFrom D.state D.left_between disk.old disk.new }
    ensures written { WritesAtMost D.state (length bytes.now) disk.old disk.new }
    ensures asked { (D.state disk.new).asked ≡ (D.state disk.old).asked }
{
    let Ok(()) = disk.write_at(at, bytes) else {
        return Err(Step::Write);
    };
    Ok(())
}

/// Replaces what a disk holds from a place on by these bytes, and puts the size of the whole at another.
pub fn replace_from<D: Disk>(
    disk: &mut D,
    at: u64,
    bytes: &[u8],
    size_at: u64,
    size: &[u8],
) -> Result<(), Step>
    requires there { at ≤ (D.state disk.old).size }
    requires early { size_at + length size.now ≤ at }
    requires few { at + length bytes.now < 2 ^ 63 }
    ensures done { OnOk result (IsReplaced at bytes.now size_at size.now (D.state disk.old) (D.state disk.new)) }
    ensures faults { CountsOn D.state disk.old disk.new result }
    ensures name { (D.state disk.new).name ≡ (D.state disk.old).name }
    ensures told { is_some (D.state disk.new).contents ≡ is_some (D.state disk.old).contents }
    ensures time { GoesOnFrom D.state D.left_between disk.old disk.new }
    ensures written { WritesAtMost D.state (length bytes.now + length size.now) disk.old disk.new }
    ensures asked { (D.state disk.new).asked ≡ (D.state disk.old).asked }
{
    cut_to(disk, at)?;
    put_bytes(disk, at, bytes)?;
    put_bytes(disk, size_at, size)
}

//! The calls of a disk that an update makes.

ghost use Rattle.std.specs.Prelude.{◌≡◌, ◌+◌, ◌<◌, ◌≤◌, ◌^◌, [], ◌∷◌, ℕ, length, take, OnOk};
ghost use Rattle.snd_disk.specs.Bytes.{over};
ghost use Rattle.snd_disk.specs.Device.{CountsOn, GoesOnFrom, IsStable};
ghost use Rattle.snd_disk.specs.Runs.{Since};
ghost use Rattle.snd_disk.specs.State.{IsCut, IsWritten, Keeps};
ghost use Rattle.snd_layout.specs.Shape.{Shape, end};
ghost use Rattle.snd_patch.specs.Steps.{IsOutside, Runs, Updates};

use snd_disk::{Disk, Failed, Step};

/// Makes the contents stable.
pub(crate) fn settle<D: Disk>(disk: &mut D) -> Result<(), Step>
    ensures same { Keeps (D.state disk.old) (D.state disk.new) }
    ensures stable { OnOk result (IsStable D.state D.may_leave disk.new) }
    ensures run { Since D.state D.may_leave D.left_between disk.old disk.new [] }
    ensures time { GoesOnFrom D.state D.left_between disk.old disk.new }
    ensures faults { CountsOn D.state disk.old disk.new result }
    ensures written { (D.state disk.new).written ≡ (D.state disk.old).written }
    ensures asked { (D.state disk.new).asked ≡ (D.state disk.old).asked }
{
    match disk.sync() {
        Ok(()) => Ok(()),
        Err(Failed) => Err(Step::Sync),
    }
}

/// Puts bytes at a place.
pub(crate) fn put_bytes<D: Disk>(disk: &mut D, at: u64, bytes: &[u8]) -> Result<(), Step>
    requires { at + length bytes.now < 2 ^ 63 }
    ensures done { OnOk result (IsWritten at bytes.now (D.state disk.old) (D.state disk.new)) }
    ensures run { Runs D.state D.may_leave D.left_between (λ b. over b at bytes.now ∷ []) disk.old disk.new }
    ensures updates { (h : Shape) (n : ℕ) → IsOutside h n at (length bytes.now) → Updates D.state D.left_between h n (length bytes.now) disk.old disk.new }
    ensures faults { CountsOn D.state disk.old disk.new result }
{
    match disk.write_at(at, bytes) {
        Ok(()) => Ok(()),
        Err(Failed) => Err(Step::Write),
    }
}

/// Shortens the disk to a length.
pub(crate) fn cut_to<D: Disk>(disk: &mut D, len: u64) -> Result<(), Step>
    requires { len ≤ (D.state disk.old).size }
    ensures done { OnOk result (IsCut len (D.state disk.old) (D.state disk.new)) }
    ensures run { Runs D.state D.may_leave D.left_between (λ b. take len b ∷ []) disk.old disk.new }
    ensures updates { (h : Shape) (n : ℕ) → end h n ≤ len → Updates D.state D.left_between h n 0 disk.old disk.new }
    ensures faults { CountsOn D.state disk.old disk.new result }
{
    match disk.cut(len) {
        Ok(()) => Ok(()),
        Err(Failed) => Err(Step::Cut),
    }
}

//! Two fields changed in an order that a crash cannot hurt: how a change reads off the laws.

ghost use Rattle.std.specs.Prelude.{◌≡◌, ◌+◌, ◌≤◌, [], ◌∷◌, List, ℕ, length, Some, OnOk, option_map};
ghost use Rattle.snd_disk.specs.State.{Keeps};
ghost use Rattle.snd_disk.specs.Device.{CountsOn, IsStable, Tells};
ghost use Rattle.snd_disk.specs.Bytes.{over};
ghost use Rattle.snd_disk.specs.Runs.{Since, ChangesInOrder};

use crate::{Disk, Failed, Step};

/// Makes the contents stable.
fn settle<D: Disk>(disk: &mut D) -> Result<(), Step>
    ensures same { Keeps (D.state disk.old) (D.state disk.new) }
    ensures durable { OnOk result (IsStable D.state D.may_leave disk.new) }
    ensures run { Since D.state D.may_leave D.left_between disk.old disk.new [] }
    ensures faults { CountsOn D.state disk.old disk.new result }
{
    match disk.sync() {
        Ok(()) => Ok(()),
        Err(Failed) => Err(Step::Sync),
    }
}

/// Writes a field, and makes it stable.
fn put_field<D: Disk>(disk: &mut D, at: u64, bytes: &[u8]) -> Result<(), Step>
    requires { at + length bytes.now ≤ (D.state disk.old).size }
    ensures contents { OnOk result ((D.state disk.new).contents ≡ option_map (λ b. over b at bytes.now) (D.state disk.old).contents) }
    ensures size { OnOk result ((D.state disk.new).size ≡ (D.state disk.old).size) }
    ensures durable { OnOk result (IsStable D.state D.may_leave disk.new) }
    ensures run { (b : List ℕ) → (D.state disk.old).contents ≡ Some b → Since D.state D.may_leave D.left_between disk.old disk.new (over b at bytes.now ∷ []) }
    ensures faults { CountsOn D.state disk.old disk.new result }
{
    match disk.write_at(at, bytes) {
        Ok(()) => {}
        Err(Failed) => return Err(Step::Write),
    }
    settle(disk)
}

/// Writes two fields that have no byte in common, the second once the first is stable. Whatever stops
/// the call, the second field is old unless the first is new, and the rest is untouched.
pub fn patch_two<D: Disk>(
    disk: &mut D,
    first_at: u64,
    first: &[u8],
    second_at: u64,
    second: &[u8],
) -> Result<(), Step>
    requires first { first_at + length first.now ≤ (D.state disk.old).size }
    requires second { second_at + length second.now ≤ (D.state disk.old).size }
    ensures contents { OnOk result ((D.state disk.new).contents ≡ option_map (λ b. over (over b first_at first.now) second_at second.now) (D.state disk.old).contents) }
    ensures durable { OnOk result (IsStable D.state D.may_leave disk.new) }
    ensures any_moment { ChangesInOrder D.state D.may_leave D.left_between disk.old disk.new first_at first.now second_at second.now }
    ensures faults { CountsOn D.state disk.old disk.new result }
{
    settle(disk)?;
    put_field(disk, first_at, first)?;
    put_field(disk, second_at, second)
}

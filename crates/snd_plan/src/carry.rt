//! What whoever moves the bytes is to do, as a call over any disk.

ghost use Rattle.std.specs.Prelude.{◌≡◌, ◌⊎◌, ◌+◌, ◌<◌, ◌≤◌, ◌^◌, ℕ, List, [], drop, length, OnOk, OnErr, true};
ghost use Rattle.snd_disk.specs.Device.{CountsOn, PassesOn, Tells};
ghost use Rattle.snd_plan.specs.Operations.{operation_of, shortens, tape_end, file_end};
ghost use Rattle.snd_plan.specs.Disks.{held_length, plan_state, planned};
ghost use Rattle.snd_plan.specs.Images.{CarriesOut, HasShown, LeavesAfter, LeavesOnTheWay, Resizes, left_after};

use crate::{PlanDisk, Planned};
use snd_disk::{Disk, Failed};

/// Carries out one operation. The bytes of a write stand on the tape.
fn carry_one<D: Disk>(step: Planned, tape: &[u8], onto: &mut D) -> Result<(), Failed>
    requires taped { tape_end step ≤ length tape.now }
    requires placed { file_end step < 2 ^ 63 }
    requires shortens { shortens (operation_of tape.now step) (D.state onto.old).size ≡ true }
    ensures done { OnOk result (CarriesOut D.state (operation_of tape.now step) onto.old onto.new) }
    ensures size { OnOk result (Resizes D.state (operation_of tape.now step) onto.old onto.new) }
    ensures images { OnOk result ((b : List ℕ) → Tells D.state onto.old b → (x : List ℕ) → D.may_leave onto.new x
        → left_after (operation_of tape.now step) b (D.may_leave onto.old) x) }
    ensures broken { OnErr result ((b : List ℕ) → Tells D.state onto.old b → (x : List ℕ) → D.may_leave onto.new x
        → left_after (operation_of tape.now step) b (D.may_leave onto.old) x ⊎ D.may_leave onto.old x) }
    ensures time { PassesOn D.state D.may_leave D.left_between onto.old onto.new }
    ensures faults { CountsOn D.state onto.old onto.new result }
{
    match step {
        Planned::Write { at, from, len } => onto.write_at(at, &tape[from..from + len]),
        Planned::Cut { len } => onto.cut(len),
        Planned::Sync => onto.sync(),
    }
}

/// Carries out on the file all that a disk plans, in its order. A call that fails ends it: that
/// operation and those behind it are still planned.
pub fn carry_out<D: Disk>(plan: &mut PlanDisk, onto: &mut D) -> Result<(), Failed>
    requires { (D.state onto.old).size ≡ held_length plan.old }
    ensures done { OnOk result (HasShown D.state plan.old onto.old onto.new) }
    ensures size { OnOk result ((D.state onto.new).size ≡ (plan_state plan.old).size) }
    ensures images { OnOk result (LeavesAfter D.state D.may_leave (planned plan.old) onto.old onto.new) }
    ensures moments { LeavesOnTheWay D.state D.may_leave D.left_between (planned plan.old) onto.old onto.new }
    ensures faults { CountsOn D.state onto.old onto.new result }
    ensures none_left { OnOk result (planned plan.new ≡ []) }
    ensures stops { OnErr result ((k : ℕ) × (k < length (planned plan.old)) × (planned plan.new ≡ drop k (planned plan.old))) }
    ensures file { OnOk result (held_length plan.new ≡ (plan_state plan.old).size) }
    ensures state { plan_state plan.new ≡ plan_state plan.old }
{
    while let Some(step) = plan.first() {
        let Ok(()) = carry_one(step, plan.tape(), onto) else {
            return Err(Failed);
        };
        plan.carried();
    }
    Ok(())
}

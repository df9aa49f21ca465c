//! A head that gets a reservation.

ghost use Rattle.std.specs.Prelude.{◌≡◌, [], Some, true, OnErr, OnOk};
ghost use Rattle.snd_container.specs.Put.{IsHeadOf, heads_for};
ghost use Rattle.snd_disk.specs.Device.{CountsOn, GoesOnFrom, WritesAtMost};
ghost use Rattle.snd_layout.specs.Laid.{HoldsJust};
ghost use Rattle.snd_layout.specs.Params.{AreParams};
ghost use Rattle.snd_layout.specs.Shape.{KeepsRule};
ghost use Rattle.snd_layout.specs.declared.kind.Kind.TheVariants.{Wave};
ghost use Rattle.snd_patch.specs.Steps.{StillTells};
ghost use Rattle.snd_reservations.specs.States.{has_place, reserved_shape};

use snd_container::lay_reserved;
use snd_disk::{Disk, Step};
use snd_layout::Layout;

/// Lays the head of a layout anew with a reservation, for which it has a place, and tells what holds of the
/// layout then.
pub fn lay_ruled<D: Disk>(disk: &mut D, layout: &mut Layout) -> Result<(), Step>
    requires place { has_place layout.old ≡ true }
    requires head { IsHeadOf (D.state disk.old) layout.old layout.old.params [] }
    ensures rule { OnOk result (KeepsRule layout.new) }
    ensures params { OnOk result (AreParams layout.new.params) }
    ensures laid { OnOk result (HoldsJust ((heads_for (Some 28) Wave).head layout.old.params []) (D.state disk.old) (D.state disk.new)) }
    ensures layout { OnOk result (layout.new ≡ reserved_shape layout.old) }
    ensures head { OnOk result (IsHeadOf (D.state disk.new) layout.new layout.old.params []) }
    ensures kept { OnErr result (layout.new ≡ layout.old) }
    ensures faults { CountsOn D.state disk.old disk.new result }
    ensures tells { StillTells (D.state disk.old) (D.state disk.new) }
    ensures time { GoesOnFrom D.state D.left_between disk.old disk.new }
    ensures written { WritesAtMost D.state 2048 disk.old disk.new }
    ensures asked { (D.state disk.new).asked ≡ (D.state disk.old).asked }
{
    lay_reserved(disk, layout)?;
    layout.keeps_rule();
    layout.params.are_good();
    Ok(())
}

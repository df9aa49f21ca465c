//! The number of frames that a file says, changed.

ghost use Rattle.std.specs.Prelude.{◌≡◌, ◌+◌, ◌^◌, ◌<◌, ◌≤◌, false, true, OnErr, OnOk, take};
ghost use Rattle.snd_disk.specs.Device.{CountsOn, GoesOnFrom, IsStable, WritesAtMost};
ghost use Rattle.snd_layout.specs.Shape.{end};
ghost use Rattle.snd_layout.specs.Container.{HasRoomFor};
ghost use Rattle.snd_patch.specs.Images.{LeavesCounting, LeavesCutting, LeavesEach, LeavesGrowing, LeavesSealing, LeavesShrinking, held_cut};
ghost use Rattle.snd_patch.specs.Sealed.{counted, grown, over_closing, patched, sealed, sealed_size, shrunk};
ghost use Rattle.snd_container.specs.Values.{closed_end};
ghost use Rattle.snd_patch.specs.Steps.{Becomes, KeepsBeside, KeepsSize, MayCount, Runs, StillTells, Updates};

use crate::fields::{close_data, lower, put_closing, raise};
use crate::steps::{cut_to, settle};
use snd_container::data_bytes;
use snd_disk::{Disk, Step};
use snd_layout::Layout;

// Notes that the head says so many frames.
fn count(layout: &mut Layout, to: u64)
    requires room { HasRoomFor layout.old to }
    requires on_disk { end layout.old to + 8 ≤ 2 ^ 63 }
    requires free { layout.old.trailing ≡ false }
    ensures { layout.new ≡ counted layout.old to }
{
    layout.keeps_rule();
    let bytes = data_bytes(layout, to);
    layout.declared = bytes;
    layout.frames = to;
}

// Puts the fields, in the order for the data that the head declares.
fn patch<D: Disk>(disk: &mut D, layout: &Layout, to: u64) -> Result<(), Step>
    requires { MayCount layout.now to (D.state disk.old).size }
    ensures contents { OnOk result (Becomes D.state (λ b. patched b layout.now to) disk.old disk.new) }
    ensures size { OnOk result (KeepsSize D.state disk.old disk.new) }
    ensures stable { OnOk result (IsStable D.state D.may_leave disk.new) }
    ensures leaves { LeavesCounting D.Disk layout.now to disk.old disk.new }
    ensures updates { Updates D.state D.left_between layout.now to 48 disk.old disk.new }
    ensures faults { CountsOn D.state disk.old disk.new result }
{
    if layout.declared <= data_bytes(layout, to) {
        raise(disk, layout, to)
    } else {
        lower(disk, layout, to)
    }
}

/// Puts what closes the data of so many frames, which are on the disk already, cuts all behind it, and
/// makes that stable.
pub fn cut_behind<D: Disk>(disk: &mut D, layout: &Layout, to: u64) -> Result<(), Step>
    requires { MayCount layout.now to (D.state disk.old).size }
    ensures contents { OnOk result (Becomes D.state (λ b. take (closed_end layout.now to) (over_closing b layout.now to)) disk.old disk.new) }
    ensures size { OnOk result ((D.state disk.new).size ≡ closed_end layout.now to) }
    ensures stable { OnOk result (IsStable D.state D.may_leave disk.new) }
    ensures run { Runs D.state D.may_leave D.left_between (λ b. held_cut b layout.now to) disk.old disk.new }
    ensures leaves { LeavesCutting D.Disk layout.now to disk.old disk.new }
    ensures updates { Updates D.state D.left_between layout.now to 8 disk.old disk.new }
    ensures faults { CountsOn D.state disk.old disk.new result }
{
    let place = put_closing(disk, layout, to)?;
    cut_to(disk, place)?;
    settle(disk)
}

/// Brings the fields up to a number of frames whose data are on the disk already, at least as many as
/// there were. Where the file goes on behind its data, it is left as it is.
///
/// The calls of the disk: sync; the field that decides the count; sync; the others; sync. Where the file
/// goes on behind its data, a sync alone. Where one fails, so does this call, and the layout stays.
pub fn grow<D: Disk>(disk: &mut D, layout: &mut Layout, to: u64) -> Result<(), Step>
    requires counts { MayCount layout.old to (D.state disk.old).size }
    requires more { layout.old.frames ≤ to }
    requires stays { layout.old.trailing ≡ true → layout.old.frames ≡ to }
    ensures contents { OnOk result (Becomes D.state (λ b. grown b layout.old to) disk.old disk.new) }
    ensures size { OnOk result (KeepsSize D.state disk.old disk.new) }
    ensures stable { OnOk result (IsStable D.state D.may_leave disk.new) }
    ensures layout { OnOk result (layout.new ≡ counted layout.old to) }

    ensures kept { OnErr result (layout.new ≡ layout.old) }
    ensures beside { KeepsBeside D.state layout.old to disk.old disk.new }
    ensures tells { StillTells (D.state disk.old) (D.state disk.new) }

    ensures leaves { LeavesGrowing D.Disk layout.old to disk.old disk.new }
    ensures still { layout.old.trailing ≡ true → LeavesEach D.Disk disk.old disk.new (D.may_leave disk.old) }

    ensures time { GoesOnFrom D.state D.left_between disk.old disk.new }
    ensures faults { CountsOn D.state disk.old disk.new result }
    ensures written { WritesAtMost D.state 64 disk.old disk.new }
    ensures asked { (D.state disk.new).asked ≡ (D.state disk.old).asked }
{
    if layout.trailing {
        return settle(disk);
    }
    raise(disk, layout, to)?;
    count(layout, to);
    Ok(())
}

/// Brings the fields down to a number of frames, fewer than there were, and cuts all behind their data but
/// what closes them. The file does not go on behind its data.
///
/// The calls of the disk: sync; the fields but for the one that decides the count; sync; that one; sync;
/// what closes the data; the cut; sync. Where one fails, so does this call, and the layout stays.
pub fn shrink<D: Disk>(disk: &mut D, layout: &mut Layout, to: u64) -> Result<(), Step>
    requires counts { MayCount layout.old to (D.state disk.old).size }
    requires fewer { to < layout.old.frames }
    requires free { layout.old.trailing ≡ false }
    ensures contents { OnOk result (Becomes D.state (λ b. shrunk b layout.old to) disk.old disk.new) }
    ensures size { OnOk result ((D.state disk.new).size ≡ closed_end layout.old to) }
    ensures stable { OnOk result (IsStable D.state D.may_leave disk.new) }
    ensures layout { OnOk result (layout.new ≡ counted layout.old to) }

    ensures kept { OnErr result (layout.new ≡ layout.old) }
    ensures beside { KeepsBeside D.state layout.old to disk.old disk.new }
    ensures tells { StillTells (D.state disk.old) (D.state disk.new) }

    ensures leaves { LeavesShrinking D.Disk layout.old to disk.old disk.new }

    ensures time { GoesOnFrom D.state D.left_between disk.old disk.new }
    ensures faults { CountsOn D.state disk.old disk.new result }
    ensures written { WritesAtMost D.state 72 disk.old disk.new }
    ensures asked { (D.state disk.new).asked ≡ (D.state disk.old).asked }
{
    lower(disk, layout, to)?;
    cut_behind(disk, layout, to)?;
    count(layout, to);
    Ok(())
}

/// Brings the fields to the frames of the layout, behind whose data all that closes them is put, where it
/// is not there. Where the file goes on behind its data, it is left as it is.
///
/// The calls of the disk: what closes the data, where the disk ends before it does; then the fields as in
/// `grow`, where the data are at least what the head declares, else in the order of `shrink`. Where the
/// file goes on behind its data, a sync alone. Where one fails, so does this call, and the layout stays.
pub fn seal<D: Disk>(disk: &mut D, layout: &mut Layout) -> Result<(), Step>
    requires counts { MayCount layout.old layout.old.frames (D.state disk.old).size }
    ensures contents { OnOk result (Becomes D.state (λ b. sealed b layout.old layout.old.frames) disk.old disk.new) }
    ensures size { OnOk result ((D.state disk.new).size ≡ sealed_size (D.state disk.old).size layout.old layout.old.frames) }
    ensures stable { OnOk result (IsStable D.state D.may_leave disk.new) }
    ensures layout { OnOk result (layout.new ≡ counted layout.old layout.old.frames) }

    ensures kept { OnErr result (layout.new ≡ layout.old) }
    ensures beside { KeepsBeside D.state layout.old layout.old.frames disk.old disk.new }
    ensures tells { StillTells (D.state disk.old) (D.state disk.new) }

    ensures leaves { LeavesSealing D.Disk layout.old layout.old.frames disk.old disk.new }
    ensures still { layout.old.trailing ≡ true → LeavesEach D.Disk disk.old disk.new (D.may_leave disk.old) }

    ensures time { GoesOnFrom D.state D.left_between disk.old disk.new }
    ensures faults { CountsOn D.state disk.old disk.new result }
    ensures written { WritesAtMost D.state 64 disk.old disk.new }
    ensures asked { (D.state disk.new).asked ≡ (D.state disk.old).asked }
{
    if layout.trailing {
        settle(disk)?;
        return Ok(());
    }
    let frames = layout.frames;
    close_data(disk, layout, frames)?;
    patch(disk, layout, frames)?;
    count(layout, frames);
    Ok(())
}

//! The fields of a head and what closes the data, put on a disk.

ghost use Rattle.std.specs.Prelude.{◌≡◌, ◌+◌, ◌<◌, ◌≤◌, ◌^◌, [], ◌∷◌, ℕ, IfOk, IfSome, length, max, nat_lt, OnOk};
ghost use Rattle.snd_disk.specs.Device.{CountsOn, IsStable};
ghost use Rattle.snd_disk.specs.Runs.{Since};
ghost use Rattle.snd_disk.specs.State.{Keeps};
ghost use Rattle.snd_layout.specs.Shape.{EndsBy, Shape, end};
ghost use Rattle.snd_layout.specs.Container.{FitsField};
ghost use Rattle.snd_layout.specs.Filled.{over_field};
ghost use Rattle.snd_patch.specs.Images.{LeavesGrowing, LeavesLowered, held_closing};
ghost use Rattle.snd_patch.specs.Sealed.{closed, held_field, held_others, over_closing, with_fewer, with_fields, with_inner, with_others};
ghost use Rattle.snd_container.specs.Values.{closed_end};
ghost use Rattle.snd_patch.specs.Steps.{Becomes, IsFieldOf, KeepsSize, MayCount, Runs, Updates};

use crate::steps::{put_bytes, settle};
use snd_container::{closing_bytes, data_bytes, inner_bytes, outer_bytes, side_bytes};
use snd_disk::{Disk, Failed, Step};
use snd_layout::{Field, Layout};

/// The place behind the data of so many frames.
pub fn data_end(layout: &Layout, frames: u64) -> u64
    requires { end layout.now frames < 2 ^ 63 }
    ensures { result ≡ end layout.now frames }
{
    layout.start + data_bytes(layout, frames)
}

/// Puts the number that decides the count.
pub(crate) fn write_inner<D: Disk>(disk: &mut D, layout: &Layout, to: u64) -> Result<(), Step>
    requires { MayCount layout.now to (D.state disk.old).size }
    ensures contents { OnOk result (Becomes D.state (λ b. with_inner b layout.now to) disk.old disk.new) }
    ensures size { OnOk result (KeepsSize D.state disk.old disk.new) }
    ensures run { Runs D.state D.may_leave D.left_between (λ b. with_inner b layout.now to ∷ []) disk.old disk.new }
    ensures updates { Updates D.state D.left_between layout.now to 32 disk.old disk.new }
    ensures faults { CountsOn D.state disk.old disk.new result }
{
    layout.keeps_rule();
    let bytes = inner_bytes(layout, to);
    put_bytes(disk, layout.inner.at, bytes.as_slice())
}

/// Puts the number that decides the count, and makes it stable.
pub(crate) fn put_inner<D: Disk>(disk: &mut D, layout: &Layout, to: u64) -> Result<(), Step>
    requires { MayCount layout.now to (D.state disk.old).size }
    ensures contents { OnOk result (Becomes D.state (λ b. with_inner b layout.now to) disk.old disk.new) }
    ensures size { OnOk result (KeepsSize D.state disk.old disk.new) }
    ensures stable { OnOk result (IsStable D.state D.may_leave disk.new) }
    ensures run { Runs D.state D.may_leave D.left_between (λ b. with_inner b layout.now to ∷ []) disk.old disk.new }
    ensures updates { Updates D.state D.left_between layout.now to 32 disk.old disk.new }
    ensures faults { CountsOn D.state disk.old disk.new result }
{
    write_inner(disk, layout, to)?;
    settle(disk)
}

// Puts bytes into a field, where it is there.
fn put_field<D: Disk>(disk: &mut D, field: Option<Field>, bytes: &[u8]) -> Result<(), Step>
    requires fits { FitsField field bytes.now }
    requires few { length bytes.now ≤ 8 }
    requires there { IfSome field (EndsBy (D.state disk.old).size) }
    ensures contents { OnOk result (Becomes D.state (λ b. over_field field b bytes.now) disk.old disk.new) }
    ensures size { OnOk result (KeepsSize D.state disk.old disk.new) }
    ensures run { Runs D.state D.may_leave D.left_between (λ b. held_field field b bytes.now) disk.old disk.new }
    ensures updates { (h : Shape) (n : ℕ) → IsFieldOf h field → Updates D.state D.left_between h n 8 disk.old disk.new }
    ensures faults { CountsOn D.state disk.old disk.new result }
{
    match field {
        Some(field) => put_bytes(disk, field.at, bytes),
        None => Ok(()),
    }
}

/// Puts the size of the whole and the count that is not read, and makes them stable.
pub(crate) fn put_others<D: Disk>(disk: &mut D, layout: &Layout, to: u64) -> Result<(), Step>
    requires { MayCount layout.now to (D.state disk.old).size }
    ensures contents { OnOk result (Becomes D.state (λ b. with_others b layout.now to) disk.old disk.new) }
    ensures size { OnOk result (KeepsSize D.state disk.old disk.new) }
    ensures stable { OnOk result (IsStable D.state D.may_leave disk.new) }
    ensures run { Runs D.state D.may_leave D.left_between (λ b. held_others b layout.now to) disk.old disk.new }
    ensures updates { Updates D.state D.left_between layout.now to 16 disk.old disk.new }
    ensures faults { CountsOn D.state disk.old disk.new result }
{
    layout.keeps_rule();
    let outer = outer_bytes(layout, to);
    let side = side_bytes(layout, to);
    put_field(disk, layout.outer, outer.as_slice())?;
    put_field(disk, layout.side, side.as_slice())?;
    settle(disk)
}

/// Puts the fields in the order in which a count grows.
pub(crate) fn raise<D: Disk>(disk: &mut D, layout: &Layout, to: u64) -> Result<(), Step>
    requires { MayCount layout.now to (D.state disk.old).size }
    ensures contents { OnOk result (Becomes D.state (λ b. with_fields b layout.now to) disk.old disk.new) }
    ensures size { OnOk result (KeepsSize D.state disk.old disk.new) }
    ensures stable { OnOk result (IsStable D.state D.may_leave disk.new) }
    ensures leaves { LeavesGrowing D.Disk layout.now to disk.old disk.new }
    ensures updates { Updates D.state D.left_between layout.now to 48 disk.old disk.new }
    ensures faults { CountsOn D.state disk.old disk.new result }
{
    layout.keeps_rule();
    settle(disk)?;
    put_inner(disk, layout, to)?;
    put_others(disk, layout, to)
}

/// Puts the fields in the order in which a count shrinks.
pub(crate) fn lower<D: Disk>(disk: &mut D, layout: &Layout, to: u64) -> Result<(), Step>
    requires { MayCount layout.now to (D.state disk.old).size }
    ensures contents { OnOk result (Becomes D.state (λ b. with_fewer b layout.now to) disk.old disk.new) }
    ensures size { OnOk result (KeepsSize D.state disk.old disk.new) }
    ensures stable { OnOk result (IsStable D.state D.may_leave disk.new) }
    ensures leaves { LeavesLowered D.Disk layout.now to disk.old disk.new }
    ensures updates { Updates D.state D.left_between layout.now to 48 disk.old disk.new }
    ensures faults { CountsOn D.state disk.old disk.new result }
{
    layout.keeps_rule();
    settle(disk)?;
    put_others(disk, layout, to)?;
    put_inner(disk, layout, to)
}

/// Puts what closes the data of so many frames, and gives the place behind it.
pub fn put_closing<D: Disk>(disk: &mut D, layout: &Layout, to: u64) -> Result<u64, Step>
    requires { MayCount layout.now to (D.state disk.old).size }
    ensures place { IfOk result (λ place. place ≡ closed_end layout.now to) }
    ensures contents { OnOk result (Becomes D.state (λ b. over_closing b layout.now to) disk.old disk.new) }
    ensures size { OnOk result ((D.state disk.new).size ≡ max (D.state disk.old).size (closed_end layout.now to)) }
    ensures run { Runs D.state D.may_leave D.left_between (λ b. over_closing b layout.now to ∷ []) disk.old disk.new }
    ensures updates { Updates D.state D.left_between layout.now to 8 disk.old disk.new }
    ensures faults { CountsOn D.state disk.old disk.new result }
{
    let bytes = closing_bytes(layout, to);
    let at = data_end(layout, to);
    put_bytes(disk, at, bytes.as_slice())?;
    Ok(at + bytes.len() as u64)
}

// Whether what closes the data of so many frames is not all there.
fn lacks_closing<D: Disk>(disk: &mut D, layout: &Layout, to: u64) -> Result<bool, Step>
    requires { MayCount layout.now to (D.state disk.old).size }
    ensures answer { IfOk result (λ missing. missing ≡ nat_lt (D.state disk.old).size (closed_end layout.now to)) }
    ensures same { Keeps (D.state disk.old) (D.state disk.new) }
    ensures run { Since D.state D.may_leave D.left_between disk.old disk.new [] }
    ensures updates { Updates D.state D.left_between layout.now to 0 disk.old disk.new }
    ensures faults { CountsOn D.state disk.old disk.new result }
{
    let bytes = closing_bytes(layout, to);
    let end = data_end(layout, to) + bytes.len() as u64;
    match disk.len() {
        Ok(size) => Ok(size < end),
        Err(Failed) => Err(Step::Len),
    }
}

/// Puts what closes the data of so many frames, where it is not all there.
pub(crate) fn close_data<D: Disk>(disk: &mut D, layout: &Layout, to: u64) -> Result<(), Step>
    requires { MayCount layout.now to (D.state disk.old).size }
    ensures contents { OnOk result (Becomes D.state (λ b. closed b layout.now to) disk.old disk.new) }
    ensures size { OnOk result ((D.state disk.new).size ≡ max (D.state disk.old).size (closed_end layout.now to)) }
    ensures run { Runs D.state D.may_leave D.left_between (λ b. held_closing b layout.now to) disk.old disk.new }
    ensures updates { Updates D.state D.left_between layout.now to 8 disk.old disk.new }
    ensures faults { CountsOn D.state disk.old disk.new result }
{
    if lacks_closing(disk, layout, to)? {
        put_closing(disk, layout, to)?;
    }
    Ok(())
}

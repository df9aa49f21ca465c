//! A WAVE file turned into RF64 in place.

ghost use Rattle.std.specs.Prelude.{◌≡◌, ◌⊎◌, ◌-◌, false, true, is_some, OnErr, OnOk};
ghost use Rattle.snd_disk.specs.Device.{CountsOn, GoesOnFrom, IsStable, WritesAtMost};
ghost use Rattle.snd_patch.specs.Sealed.{counted, sealed, sealed_size};
ghost use Rattle.snd_patch.specs.Steps.{Becomes, KeepsSize, MayCount, StillTells};
ghost use Rattle.snd_promote.specs.Images.{KeepsBesideFront, LeavesConverting, LeavesPromoting};
ghost use Rattle.snd_ds64.specs.Promoted.{new_front, new_size, promoted, promoted_shape};
ghost use Rattle.snd_promote.specs.Steps.{HasPut, Puts};

use crate::front::{front_bytes, note_promoted, size_place};
use crate::steps::put_stable;
use snd_disk::{Disk, Step};
use snd_layout::Layout;
use snd_patch::seal;

/// The data size of 32 bits that says nothing.
const NEW_SIZE: [u8; 4] = [0xff; 4];

// Puts the first bytes of RF64, and makes them stable.
fn put_front<D: Disk>(disk: &mut D, layout: &Layout) -> Result<(), Step>
    requires counts { MayCount layout.now layout.now.frames (D.state disk.old).size }
    requires reserved { is_some layout.now.reserve ≡ true }
    ensures puts { Puts D.Disk 0 (new_front layout.now layout.now.frames) disk.old disk.new }
    ensures put { OnOk result (HasPut D.Disk 0 (new_front layout.now layout.now.frames) disk.old disk.new) }
    ensures faults { CountsOn D.state disk.old disk.new result }
{
    layout.keeps_rule();
    let front = front_bytes(layout);
    put_stable(disk, 0, front.as_slice())
}

// Puts the data size of 32 bits, and makes it stable.
fn put_size<D: Disk>(disk: &mut D, layout: &Layout) -> Result<(), Step>
    requires counts { MayCount layout.now layout.now.frames (D.state disk.old).size }
    requires reserved { is_some layout.now.reserve ≡ true }
    ensures puts { Puts D.Disk (layout.now.start - 4) new_size disk.old disk.new }
    ensures put { OnOk result (HasPut D.Disk (layout.now.start - 4) new_size disk.old disk.new) }
    ensures faults { CountsOn D.state disk.old disk.new result }
{
    let at = size_place(layout);
    put_stable(disk, at, &NEW_SIZE)
}

// Puts the first bytes of RF64 and makes them stable, and then the data size of 32 bits.
fn convert<D: Disk>(disk: &mut D, layout: &Layout) -> Result<(), Step>
    requires counts { MayCount layout.now layout.now.frames (D.state disk.old).size }
    requires reserved { is_some layout.now.reserve ≡ true }
    ensures contents { OnOk result (Becomes D.state (λ b. promoted b layout.now layout.now.frames) disk.old disk.new) }
    ensures size { OnOk result (KeepsSize D.state disk.old disk.new) }
    ensures stable { OnOk result (IsStable D.state D.may_leave disk.new) }
    ensures leaves { LeavesConverting D.Disk layout.now layout.now.frames disk.old disk.new }
    ensures beside { KeepsBesideFront D.state layout.now layout.now.frames disk.old disk.new }
    ensures tells { StillTells (D.state disk.old) (D.state disk.new) }
    ensures time { GoesOnFrom D.state D.left_between disk.old disk.new }
    ensures faults { CountsOn D.state disk.old disk.new result }
    ensures written { WritesAtMost D.state 52 disk.old disk.new }
    ensures asked { (D.state disk.new).asked ≡ (D.state disk.old).asked }
{
    layout.keeps_rule();
    put_front(disk, layout)?;
    put_size(disk, layout)
}

/// Turns a WAVE file with a reservation, which does not go on behind its data, into RF64 in place (EBU Tech
/// 3306): its reserved chunk becomes `ds64`, which states the sizes in 64 bits. It keeps its parameters, its
/// samples and its further chunks, and from then on its data may grow past 4 GiB. A power cut at any moment
/// leaves the WAVE file or the RF64 file, each whole.
///
/// The calls of the disk: those of `seal`, the last of which is a sync; the first 48 bytes, which lie in one
/// sector; sync; the four bytes before the data; sync. Where one fails, so does this call, and the layout is
/// that of the file before it, or of the sealed file. It takes no memory, writes at most 116 bytes and reads
/// none.
pub fn promote<D: Disk>(disk: &mut D, layout: &mut Layout) -> Result<(), Step>
    requires counts { MayCount layout.old layout.old.frames (D.state disk.old).size }
    requires reserved { is_some layout.old.reserve ≡ true }
    requires free { layout.old.trailing ≡ false }
    ensures contents { OnOk result (Becomes D.state (λ b. promoted (sealed b layout.old layout.old.frames) layout.old layout.old.frames) disk.old disk.new) }
    ensures size { OnOk result ((D.state disk.new).size ≡ sealed_size (D.state disk.old).size layout.old layout.old.frames) }
    ensures stable { OnOk result (IsStable D.state D.may_leave disk.new) }
    ensures layout { OnOk result (layout.new ≡ promoted_shape layout.old layout.old.frames) }

    ensures kept { OnErr result ((layout.new ≡ layout.old) ⊎ (layout.new ≡ counted layout.old layout.old.frames)) }
    ensures beside { KeepsBesideFront D.state layout.old layout.old.frames disk.old disk.new }
    ensures tells { StillTells (D.state disk.old) (D.state disk.new) }

    ensures leaves { LeavesPromoting D.Disk layout.old layout.old.frames disk.old disk.new }

    ensures time { GoesOnFrom D.state D.left_between disk.old disk.new }
    ensures faults { CountsOn D.state disk.old disk.new result }
    ensures written { WritesAtMost D.state 116 disk.old disk.new }
    ensures asked { (D.state disk.new).asked ≡ (D.state disk.old).asked }
{
    layout.keeps_rule();
    seal(disk, layout)?;
    convert(disk, layout)?;
    note_promoted(layout);
    Ok(())
}

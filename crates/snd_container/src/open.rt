//! The layout of a file of any kind.

ghost use Rattle.std.specs.Prelude.{◌≡◌, ◌+◌, ◌^◌, ◌≤◌, All, IfOk, take};
ghost use Rattle.snd_disk.specs.Device.{AsksAtMost, OnlyReadsOn};
ghost use Rattle.snd_layout.specs.Opened.{CountsOpening, EndsIn, OpensAs};
ghost use Rattle.snd_layout.specs.Shape.{end, room};
ghost use Rattle.snd_container.specs.Recognised.{recognised};
ghost use Rattle.snd_container.specs.Sound.{layout_of};

use crate::recognition::recognise;
use snd_disk::{Disk, Step};
use snd_fields::Order;
use snd_layout::{Kind, Layout, OpenError};
use std::alloc::Global;

/// How many bytes tell the kind.
const MARK_BYTES: usize = 40;

// The kind of the file that a disk holds, by its first bytes.
fn kind_on<D: Disk>(disk: &mut D) -> Result<Kind, OpenError>
    ensures found { OpensAs D.state disk.old (λ b. recognised (take 40 b)) result }
    ensures faults { CountsOpening D.state disk.old disk.new result }
    ensures reads { OnlyReadsOn D.state D.may_leave D.left_between disk.old disk.new }
    ensures asked { AsksAtMost D.state 40 disk.old disk.new }
{
    let mut head = [0; MARK_BYTES];
    let Ok(count) = disk.read_at(0, &mut head) else {
        return Err(OpenError::DiskFault(Step::Read));
    };
    Ok(recognise(&head[..count])?)
}

/// Reads what a sound file says of itself. It reads heads and the format alone, at most 16384 bytes, and
/// never writes.
///
/// The answer is `Refused` with the first reason, by number, for which the file has no layout;
/// `DiskFault` where a call of the disk failed; `Memory` where there is none.
pub fn open_layout<D: Disk>(alloc: Global, disk: &mut D) -> Result<Layout, OpenError>
    ensures opened { OpensAs D.state disk.old layout_of result }
    ensures held { IfOk result (λ l. end l l.frames ≤ (D.state disk.old).size) }
    ensures room_ends { IfOk result (λ l. l.start + room l + 8 ≤ 2 ^ 63) }
    ensures pieces_held { IfOk result (λ l. All (EndsIn (D.state disk.old).size) l.pieces) }
    ensures faults { CountsOpening D.state disk.old disk.new result }
    ensures reads { OnlyReadsOn D.state D.may_leave D.left_between disk.old disk.new }
    ensures asked { AsksAtMost D.state 16384 disk.old disk.new }
{
    match kind_on(disk)? {
        Kind::Wave => snd_wave::open_layout(alloc, disk),
        Kind::Rf64 => snd_rf64::open_layout(alloc, disk),
        Kind::W64 => snd_w64::open_layout(alloc, disk),
        Kind::Au => snd_au::open_layout(alloc, disk, Order::Big),
        Kind::Dns => snd_au::open_layout(alloc, disk, Order::Little),
        Kind::Voc => snd_voc::open_layout(alloc, disk),
        Kind::Svx => snd_svx::open_layout(alloc, disk),
        Kind::Sphere => snd_sphere::open_layout(alloc, disk),
    }
}

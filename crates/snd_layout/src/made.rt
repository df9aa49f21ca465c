//! A file that is made: what it says of itself, and its head on a disk.

ghost use Rattle.std.specs.Prelude.{◌≡◌, ◌≤◌, IfErr, IfOk, OnOk, is_some, length};
ghost use Rattle.snd_disk.specs.Device.{GoesOnFrom, WritesAtMost};
ghost use Rattle.snd_layout.specs.Laid.{HoldsJust, IsLayCause};
ghost use Rattle.snd_layout.specs.Made.{made};
ghost use Rattle.snd_layout.specs.Opened.{CountsOpening};
ghost use Rattle.snd_layout.specs.Shape.{KeepsRule};

use crate::error::OpenError;
use crate::field::Field;
use crate::kind::Kind;
use crate::laying::write_whole;
use crate::layout::Layout;
use crate::params::Params;
use crate::piece::PieceList;
use snd_disk::Disk;
use std::alloc::Global;

impl Layout {
    /// What a file says of itself that is made without frames and without pieces: where its data begin,
    /// the field that decides the count, the size of the whole where the kind has one, and a count that
    /// is not read, where there is one.
    pub fn made(
        alloc: Global,
        kind: Kind,
        params: Params,
        start: u64,
        inner: Field,
        outer: Option<Field>,
        side: Option<Field>,
    ) -> Layout
        requires { KeepsRule (made kind params start inner outer side) }
        ensures { result ≡ made kind params start inner outer side }
    {
        Layout {
            kind,
            params,
            start,
            frames: 0,
            declared: 0,
            inner,
            outer,
            side,
            trailing: false,
            unknown_length: false,
            reserve: None,
            pieces: PieceList::new(alloc),
        }
    }
}

/// Replaces what a disk holds by the head of a file that is made, which has at most 2048 bytes, and
/// answers what that file says. It reads nothing. The only error is `DiskFault`, where a call of the disk
/// failed.
pub fn lay_made<D: Disk>(disk: &mut D, head: &[u8], layout: Layout) -> Result<Layout, OpenError>
    requires { length head.now ≤ 2048 }
    ensures laid { OnOk result (HoldsJust head.now (D.state disk.old) (D.state disk.new)) }
    ensures layout { IfOk result (λ l. l ≡ layout) }
    ensures cause { IfErr result (IsLayCause (D.state disk.old).faults (D.state disk.new).faults) }
    ensures faults { CountsOpening D.state disk.old disk.new result }
    ensures name { (D.state disk.new).name ≡ (D.state disk.old).name }
    ensures told { is_some (D.state disk.new).contents ≡ is_some (D.state disk.old).contents }
    ensures time { GoesOnFrom D.state D.left_between disk.old disk.new }
    ensures written { WritesAtMost D.state 2048 disk.old disk.new }
    ensures asked { (D.state disk.new).asked ≡ (D.state disk.old).asked }
{
    match write_whole(disk, head) {
        Ok(()) => Ok(layout),
        Err(step) => Err(OpenError::DiskFault(step)),
    }
}

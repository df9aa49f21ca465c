//! The numbers of a head.

ghost use Rattle.std.specs.Prelude.{◌≡◌, ◌≤◌, length};
ghost use Rattle.snd_disk.specs.Device.{AsksAtMost, CountsOn, IfOkTold, OnlyReadsOn};
ghost use Rattle.snd_au.specs.Layout.{numbers_of};

use snd_disk::{Disk, Step, fill};
use snd_fields::{Order, u32_at};

/// How many bytes a head has, and its data begin behind it at the earliest.
pub(crate) const HEAD_SIZE: u64 = 24;

/// The numbers behind the mark of a head.
#[derive(Clone, Copy, Debug, PartialEq, Eq)]
pub(crate) struct Numbers {
    /// The place of the first data byte.
    pub(crate) offset: u32,
    /// How many bytes the data have.
    pub(crate) bytes: u32,
    pub(crate) encoding: u32,
    /// Frames a second.
    pub(crate) rate: u32,
    pub(crate) channels: u32,
}

// The numbers in a head.
fn numbers_in(head: &[u8], order: Order) -> Numbers
    requires { 24 ≤ length head.now }
    ensures { result ≡ numbers_of order head.now }
{
    Numbers {
        offset: u32_at(head, 4, order),
        bytes: u32_at(head, 8, order),
        encoding: u32_at(head, 12, order),
        rate: u32_at(head, 16, order),
        channels: u32_at(head, 20, order),
    }
}

/// The numbers in the head of a file, which the disk has.
pub(crate) fn read_numbers<D: Disk>(disk: &mut D, order: Order) -> Result<Numbers, Step>
    requires { 24 ≤ (D.state disk.old).size }
    ensures told { IfOkTold D.state disk.old result (λ b numbers. numbers ≡ numbers_of order b) }
    ensures faults { CountsOn D.state disk.old disk.new result }
    ensures reads { OnlyReadsOn D.state D.may_leave D.left_between disk.old disk.new }
    ensures asked { AsksAtMost D.state 24 disk.old disk.new }
{
    let mut head = [0; HEAD_SIZE as usize];
    fill(disk, 0, &mut head)?;
    Ok(numbers_in(&head, order))
}

//! The chunk `ds64`.

ghost use Rattle.std.specs.Prelude.{◌≡◌, ◌+◌, ◌≤◌, ◌<◌, ◌^◌, IfOk, codes, drop, length, take};
ghost use Rattle.snd_disk.specs.Device.{AsksAtMost, OnlyReadsOn};
ghost use Rattle.snd_layout.specs.Opened.{CountsOpening, OpensAs};
ghost use Rattle.std.specs.Str.{bytes_eq};
ghost use Rattle.snd_rf64.specs.Layout.{sizes_of, sizes_told};
ghost use Rattle.snd_rf64.specs.Parts.{AreSizes};

use snd_disk::{Disk, fill};
use snd_fields::{Order, u32_at, u64_at};
use snd_layout::{OpenError, OpenRefusal};

/// The head of the whole, the head of `ds64`, its two sizes, its count and the length of its table.
const TOP_SIZE: usize = 48;

/// The bytes that `ds64` has at least.
const LEAST_LEN: u32 = 28;

/// The place of its first byte.
const BODY_AT: u64 = 20;

/// The greatest data size that counts.
const MOST_SOUND: u64 = (1 << 63) - 1;

/// What the chunk `ds64` says.
#[derive(Clone, Copy, Debug, PartialEq, Eq)]
pub(crate) struct Sizes {
    /// Where the chunk behind it begins.
    pub(crate) next: u64,
    /// The size of the whole, in which the first 8 bytes are not counted.
    pub(crate) whole: u64,
    /// The data size, at most 2^63 - 1.
    pub(crate) sound: u64,
}

// Whether the chunk at 12 is `ds64`.
fn is_sizes(top: &[u8]) -> bool
    requires { length top.now ≡ 48 }
    ensures { result ≡ bytes_eq (take 4 (drop 12 top.now)) (codes "ds64") }
{
    &top[12..16] == b"ds64".as_slice()
}

// What `ds64` says in the first bytes of a file of this size.
fn sizes_in(top: &[u8], size: u64) -> Result<Sizes, OpenRefusal>
    requires long { length top.now ≡ 48 }
    requires size { size < 2 ^ 63 }
    ensures value { result ≡ sizes_told size top.now }
    ensures are { IfOk result AreSizes }
{
    let len = u32_at(top, 16, Order::Little);
    let end = BODY_AT + u64::from(len);
    if !is_sizes(top) || len < LEAST_LEN || size < end {
        return Err(OpenRefusal::BadField);
    }
    Ok(Sizes {
        next: end + end % 2,
        whole: u64_at(top, 20, Order::Little),
        sound: u64_at(top, 28, Order::Little).min(MOST_SOUND),
    })
}

/// Reads `ds64` from a disk of `size` bytes: the answer is `ShortHeader` where the file is too short for
/// it, and `BadField` where it is not the first chunk, lacks fields or runs past the end.
pub(crate) fn read_sizes<D: Disk>(disk: &mut D, size: u64) -> Result<Sizes, OpenError>
    requires { size ≡ (D.state disk.old).size }
    ensures told { OpensAs D.state disk.old sizes_of result }
    ensures are { IfOk result AreSizes }
    ensures faults { CountsOpening D.state disk.old disk.new result }
    ensures reads { OnlyReadsOn D.state D.may_leave D.left_between disk.old disk.new }
    ensures asked { AsksAtMost D.state 48 disk.old disk.new }
{
    if size < TOP_SIZE as u64 {
        return Err(OpenError::Refused(OpenRefusal::ShortHeader));
    }
    let mut top = [0; TOP_SIZE];
    fill(disk, 0, &mut top)?;
    Ok(sizes_in(&top, size)?)
}

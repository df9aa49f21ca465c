//! The data of a sound, found by their mark.

ghost use Rattle.std.specs.Prelude.{◌≡◌, ◌+◌, ◌-◌, ◌*◌, ◌≤◌, IfOk, IfSome, option_map, length, drop, take};
ghost use Rattle.snd_disk.specs.Device.{AsksAtMost, CountsOn, IfOkTold, OnlyReadsOn};
ghost use Rattle.snd_search.specs.Marks.{IsFirstMark};
ghost use Rattle.snd_search.specs.Search.{behind_data};

use crate::mark::place_of;
use snd_disk::{Disk, Step, fill};

/// How many bytes are looked at in one go.
pub(crate) const BLOCK: u64 = 16384;

/// How far the next look begins behind the last one: a mark may begin in the last three bytes of a block.
pub(crate) const STRIDE: u64 = BLOCK - 3;

// The first place, from one on, at which a mark of four bytes stands in the first `size` bytes of a disk.
fn find_mark<D: Disk>(disk: &mut D, mark: &[u8], from: u64, size: u64) -> Result<Option<u64>, Step>
    requires size { size ≤ (D.state disk.old).size }
    requires mark { length mark.now ≡ 4 }
    ensures told { IfOkTold D.state disk.old result (λ b place. IsFirstMark mark.now (take size b) from place) }
    ensures placed { IfOk result (λ place. IfSome place (λ p. from ≤ p)) }
    ensures within { IfOk result (λ place. IfSome place (λ p. p + 4 ≤ size)) }
    ensures faults { CountsOn D.state disk.old disk.new result }
    ensures reads { OnlyReadsOn D.state D.may_leave D.left_between disk.old disk.new }
    ensures asked { AsksAtMost D.state (2 * (size - from)) disk.old disk.new }
{
    let mut block = [0; BLOCK as usize];
    let mut at = from;
    while at < size {
        let count = (size - at).min(BLOCK) as usize;
        let bytes = &mut block[..count];
        fill(disk, at, bytes)?;
        if let Some(place) = place_of(bytes, mark, 0) {
            return Ok(Some(at + place as u64));
        }
        at += STRIDE;
    }
    Ok(None)
}

/// The place behind the first head of data, from a place on: behind the four bytes of the mark, and four
/// more, in the first `size` bytes of a disk. At most twice the bytes from there on are asked.
pub fn find_data<D: Disk>(disk: &mut D, from: u64, size: u64) -> Result<Option<u64>, Step>
    requires { size ≤ (D.state disk.old).size }
    ensures told { IfOkTold D.state disk.old result (λ b start. behind_data (drop from (take size b)) ≡ option_map (λ s. drop s (take size b)) start) }
    ensures placed { IfOk result (λ start. IfSome start (λ s. from + 8 ≤ s)) }
    ensures within { IfOk result (λ start. IfSome start (λ s. s ≤ size)) }
    ensures faults { CountsOn D.state disk.old disk.new result }
    ensures reads { OnlyReadsOn D.state D.may_leave D.left_between disk.old disk.new }
    ensures asked { AsksAtMost D.state (2 * (size - from)) disk.old disk.new }
{
    let Some(place) = find_mark(disk, b"data", from, size)? else {
        return Ok(None);
    };
    if size - place < 8 {
        return Ok(None);
    }
    Ok(Some(place + 8))
}

//! The heads of chunks.

ghost use Rattle.std.specs.Prelude.{◌≡◌, ◌+◌, ◌<◌, ◌≤◌, ◌^◌, Some, IfSome, IfOk, length, take};
ghost use Rattle.snd_disk.specs.Device.{AsksAtMost, CountsOn, OnlyReadsOn, IfOkTold};
ghost use Rattle.snd_fields.specs.Field.{number};
ghost use Rattle.snd_chunks.specs.Chunks.{chunk_at, padded_end};
ghost use Rattle.snd_chunks.specs.Walks.{HasHeadAt};

use crate::chunk::Chunk;
use snd_disk::{Disk, Step, fill};
use snd_fields::{Id4, Order, u32_at};

const HEAD_SIZE: u64 = 8;

// The chunk whose head stands at a place.
fn chunk_of(order: Order, head: &[u8], place: u64) -> Chunk
    requires size { length head.now ≡ 8 }
    requires place { place + 8 < 2 ^ 63 }
    ensures id { result.id.0 ≡ take 4 head.now }
    ensures len { result.len ≡ number order head.now 4 4 }
    ensures at { result.at ≡ place + 8 }
    ensures next { result.next ≡ padded_end result.at result.len }
    ensures short { result.len < 2 ^ 32 }
{
    let len = u64::from(u32_at(head, 4, order));
    let at = place + HEAD_SIZE;
    Chunk {
        id: Id4([head[0], head[1], head[2], head[3]]),
        at,
        len,
        next: at + len + len % 2,
    }
}

/// Reads the head of the chunk at a place of a disk of `size` bytes: none where its 8 bytes are not all
/// in the file.
pub fn head_at<D: Disk>(
    disk: &mut D,
    order: Order,
    place: u64,
    size: u64,
) -> Result<Option<Chunk>, Step>
    requires { size ≡ (D.state disk.old).size }
    ensures told { IfOkTold D.state disk.old result (λ b chunk. chunk ≡ chunk_at order b place) }
    ensures placed { IfOk result (λ chunk. IfSome chunk (HasHeadAt size place)) }
    ensures faults { CountsOn D.state disk.old disk.new result }
    ensures reads { OnlyReadsOn D.state D.may_leave D.left_between disk.old disk.new }
    ensures asked { AsksAtMost D.state 8 disk.old disk.new }
{
    if size < HEAD_SIZE || size - HEAD_SIZE < place {
        return Ok(None);
    }
    let mut head = [0; HEAD_SIZE as usize];
    fill(disk, place, &mut head)?;
    Ok(Some(chunk_of(order, &head, place)))
}

//! Walks over the heads of chunks, each of which begins behind the one before it.

ghost use Rattle.std.specs.Prelude.{◌≡◌, ◌+◌, ◌*◌, ◌≤◌, ◌<◌, ◌^◌, Some, All, IfSome, IfOk, length};
ghost use Rattle.snd_disk.specs.Device.{AsksAtMost, CountsOn, OnlyReadsOn, IfOkTold};
ghost use Rattle.snd_chunks.specs.Chunks.{chunk_at, front, tail};
ghost use Rattle.snd_chunks.specs.Walks.{EndsBy, IsFront, IsSeen, ended_by, seen_of, CountsWalk};

use crate::chunk::Chunk;
use crate::error::WalkError;
use crate::front::{Ending, Front, Seen};
use crate::head::head_at;
use crate::list::ChunkList;
use snd_disk::{Disk, Step};
use snd_fields::{Id4, Order};
use std::alloc::Global;

// What a walk up to the sound sees where this chunk stands.
fn seen_of(chunk: Option<Chunk>, sound: Id4, end: u64) -> Seen
    requires { IfSome chunk (λ c. c.at + c.len < 2 ^ 64) }
    ensures { result ≡ seen_of sound.0 end chunk }
{
    let Some(chunk) = chunk else {
        return Seen::Nothing;
    };
    if chunk.id.0.as_slice() == sound.0.as_slice() {
        Seen::Sound(chunk)
    } else if chunk.end() <= end {
        Seen::Whole(chunk)
    } else {
        Seen::Nothing
    }
}

// The chunk, where it ends by a place.
fn ended_by(chunk: Option<Chunk>, end: u64) -> Option<Chunk>
    requires { IfSome chunk (λ c. c.at + c.len < 2 ^ 64) }
    ensures value { result ≡ ended_by end chunk }
{
    chunk.filter(|c| c.end() <= end)
}

// Looks at one place of a walk up to the sound.
fn look<D: Disk>(
    disk: &mut D,
    order: Order,
    sound: Id4,
    place: u64,
    size: u64,
) -> Result<Seen, Step>
    requires { size ≡ (D.state disk.old).size }
    ensures told { IfOkTold D.state disk.old result (λ b seen. seen ≡ seen_of sound.0 (length b) (chunk_at order b place)) }
    ensures placed { IfOk result (IsSeen size place) }
    ensures faults { CountsOn D.state disk.old disk.new result }
    ensures reads { OnlyReadsOn D.state D.may_leave D.left_between disk.old disk.new }
    ensures asked { AsksAtMost D.state 8 disk.old disk.new }
{
    let chunk = head_at(disk, order, place, size)?;
    Ok(seen_of(chunk, sound, size))
}

/// Walks up to the sound from a place on: over chunks that end within a disk of `size` bytes, until the
/// head of the chunk with the sound's identifier, a head that is cut or whose chunk is, or `most` chunks.
/// It asks 8 bytes for each head.
pub fn walk_front<D: Disk>(
    alloc: Global,
    disk: &mut D,
    order: Order,
    sound: Id4,
    size: u64,
    from: u64,
    most: usize,
) -> Result<Front, WalkError>
    requires { size ≡ (D.state disk.old).size }
    ensures told { IfOkTold D.state disk.old result (λ b f. f ≡ front (chunk_at order b) sound.0 (length b) most from) }
    ensures placed { IfOk result (IsFront size from most) }
    ensures faults { CountsWalk D.state disk.old disk.new result }
    ensures reads { OnlyReadsOn D.state D.may_leave D.left_between disk.old disk.new }
    ensures asked { AsksAtMost D.state (8 * most) disk.old disk.new }
{
    let mut chunks = ChunkList::new(alloc);
    let mut place = from;
    for _seen in 0..most {
        match look(disk, order, sound, place, size)? {
            Seen::Sound(chunk) => {
                let ending = Ending::AtSound(chunk);
                return Ok(Front { chunks, ending });
            }
            Seen::Whole(chunk) => {
                chunks.push(chunk)?;
                place = chunk.next;
            }
            Seen::Nothing => {
                let ending = Ending::Cut;
                return Ok(Front { chunks, ending });
            }
        }
    }
    let ending = Ending::TooMany;
    Ok(Front { chunks, ending })
}

// Looks at one place of a walk behind the sound.
fn look_behind<D: Disk>(
    disk: &mut D,
    order: Order,
    place: u64,
    size: u64,
    to: u64,
) -> Result<Option<Chunk>, Step>
    requires { size ≡ (D.state disk.old).size }
    ensures told { IfOkTold D.state disk.old result (λ b chunk. chunk ≡ ended_by to (chunk_at order b place)) }
    ensures placed { IfOk result (λ chunk. IfSome chunk (EndsBy to)) }
    ensures faults { CountsOn D.state disk.old disk.new result }
    ensures reads { OnlyReadsOn D.state D.may_leave D.left_between disk.old disk.new }
    ensures asked { AsksAtMost D.state 8 disk.old disk.new }
{
    let chunk = head_at(disk, order, place, size)?;
    Ok(ended_by(chunk, to))
}

/// Walks behind the sound, from a place of a disk of `size` bytes on: over chunks that end by `to`, and
/// at most `most` of them. It asks 8 bytes for each head.
pub fn walk_tail<D: Disk>(
    alloc: Global,
    disk: &mut D,
    order: Order,
    size: u64,
    to: u64,
    from: u64,
    most: usize,
) -> Result<ChunkList, WalkError>
    requires { size ≡ (D.state disk.old).size }
    ensures told { IfOkTold D.state disk.old result (λ b chunks. chunks ≡ tail (chunk_at order b) to most from) }
    ensures placed { IfOk result (All (EndsBy to)) }
    ensures faults { CountsWalk D.state disk.old disk.new result }
    ensures reads { OnlyReadsOn D.state D.may_leave D.left_between disk.old disk.new }
    ensures asked { AsksAtMost D.state (8 * most) disk.old disk.new }
{
    let mut chunks = ChunkList::new(alloc);
    let mut place = from;
    for _seen in 0..most {
        let Some(chunk) = look_behind(disk, order, place, size, to)? else {
            return Ok(chunks);
        };
        chunks.push(chunk)?;
        place = chunk.next;
    }
    Ok(chunks)
}

//! The walk over the heads of chunks, up to the data.

ghost use Rattle.std.specs.Prelude.{◌≡◌, ◌+◌, ◌≤◌, ◌<◌, ◌^◌, None, Some, IfSome, IfOk, length, take, if◌then◌else◌};
ghost use Rattle.snd_disk.specs.Device.{AsksAtMost, CountsOn, OnlyReadsOn, IfOkTold};
ghost use Rattle.snd_chunks.specs.Walks.{CountsWalk};
ghost use Rattle.snd_fields.specs.Field.{number};
ghost use Rattle.snd_fields.specs.declared.field.Order.TheVariants.{Little};
ghost use Rattle.snd_w64.specs.Layout.{chunk_at, chunk_with, is_long, letters, w64_front};
ghost use Rattle.snd_w64.specs.Parts.{HasHeadAt, IsFront, IsSeen, seen_of};

use crate::count::{raised, reached};
use crate::seen::Seen;
use snd_chunks::{Chunk, ChunkList, Ending, Front, WalkError};
use snd_disk::{Disk, Step, fill};
use snd_fields::{Id4, Order, u64_at};
use std::alloc::Global;

/// The head of a chunk: its identifier of 16 bytes, and its size.
const HEAD_SIZE: u64 = 24;

/// The last 12 bytes of the identifiers `wave`, `fmt `, `fact` and `data`.
pub(crate) const ID_END: [u8; 12] = [
    0xf3, 0xac, 0xd3, 0x11, 0x8c, 0xd1, 0x00, 0xc0, 0x4f, 0x8e, 0xdb, 0x8a,
];

/// The letters of the data chunk's identifier.
const DATA: [u8; 4] = *b"data";

/// The greatest length of a body.
const MOST_BODY: u64 = (1 << 63) - 1;

/// The place of the first chunk.
const FIRST_CHUNK: u64 = 40;

/// So many chunks before the data are too many.
const TOO_MANY: usize = 257;

// The letters of the identifier that begins a head, four zeros for one that has none.
fn letters_of(head: &[u8]) -> Id4
    requires { length head.now ≡ 24 }
    ensures { result.0 ≡ letters (take 16 head.now) }
{
    if &head[4..16] == ID_END.as_slice() {
        Id4([head[0], head[1], head[2], head[3]])
    } else {
        Id4([0; 4])
    }
}

// The chunk with these letters and this size, whose head stands at a place.
fn chunk_with(id: Id4, place: u64, size: u64) -> Chunk
    requires { place + 32 ≤ 2 ^ 63 }
    ensures value { result ≡ chunk_with id.0 place size }
    ensures len { result.len < 2 ^ 63 }
{
    let at = place + HEAD_SIZE;
    let len = size.saturating_sub(HEAD_SIZE).min(MOST_BODY);
    Chunk {
        id,
        at,
        len,
        next: raised(at + len),
    }
}

// The chunk whose head stands at a place; none where its size is below that of the head.
fn chunk_of(head: &[u8], place: u64) -> Option<Chunk>
    requires size { length head.now ≡ 24 }
    requires place { place + 32 ≤ 2 ^ 63 }
    ensures value { result ≡ (if is_long (letters (take 16 head.now)) (number Little head.now 16 8) then Some (chunk_with (letters (take 16 head.now)) place (number Little head.now 16 8)) else None) }
    ensures len { IfSome result (λ c. c.len < 2 ^ 63) }
{
    let id = letters_of(head);
    let size = u64_at(head, 16, Order::Little);
    if size < HEAD_SIZE && id.0.as_slice() != DATA.as_slice() {
        return None;
    }
    Some(chunk_with(id, place, size))
}

// Reads the head of the chunk at a place of a disk of `size` bytes: none where its 24 bytes are not all
// in the file, or its size is below these.
fn head_at<D: Disk>(disk: &mut D, place: u64, size: u64) -> Result<Option<Chunk>, Step>
    requires { size ≡ (D.state disk.old).size }
    ensures told { IfOkTold D.state disk.old result (λ b chunk. chunk ≡ chunk_at b place) }
    ensures placed { IfOk result (λ chunk. IfSome chunk (HasHeadAt size place)) }
    ensures faults { CountsOn D.state disk.old disk.new result }
    ensures reads { OnlyReadsOn D.state D.may_leave D.left_between disk.old disk.new }
    ensures asked { AsksAtMost D.state 24 disk.old disk.new }
{
    let end = reached(size);
    if end < HEAD_SIZE || end - HEAD_SIZE < place {
        return Ok(None);
    }
    let mut head = [0; HEAD_SIZE as usize];
    fill(disk, place, &mut head)?;
    Ok(chunk_of(&head, place))
}

// What a walk up to the data sees where this chunk stands.
fn seen_of(chunk: Option<Chunk>, end: u64) -> Seen
    requires { IfSome chunk (λ c. c.at + c.len < 2 ^ 64) }
    ensures { result ≡ seen_of end chunk }
{
    let Some(chunk) = chunk else {
        return Seen::Nothing;
    };
    if chunk.id.0.as_slice() == DATA.as_slice() {
        Seen::Sound(chunk)
    } else if chunk.end() <= end {
        Seen::Whole(chunk)
    } else {
        Seen::Nothing
    }
}

// Looks at one place of the walk.
fn look<D: Disk>(disk: &mut D, place: u64, size: u64) -> Result<Seen, Step>
    requires { size ≡ (D.state disk.old).size }
    ensures told { IfOkTold D.state disk.old result (λ b seen. seen ≡ seen_of (length b) (chunk_at b place)) }
    ensures placed { IfOk result (IsSeen size place) }
    ensures faults { CountsOn D.state disk.old disk.new result }
    ensures reads { OnlyReadsOn D.state D.may_leave D.left_between disk.old disk.new }
    ensures asked { AsksAtMost D.state 24 disk.old disk.new }
{
    let chunk = head_at(disk, place, size)?;
    Ok(seen_of(chunk, size))
}

/// Walks up to the data of a disk of `size` bytes. It asks 24 bytes for each head, of which there are at
/// most 257.
pub(crate) fn walk_front<D: Disk>(
    alloc: Global,
    disk: &mut D,
    size: u64,
) -> Result<Front, WalkError>
    requires { size ≡ (D.state disk.old).size }
    ensures told { IfOkTold D.state disk.old result (λ b f. f ≡ w64_front b) }
    ensures placed { IfOk result (IsFront size) }
    ensures faults { CountsWalk D.state disk.old disk.new result }
    ensures reads { OnlyReadsOn D.state D.may_leave D.left_between disk.old disk.new }
    ensures asked { AsksAtMost D.state 6168 disk.old disk.new }
{
    let mut chunks = ChunkList::new(alloc);
    let mut place = FIRST_CHUNK;
    for _seen in 0..TOO_MANY {
        match look(disk, place, size)? {
            Seen::Sound(chunk) => {
                let ending = Ending::AtSound(chunk);
                return Ok(Front { chunks, ending });
            }
            Seen::Whole(chunk) => {
                chunks.push(chunk)?;
                place = chunk.next;
            }
            Seen::Nothing => {
                let ending = Ending::Cut;
                return Ok(Front { chunks, ending });
            }
        }
    }
    let ending = Ending::TooMany;
    Ok(Front { chunks, ending })
}

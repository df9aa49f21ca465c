//! The bytes of blocks, read as many at a time as there is room for.

ghost use Rattle.std.specs.Prelude.{◌≡◌, ◌-◌, ◌*◌, ◌<◌, ◌≤◌, ◌↔◌, All, IfOk, IsErr, IsTrue, List, OnOk, length, max, true, ℕ};
ghost use Rattle.snd_ima_adpcm.specs.Frames.{Is16Bit};
ghost use Rattle.snd_disk.specs.Device.{CountsOn, OnlyReadsOn, Tells};
ghost use Rattle.snd_layout.specs.Blocks.{block_frames, is_adpcm};
ghost use Rattle.snd_layout.specs.Shape.{end};
ghost use Rattle.snd_blocks.specs.Cache.{block_numbers};
ghost use Rattle.snd_blocks.specs.Calls.{AsksForBlocks, HasRoomFor, is_bad_in};
ghost use Rattle.snd_blocks.specs.Fetching.{Fetches, HoldBlocks, block_among};
ghost use Rattle.snd_blocks.specs.Frames.{block_samples};

use crate::block::{align_of, decode, keeps_blocks, place_of};
use crate::buffer::MOST_BYTES;
use arrayvec::ArrayVec;
use snd_disk::{Disk, Step, fill};
use snd_ima_adpcm::BadBlock;
use snd_layout::Layout;

// Whose bytes were read last: those of the blocks from one up to another.
#[derive(Clone, Copy)]
pub(crate) struct Fetched {
    pub(crate) first: u64,
    pub(crate) next: u64,
}

// The number behind that of the last block that is read with one: there is room for so many, and those before `limit` may be read.
fn fetch_end(layout: &Layout, number: u64, limit: u64) -> u64
    requires blocks { is_adpcm layout.now.params.codec ≡ true }
    requires some { number < limit }
    ensures some { number < result }
    ensures most { result ≤ limit }
    ensures room { HasRoomFor layout.now (result - number) }
{
    keeps_blocks(layout);
    let room = MOST_BYTES as u64 / u64::from(align_of(layout));
    number + room.min(limit - number)
}

// Reads the bytes of blocks that have counted frames.
fn fetch<D: Disk>(
    disk: &mut D,
    layout: &Layout,
    number: u64,
    next: u64,
    bytes: &mut [u8; MOST_BYTES],
) -> Result<(), Step>
    requires blocks { is_adpcm layout.now.params.codec ≡ true }
    requires held { end layout.now layout.now.frames ≤ (D.state disk.old).size }
    requires some { number < next }
    requires within { (next - 1) * block_frames layout.now.params.codec < layout.now.frames }
    requires room { HasRoomFor layout.now (next - number) }
    ensures told { OnOk result ((b : List ℕ) → Tells D.state disk.old b → HoldBlocks b layout.now number next bytes.new) }
    ensures faults { CountsOn D.state disk.old disk.new result }
    ensures reads { OnlyReadsOn D.state D.may_leave D.left_between disk.old disk.new }
    ensures asked { AsksForBlocks D.state layout.now (next - number) disk.old disk.new }
{
    keeps_blocks(layout);
    let at = place_of(layout, number);
    let size = (next - number) as usize * usize::from(align_of(layout));
    fill(disk, at, &mut bytes[..size])
}

// Reads the bytes of a block, and of some behind it, before `limit`, unless they were read before.
pub(crate) fn fetch_with<D: Disk>(
    disk: &mut D,
    layout: &Layout,
    number: u64,
    limit: u64,
    fetched: Fetched,
    bytes: &mut [u8; MOST_BYTES],
) -> Result<Fetched, Step>
    requires blocks { is_adpcm layout.now.params.codec ≡ true }
    requires held { end layout.now layout.now.frames ≤ (D.state disk.old).size }
    requires some { number < limit }
    requires within { (limit - 1) * block_frames layout.now.params.codec < layout.now.frames }
    requires begun { fetched.first ≤ number }
    requires fetched { Fetches D.state disk.old layout.now limit fetched bytes.old }
    ensures fetched { IfOk result (λ f. Fetches D.state disk.new layout.now limit f bytes.new) }
    ensures begun { IfOk result (λ f. f.first ≤ number) }
    ensures next { IfOk result (λ f. number < f.next) }
    ensures later { IfOk result (λ f. fetched.next ≤ f.next) }
    ensures asked { IfOk result (λ f. AsksForBlocks D.state layout.now (f.next - max number fetched.next) disk.old disk.new) }
    ensures most { AsksForBlocks D.state layout.now (limit - max number fetched.next) disk.old disk.new }
    ensures faults { CountsOn D.state disk.old disk.new result }
    ensures reads { OnlyReadsOn D.state D.may_leave D.left_between disk.old disk.new }
{
    if number < fetched.next {
        return Ok(fetched);
    }
    let next = fetch_end(layout, number, limit);
    fetch(disk, layout, number, next, bytes)?;
    Ok(Fetched {
        first: number,
        next,
    })
}

// Puts the samples of a block, whose bytes were read, in place of what `into` holds.
pub(crate) fn decode_fetched(
    layout: &Layout,
    fetched: Fetched,
    number: u64,
    bytes: &[u8; MOST_BYTES],
    into: &mut ArrayVec<i32, 16384>,
) -> Result<(), BadBlock>
    requires blocks { is_adpcm layout.now.params.codec ≡ true }
    requires begun { fetched.first ≤ number }
    requires next { number < fetched.next }
    requires room { HasRoomFor layout.now (fetched.next - fetched.first) }
    ensures bad { IsErr result ↔ IsTrue (is_bad_in layout.now (block_among bytes.now layout.now fetched.first number)) }
    ensures samples { OnOk result (into.new.items
        ≡ block_samples layout.now.params.channels layout.now.params.codec (block_among bytes.now layout.now fetched.first number)) }
    ensures count { OnOk result (length into.new.items ≡ block_numbers layout.now) }
    ensures range { OnOk result (All Is16Bit into.new.items) }
{
    keeps_blocks(layout);
    let align = usize::from(align_of(layout));
    let at = (number - fetched.first) as usize * align;
    decode(layout.params, &bytes[at..at + align], into)
}

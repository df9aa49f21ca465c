//! What is read of a file beside the heads of its chunks.

ghost use Rattle.std.specs.Prelude.{◌≡◌, ◌+◌, ◌*◌, ◌≤◌, All, IfOk, length};
ghost use Rattle.std.specs.List.{list_any};
ghost use Rattle.snd_disk.specs.Device.{AsksAtMost, CountsOn, OnlyReadsOn, IfOkTold};
ghost use Rattle.snd_chunks.specs.Walks.{EndsBy};
ghost use Rattle.snd_fields.specs.Field.{number};
ghost use Rattle.snd_fields.specs.declared.field.Order.TheVariants.{Big};
ghost use Rattle.snd_layout.specs.Opened.{CountsOpening, OpensAs};
ghost use Rattle.snd_svx.specs.Layout.{header_of, is_pair, voice_of};

use crate::header::Header;
use snd_chunks::{Chunk, has_id};
use snd_disk::{Disk, Step, fill};
use snd_fields::{Order, u16_at, u32_at};
use snd_layout::OpenError;

/// The place of the rate in a voice header, behind three numbers.
const RATE_AT: u64 = 12;

/// The number of a pair of sounds, which a channel chunk holds.
const PAIR: u32 = 6;

/// The number in the 4 bytes from a place on, which the disk has.
pub(crate) fn read_number<D: Disk>(disk: &mut D, at: u64) -> Result<u32, Step>
    requires { at + 4 ≤ (D.state disk.old).size }
    ensures told { IfOkTold D.state disk.old result (λ b n. n ≡ number Big b at 4) }
    ensures faults { CountsOn D.state disk.old disk.new result }
    ensures reads { OnlyReadsOn D.state D.may_leave D.left_between disk.old disk.new }
    ensures asked { AsksAtMost D.state 4 disk.old disk.new }
{
    let mut bytes = [0; 4];
    fill(disk, at, &mut bytes)?;
    Ok(u32_at(&bytes, 0, Order::Big))
}

// The rate, the octaves and the packing in the last part of a voice header.
fn read_header<D: Disk>(disk: &mut D, chunk: Chunk) -> Result<Header, Step>
    requires within { EndsBy (D.state disk.old).size chunk }
    requires long { 20 ≤ chunk.len }
    ensures told { IfOkTold D.state disk.old result (λ b header. header ≡ header_of b chunk) }
    ensures faults { CountsOn D.state disk.old disk.new result }
    ensures reads { OnlyReadsOn D.state D.may_leave D.left_between disk.old disk.new }
    ensures asked { AsksAtMost D.state 4 disk.old disk.new }
{
    let mut bytes = [0; 4];
    fill(disk, chunk.at + RATE_AT, &mut bytes)?;
    Ok(Header {
        rate: u16_at(&bytes, 0, Order::Big),
        octaves: bytes[2],
        compression: bytes[3],
    })
}

// Whether a chunk says that the sound is one of a pair.
fn read_pair<D: Disk>(disk: &mut D, chunk: &Chunk) -> Result<bool, Step>
    requires { EndsBy (D.state disk.old).size chunk.now }
    ensures told { IfOkTold D.state disk.old result (λ b pair. pair ≡ is_pair b chunk.now) }
    ensures faults { CountsOn D.state disk.old disk.new result }
    ensures reads { OnlyReadsOn D.state D.may_leave D.left_between disk.old disk.new }
    ensures asked { AsksAtMost D.state 4 disk.old disk.new }
{
    if !has_id(chunk, b"CHAN") || chunk.len < 4 {
        return Ok(false);
    }
    let channels = read_number(disk, chunk.at)?;
    Ok(channels == PAIR)
}

// Whether one of these chunks does.
fn read_pairs<D: Disk>(disk: &mut D, chunks: &[Chunk]) -> Result<bool, Step>
    requires { All (EndsBy (D.state disk.old).size) chunks.now }
    ensures told { IfOkTold D.state disk.old result (λ b pair. pair ≡ list_any (is_pair b) chunks.now) }
    ensures faults { CountsOn D.state disk.old disk.new result }
    ensures reads { OnlyReadsOn D.state D.may_leave D.left_between disk.old disk.new }
    ensures asked { AsksAtMost D.state (4 * length chunks.now) disk.old disk.new }
{
    for chunk in chunks {
        if read_pair(disk, chunk)? {
            return Ok(true);
        }
    }
    Ok(false)
}

/// What the voice header says, or why the voice is refused.
pub(crate) fn read_voice<D: Disk>(
    disk: &mut D,
    chunks: &[Chunk],
    chunk: Chunk,
) -> Result<Header, OpenError>
    requires whole { All (EndsBy (D.state disk.old).size) chunks.now }
    requires few { length chunks.now ≤ 256 }
    requires within { EndsBy (D.state disk.old).size chunk }
    requires long { 20 ≤ chunk.len }
    ensures told { OpensAs D.state disk.old (λ b. voice_of b chunks.now chunk) result }
    ensures good { IfOk result (λ header. 1 ≤ header.rate) }
    ensures faults { CountsOpening D.state disk.old disk.new result }
    ensures reads { OnlyReadsOn D.state D.may_leave D.left_between disk.old disk.new }
    ensures asked { AsksAtMost D.state 1028 disk.old disk.new }
{
    let pair = read_pairs(disk, chunks)?;
    let header = read_header(disk, chunk)?;
    match header.refusal(pair) {
        Some(refusal) => Err(OpenError::Refused(refusal)),
        None => Ok(header),
    }
}

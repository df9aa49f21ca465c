//! One block, made of its numbers, and put on a disk.

ghost use Rattle.std.specs.Prelude.{◌≡◌, ◌+◌, ◌-◌, ◌*◌, ◌<◌, ◌≤◌, ◌^◌, ◌++◌, All, OnOk, [], length, pos, replicate};
ghost use Rattle.snd_ima_adpcm.specs.Frames.{Is16Bit};
ghost use Rattle.snd_disk.specs.Device.{CountsOn};
ghost use Rattle.snd_disk.specs.State.{IsWritten};
ghost use Rattle.snd_layout.specs.Blocks.{block_align};
ghost use Rattle.snd_blocks.specs.Calls.{AreBlocks};
ghost use Rattle.snd_ima_adpcm.specs.Blocks.{bytes_of_blocks};
ghost use Rattle.snd_block_writer.specs.Coded.{block_numbers};
ghost use Rattle.snd_block_writer.specs.Puts.{Puts};
ghost use Rattle.snd_block_writer.specs.Writing.{IsOneOrFour, carried, rule_of};

use arrayvec::ArrayVec;
use snd_disk::{Disk, Failed, Step};
use snd_ima_adpcm::ImaWriter;
use snd_layout::{Codec, Params};
use snd_ms_adpcm::MsWriter;

// Puts the bytes of a block in place of what `into` holds. The writer of IMA blocks carries its indices on;
// Microsoft's codec leaves them.
#[tactic(auto, unfolding(crate::specs::Writing::block_bytes, crate::specs::Writing::next_indices))]
fn encode(params: Params, ima: &mut ImaWriter, numbers: &[i32], into: &mut ArrayVec<u8, 8192>)
    requires form { AreBlocks params }
    requires whole { length numbers.now ≡ block_numbers params }
    requires range { All Is16Bit numbers.now }
    ensures bytes { into.new.items ≡ (rule_of params).bytes ima.old numbers.now }
    ensures size { length into.new.items ≡ block_align params.channels params.codec }
    ensures indices { ima.new ≡ (rule_of params).next ima.old numbers.now }
{
    match params.codec {
        Codec::Ima { .. } => ima.encode(numbers, params.channels, into),
        Codec::Ms { .. } => MsWriter::new().encode(numbers, params.channels, into),
        _ => unreachable!(),
    }
}

// Puts the bytes of one block, or of four, in place of what `into` holds, and answers how many blocks they are.
pub(crate) fn encode_blocks(
    params: Params,
    ima: &mut ImaWriter,
    numbers: &[i32],
    into: &mut ArrayVec<u8, 8192>,
) -> u64
    requires form { AreBlocks params }
    requires whole { IsOneOrFour params (length numbers.now) }
    requires range { All Is16Bit numbers.now }
    ensures count { result * block_numbers params ≡ length numbers.now }
    ensures bytes { into.new.items ≡ bytes_of_blocks (rule_of params) (block_numbers params) result ima.old numbers.now }
    ensures indices { ima.new ≡ carried (rule_of params) (block_numbers params) result ima.old numbers.now }
{
    let block = usize::from(params.channels) * usize::from(params.block_frames());
    if numbers.len() > block {
        MsWriter::new().encode_four(numbers, into);
        return 4;
    }
    encode(params, ima, numbers, into);
    1
}

// Puts zeros behind numbers, up to so many in all.
pub(crate) fn fill_up(numbers: &mut ArrayVec<i32, 16384>, count: usize)
    requires few { length numbers.old.items ≤ count }
    requires room { count ≤ 16384 }
    ensures { numbers.new.items ≡ numbers.old.items ++ replicate (count - length numbers.old.items) (pos 0) }
{
    for _ in numbers.len()..count {
        numbers.push(0);
    }
}

// Writes bytes at a place.
pub(crate) fn write_bytes<D: Disk>(disk: &mut D, at: u64, bytes: &[u8]) -> Result<(), Step>
    requires { at + length bytes.now < 2 ^ 63 }
    ensures done { OnOk result (IsWritten at bytes.now (D.state disk.old) (D.state disk.new)) }
    ensures puts { Puts D.Disk at bytes.now disk.old disk.new }
    ensures faults { CountsOn D.state disk.old disk.new result }
{
    match disk.write_at(at, bytes) {
        Ok(()) => Ok(()),
        Err(Failed) => Err(Step::Write),
    }
}

// Writes the block of the waiting numbers, and forgets these. Its bytes are made in `bytes`.
pub(crate) fn put_block<D: Disk>(
    disk: &mut D,
    at: u64,
    params: Params,
    ima: &mut ImaWriter,
    waiting: &mut ArrayVec<i32, 16384>,
    bytes: &mut ArrayVec<u8, 8192>,
) -> Result<(), Step>
    requires form { AreBlocks params }
    requires whole { length waiting.old.items ≡ block_numbers params }
    requires range { All Is16Bit waiting.old.items }
    requires fits { at + block_align params.channels params.codec < 2 ^ 63 }
    ensures empty { waiting.new.items ≡ [] }
    ensures indices { ima.new ≡ (rule_of params).next ima.old waiting.old.items }
    ensures done { OnOk result (IsWritten at ((rule_of params).bytes ima.old waiting.old.items) (D.state disk.old) (D.state disk.new)) }
    ensures puts { Puts D.Disk at ((rule_of params).bytes ima.old waiting.old.items) disk.old disk.new }
    ensures faults { CountsOn D.state disk.old disk.new result }
{
    encode(params, ima, waiting.as_slice(), bytes);
    waiting.clear();
    write_bytes(disk, at, bytes.as_slice())
}

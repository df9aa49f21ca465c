//! One block, read from a disk.

ghost use Rattle.std.specs.Prelude.{◌≡◌, ◌+◌, ◌*◌, ◌<◌, ◌≤◌, ◌^◌, ◌↔◌, All, IsErr, IsTrue, OnOk, false, length, true};
ghost use Rattle.snd_ima_adpcm.specs.Frames.{Is16Bit};
ghost use Rattle.snd_disk.specs.Device.{AsksAtMost, IfOkTold, OnlyReadsOn};
ghost use Rattle.snd_layout.specs.Blocks.{block_align, block_frames, is_adpcm};
ghost use Rattle.snd_layout.specs.Params.{AreParams};
ghost use Rattle.snd_layout.specs.Shape.{KeepsRule, end};
ghost use Rattle.snd_blocks.specs.Calls.{AreBlocks, CountsFaultOn, RefusesBad, block_at, is_bad_in};
ghost use Rattle.snd_blocks.specs.Frames.{block_samples, is_bad_block};

use crate::buffer::MOST_BYTES;
use crate::error::BlockError;
use arrayvec::ArrayVec;
use snd_disk::{Disk, fill};
use snd_ima_adpcm::{BadBlock, ImaBlock};
use snd_layout::{Codec, Layout, Params};
use snd_ms_adpcm::MsBlock;

// What holds of every layout, and of its parameters.
pub(crate) fn keeps_rules(layout: &Layout)
    ensures rule { KeepsRule layout.now }
    ensures params { AreParams layout.now.params }
    ensures frames { layout.now.frames < 2 ^ 64 }
{
    layout.keeps_rule();
    layout.params.are_good();
    let _frames = layout.frames;
}

// What holds of the blocks of every ADPCM file.
pub(crate) fn keeps_blocks(layout: &Layout)
    requires { is_adpcm layout.now.params.codec ≡ true }
    ensures { AreBlocks layout.now.params }
{
    keeps_rules(layout);
}

// The numbers of a frame.
pub(crate) fn channels_of(layout: &Layout) -> usize
    ensures value { result ≡ layout.now.params.channels }
    ensures some { 1 ≤ result }
{
    keeps_rules(layout);
    usize::from(layout.params.channels)
}

// The bytes of a block.
pub(crate) fn align_of(layout: &Layout) -> u16
    ensures { result ≡ block_align layout.now.params.channels layout.now.params.codec }
{
    layout.params.block_align()
}

// The frames of a block.
pub(crate) fn frames_of(layout: &Layout) -> u16
    ensures { result ≡ block_frames layout.now.params.codec }
{
    layout.params.block_frames()
}

// The place of the first byte of a block that has counted frames.
pub(crate) fn place_of(layout: &Layout, number: u64) -> u64
    requires blocks { is_adpcm layout.now.params.codec ≡ true }
    requires within { number * block_frames layout.now.params.codec < layout.now.frames }
    ensures place { result ≡ layout.now.start + number * block_align layout.now.params.channels layout.now.params.codec }
    ensures end { result + block_align layout.now.params.channels layout.now.params.codec ≤ end layout.now layout.now.frames }
{
    keeps_blocks(layout);
    keeps_rules(layout);
    let align = u64::from(align_of(layout));
    layout.start + number * align
}

// Puts the samples of a block in place of what `into` holds.
#[tactic(auto, unfolding(crate::specs::Frames::is_bad_block, crate::specs::Frames::block_samples))]
pub(crate) fn decode(
    params: Params,
    bytes: &[u8],
    into: &mut ArrayVec<i32, 16384>,
) -> Result<(), BadBlock>
    requires blocks { AreBlocks params }
    requires size { length bytes.now ≡ block_align params.channels params.codec }
    ensures bad { IsErr result ↔ IsTrue (is_bad_block params.channels params.codec bytes.now) }
    ensures samples { OnOk result (into.new.items ≡ block_samples params.channels params.codec bytes.now) }
    ensures count { OnOk result (length into.new.items ≡ params.channels * block_frames params.codec) }
    ensures range { All Is16Bit into.new.items }
{
    match params.codec {
        Codec::Ima { .. } => ImaBlock::decode(bytes, params.channels, into),
        Codec::Ms { .. } => MsBlock::decode(bytes, params.channels, into),
        _ => unreachable!(),
    }
}

// Whether a block is bad, which its head tells.
#[tactic(auto, unfolding(crate::specs::Frames::is_bad_block))]
fn is_bad(params: Params, bytes: &[u8]) -> bool
    requires blocks { AreBlocks params }
    requires size { length bytes.now ≡ block_align params.channels params.codec }
    ensures { result ≡ is_bad_block params.channels params.codec bytes.now }
{
    match params.codec {
        Codec::Ima { .. } => ImaBlock::is_bad(bytes, params.channels),
        Codec::Ms { .. } => MsBlock::is_bad(bytes, params.channels),
        _ => unreachable!(),
    }
}

// Reads a block that has counted frames, to see whether it is bad. Nothing of it is decoded.
pub(crate) fn check_block<D: Disk>(
    disk: &mut D,
    layout: &Layout,
    number: u64,
    block: &mut [u8; MOST_BYTES],
) -> Result<(), BlockError>
    requires blocks { is_adpcm layout.now.params.codec ≡ true }
    requires held { end layout.now layout.now.frames ≤ (D.state disk.old).size }
    requires within { number * block_frames layout.now.params.codec < layout.now.frames }
    ensures good { IfOkTold D.state disk.old result (λ b _. is_bad_in layout.now (block_at b layout.now number) ≡ false) }
    ensures bad { RefusesBad D.state disk.old layout.now number result }
    ensures faults { CountsFaultOn D.state disk.old disk.new result }
    ensures reads { OnlyReadsOn D.state D.may_leave D.left_between disk.old disk.new }
    ensures asked { AsksAtMost D.state (block_align layout.now.params.channels layout.now.params.codec) disk.old disk.new }
{
    keeps_blocks(layout);
    let at = place_of(layout, number);
    let bytes = &mut block[..usize::from(align_of(layout))];
    fill(disk, at, bytes)?;
    if is_bad(layout.params, bytes) {
        return Err(BlockError::BadBlock);
    }
    Ok(())
}

//! The frames of a file, put behind what another one holds, block after block.

ghost use Rattle.std.specs.Prelude.{◌≡◌, ◌+◌, ◌<◌, ◌≤◌, ◌^◌, IfErr, IfOk, OnOk, is_some, length};
ghost use Rattle.snd_disk.specs.Device.{GoesOnFrom, OnlyReadsOn};
ghost use Rattle.snd_frames.specs.Caching.{CachesIn, IsEmpty};
ghost use Rattle.snd_layout.specs.Blocks.{is_adpcm};
ghost use Rattle.snd_layout.specs.Shape.{end};
ghost use Rattle.snd_output.specs.Ends.{CountsStop, IsUnchanged};
ghost use Rattle.snd_patch.specs.Steps.{StillTells};
ghost use Rattle.snd_export.specs.Coding.{ChangedBad, HasChannels, IsPlain, size_by};
ghost use Rattle.snd_export.specs.Making.{AsksFrames, CountsDisks, Gains, Lengthens};

use crate::coding::code_block;
use crate::target::{Target, frames_of};
use snd_blocks::BlockCache;
use snd_disk::{Disk, Failed};
use snd_frames::{BLOCK_BYTES, channels_of, frames_ahead, is_adpcm, keeps_rules};
use snd_layout::{Codec, Layout};
use snd_output::Stop;
use snd_vox::VoxWriter;
use std::alloc::Global;

/// The most numbers that are held at once, and the most bytes that these are, or become.
const MOST_NUMBERS: usize = 16384;

const MOST_BYTES: usize = 4 * MOST_NUMBERS;

/// What a file of a codec is read by blocks with, where it is ADPCM. `Memory` where there is none.
pub(crate) fn cache_for(alloc: Global, codec: Codec) -> Result<Option<Box<BlockCache>>, Stop>
    ensures blocks { IfOk result (λ cache. is_some cache ≡ is_adpcm codec) }
    ensures empty { IfOk result IsEmpty }
    ensures only { IfErr result (λ stop. stop ≡ Stop.Memory) }
{
    if !is_adpcm(codec) {
        return Ok(None);
    }
    match Box::new(alloc, BlockCache::new()) {
        Ok(cache) => Ok(Some(cache)),
        Err(_) => Err(Stop::Memory),
    }
}

/// Puts bytes behind all that a disk holds. `Fault` where its call failed.
pub(crate) fn put_behind<E: Disk>(to: &mut E, at: u64, bytes: &[u8]) -> Result<(), Stop>
    requires at_end { at ≡ (E.state to.old).size }
    requires fits { at + length bytes.now < 2 ^ 63 }
    ensures gains { OnOk result (Gains E.state bytes.now to.old to.new) }
    ensures faults { CountsStop (E.state to.old).faults (E.state to.new).faults result }
    ensures unchanged { IsUnchanged result }
    ensures tells { StillTells (E.state to.old) (E.state to.new) }
    ensures time { GoesOnFrom E.state E.left_between to.old to.new }
    ensures unasked { (E.state to.new).asked ≡ (E.state to.old).asked }
{
    match to.write_at(at, bytes) {
        Ok(()) => Ok(()),
        Err(Failed) => Err(Stop::Fault),
    }
}

// Puts all frames of a file behind what another one holds, as many at a time as fit the numbers.
fn put_blocks<D: Disk, E: Disk>(
    from: &mut D,
    layout: &Layout,
    target: Target,
    to: &mut E,
    start: u64,
    numbers: &mut [i32],
    bytes: &mut [u8],
    coded: &mut [u8],
    cache: &mut Option<Box<BlockCache>>,
) -> Result<(), Stop>
    requires blocks { is_some cache.old ≡ is_adpcm layout.now.params.codec }
    requires cached { CachesIn D.state from.old layout.now cache.old }
    requires held { end layout.now layout.now.frames ≤ (D.state from.old).size }
    requires plain { IsPlain target }
    requires channels { HasChannels target layout.now }
    requires at_end { start ≡ (E.state to.old).size }
    requires fits { start + size_by target layout.now < 2 ^ 63 }
    requires numbers { length numbers.old ≡ 16384 }
    requires bytes { length bytes.old ≡ 65536 }
    requires coded { length coded.old ≡ 65536 }
    ensures gains { OnOk result (Lengthens D.state E.state target layout.now from.old to.old to.new) }
    ensures faults { CountsDisks D.state E.state from.old from.new to.old to.new result }
    ensures changed { ChangedBad D.state from.old layout.now result }
    ensures reads { OnlyReadsOn D.state D.may_leave D.left_between from.old from.new }
    ensures tells { StillTells (E.state to.old) (E.state to.new) }
    ensures time { GoesOnFrom E.state E.left_between to.old to.new }
    ensures asked { AsksFrames D.state layout.now from.old from.new }
    ensures unasked { (E.state to.new).asked ≡ (E.state to.old).asked }
{
    keeps_rules(layout);
    let each = MOST_NUMBERS / channels_of(layout);
    let mut block = [0u8; BLOCK_BYTES];
    let mut writer = VoxWriter::new();
    let frames = frames_of(layout);
    let mut at = start;
    let mut place = 0;
    while place < frames {
        let count = frames_ahead(layout, place, each);
        let size = code_block(
            from,
            layout,
            place,
            count,
            target,
            &mut writer,
            numbers,
            bytes,
            &mut block,
            cache,
            coded,
        )?;
        put_behind(to, at, &coded[..size])?;
        at += size as u64;
        place += count as u64;
    }
    Ok(())
}

/// Puts all frames of a file behind what another one holds, as what they become, in blocks of at most 64 KiB. A file of
/// ADPCM is read with a cache. It takes no memory.
///
/// `Fault` where a call of one of the two disks failed, and `Changed` where a block of ADPCM is bad.
pub(crate) fn put_frames<D: Disk, E: Disk>(
    from: &mut D,
    layout: &Layout,
    target: Target,
    to: &mut E,
    start: u64,
    cache: &mut Option<Box<BlockCache>>,
) -> Result<(), Stop>
    requires blocks { is_some cache.old ≡ is_adpcm layout.now.params.codec }
    requires cached { CachesIn D.state from.old layout.now cache.old }
    requires held { end layout.now layout.now.frames ≤ (D.state from.old).size }
    requires plain { IsPlain target }
    requires channels { HasChannels target layout.now }
    requires at_end { start ≡ (E.state to.old).size }
    requires fits { start + size_by target layout.now < 2 ^ 63 }
    ensures gains { OnOk result (Lengthens D.state E.state target layout.now from.old to.old to.new) }
    ensures faults { CountsDisks D.state E.state from.old from.new to.old to.new result }
    ensures changed { ChangedBad D.state from.old layout.now result }
    ensures reads { OnlyReadsOn D.state D.may_leave D.left_between from.old from.new }
    ensures tells { StillTells (E.state to.old) (E.state to.new) }
    ensures time { GoesOnFrom E.state E.left_between to.old to.new }
    ensures asked { AsksFrames D.state layout.now from.old from.new }
    ensures unasked { (E.state to.new).asked ≡ (E.state to.old).asked }
{
    let mut numbers = [0i32; MOST_NUMBERS];
    let mut bytes = [0u8; MOST_BYTES];
    let mut coded = [0u8; MOST_BYTES];
    put_blocks(
        from,
        layout,
        target,
        to,
        start,
        &mut numbers,
        &mut bytes,
        &mut coded,
        cache,
    )
}

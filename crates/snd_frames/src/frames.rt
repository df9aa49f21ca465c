//! Frames read from a disk, by a layout.

ghost use Rattle.std.specs.Prelude.{◌≡◌, ◌+◌, ◌-◌, ◌*◌, ◌<◌, ◌≤◌, ◌^◌, List, Some, false, true, ℕ, OnOk, drop, is_none, is_some, length, min, take};
ghost use Rattle.std.specs.Result.{IsErrOf};
ghost use Rattle.snd_blocks.specs.Cache.{Caches};
ghost use Rattle.snd_blocks.specs.Calls.{CountsFaultOn};
ghost use Rattle.snd_blocks.specs.Frames.{has_bad};
ghost use Rattle.snd_blocks.specs.Sound.{frames_in};
ghost use Rattle.snd_disk.specs.Device.{AsksAtMost, CountsOn, IfOkTold, OnlyReadsOn, Tells};
ghost use Rattle.snd_container.specs.Fixed.{byte_count};
ghost use Rattle.snd_layout.specs.Blocks.{block_align, is_adpcm};
ghost use Rattle.snd_layout.specs.Shape.{KeepsRule, end};
ghost use Rattle.snd_layout.specs.Params.{AreParams, data_bytes};
ghost use Rattle.snd_container.specs.Sound.{fixed_of};
ghost use Rattle.snd_edits.specs.Bytes.{numbers_in};
ghost use Rattle.snd_frames.specs.Caching.{CachesIn};
ghost use Rattle.snd_edits.specs.Reading.{FitCodec, HasFrames, bytes_of_frames, bytes_to_read};

use crate::codec::{form_of, is_adpcm};
use crate::reads::read_run;
use crate::writes::BLOCK_BYTES;
use snd_blocks::{BlockCache, BlockError, check_blocks, read_cached};
use snd_container::Fixed;
use snd_disk::{Disk, Step, fill};
use snd_layout::Layout;

/// What holds of every layout, and of its parameters.
pub fn keeps_rules(layout: &Layout)
    ensures rule { KeepsRule layout.now }
    ensures params { AreParams layout.now.params }
{
    layout.keeps_rule();
    layout.params.are_good();
}

/// The numbers of a frame.
pub fn channels_of(layout: &Layout) -> usize
    ensures value { result ≡ layout.now.params.channels }
    ensures some { 1 ≤ result }
{
    layout.params.are_good();
    usize::from(layout.params.channels)
}

/// The bytes of a frame, where each sample has bytes of its own.
pub fn align_of(layout: &Layout) -> usize
    requires { is_adpcm layout.now.params.codec ≡ false }
    ensures value { result ≡ block_align layout.now.params.channels layout.now.params.codec }
    ensures params { AreParams layout.now.params }
    ensures some { 1 ≤ result }
{
    layout.params.are_good();
    usize::from(layout.params.block_align())
}

/// How many of the wanted frames there are from a place on.
pub fn frames_ahead(layout: &Layout, place: u64, wanted: usize) -> usize
    requires { place ≤ layout.now.frames }
    ensures count { result ≡ min wanted (layout.now.frames - place) }
    ensures fits { place + result < 2 ^ 64 }
{
    (layout.frames - place).min(wanted as u64) as usize
}

// The place of a frame's first byte.
pub(crate) fn place_of(layout: &Layout, form: Fixed, frame: u64) -> u64
    requires linear { fixed_of layout.now.params.codec ≡ Some form }
    requires within { frame ≤ layout.now.frames }
    ensures { result ≡ layout.now.start + byte_count form * (layout.now.params.channels * frame) }
{
    layout.keeps_rule();
    layout.start + frame * u64::from(layout.params.block_align())
}

// Reads frames that the layout counts, from a place on. Their bytes are read into a block.
pub(crate) fn read_from<D: Disk>(
    disk: &mut D,
    layout: &Layout,
    place: u64,
    count: usize,
    into: &mut [i32],
    block: &mut [u8; BLOCK_BYTES],
) -> Result<(), Step>
    requires linear { is_none (fixed_of layout.now.params.codec) ≡ false }
    requires held { end layout.now layout.now.frames ≤ (D.state disk.old).size }
    requires within { place + count ≤ layout.now.frames }
    requires room { length into.old ≡ count * layout.now.params.channels }
    ensures told { IfOkTold D.state disk.old result (λ b _. HasFrames b layout.now place count into.new) }
    ensures in_range { OnOk result (FitCodec layout.now.params.codec into.new) }
    ensures faults { CountsOn D.state disk.old disk.new result }
    ensures reads { OnlyReadsOn D.state D.may_leave D.left_between disk.old disk.new }
    ensures asked { AsksAtMost D.state (bytes_of_frames layout.now.params count) disk.old disk.new }
{
    let Some(form) = form_of(layout) else {
        unreachable!()
    };
    read_run(disk, form, place_of(layout, form, place), into, block)?;
    Ok(())
}

/// Reads the bytes of frames that the layout counts, from a place on, as they stand on the disk.
pub fn read_raw<D: Disk>(
    disk: &mut D,
    layout: &Layout,
    place: u64,
    count: usize,
    into: &mut [u8],
) -> Result<(), Step>
    requires linear { is_none (fixed_of layout.now.params.codec) ≡ false }
    requires held { end layout.now layout.now.frames ≤ (D.state disk.old).size }
    requires within { place + count ≤ layout.now.frames }
    requires room { length into.old ≡ bytes_of_frames layout.now.params count }
    ensures told { IfOkTold D.state disk.old result (λ b _. HasFrames b layout.now place count (numbers_in layout.now.params.codec into.new)) }
    ensures faults { CountsOn D.state disk.old disk.new result }
    ensures reads { OnlyReadsOn D.state D.may_leave D.left_between disk.old disk.new }
    ensures asked { AsksAtMost D.state (bytes_of_frames layout.now.params count) disk.old disk.new }
{
    let Some(form) = form_of(layout) else {
        unreachable!()
    };
    fill(disk, place_of(layout, form, place), into)?;
    Ok(())
}

// Reads frames of an ADPCM file that the layout counts, from a place on, by blocks.
fn read_blocks<D: Disk>(
    disk: &mut D,
    layout: &Layout,
    place: u64,
    count: usize,
    into: &mut [i32],
    cache: &mut BlockCache,
) -> Result<(), BlockError>
    requires blocks { is_adpcm layout.now.params.codec ≡ true }
    requires cached { Caches D.state disk.old layout.now cache.old }
    requires held { end layout.now layout.now.frames ≤ (D.state disk.old).size }
    requires within { place + count ≤ layout.now.frames }
    requires room { length into.old ≡ count * layout.now.params.channels }
    ensures cached { Caches D.state disk.new layout.now cache.new }
    ensures told { IfOkTold D.state disk.old result (λ b _. HasFrames b layout.now place count into.new) }
    ensures good { IfOkTold D.state disk.old result (λ b _. has_bad (take count (drop place (frames_in b layout.now))) ≡ false) }
    ensures bad { IsErrOf result BlockError.BadBlock → (b : List ℕ) → Tells D.state disk.old b → has_bad (take count (drop place (frames_in b layout.now))) ≡ true }
    ensures in_range { OnOk result (FitCodec layout.now.params.codec into.new) }
    ensures faults { CountsFaultOn D.state disk.old disk.new result }
    ensures reads { OnlyReadsOn D.state D.may_leave D.left_between disk.old disk.new }
    ensures asked { AsksAtMost D.state (bytes_to_read layout.now.params count) disk.old disk.new }
{
    keeps_rules(layout);
    read_cached(disk, layout, place, into, cache)
}

/// Reads frames that the layout counts, from a place on: those of ADPCM by blocks, with the cache that there
/// is then.
pub fn read_any<D: Disk>(
    disk: &mut D,
    layout: &Layout,
    place: u64,
    count: usize,
    into: &mut [i32],
    block: &mut [u8; BLOCK_BYTES],
    cache: &mut Option<Box<BlockCache>>,
) -> Result<(), BlockError>
    requires blocks { is_some cache.old ≡ is_adpcm layout.now.params.codec }
    requires cached { CachesIn D.state disk.old layout.now cache.old }
    requires held { end layout.now layout.now.frames ≤ (D.state disk.old).size }
    requires within { place + count ≤ layout.now.frames }
    requires room { length into.old ≡ count * layout.now.params.channels }
    ensures blocks { is_some cache.new ≡ is_adpcm layout.now.params.codec }
    ensures cached { CachesIn D.state disk.new layout.now cache.new }
    ensures told { IfOkTold D.state disk.old result (λ b _. HasFrames b layout.now place count into.new) }
    ensures good { IfOkTold D.state disk.old result (λ b _. has_bad (take count (drop place (frames_in b layout.now))) ≡ false) }
    ensures bad { IsErrOf result BlockError.BadBlock → (b : List ℕ) → Tells D.state disk.old b → has_bad (take count (drop place (frames_in b layout.now))) ≡ true }
    ensures in_blocks { IsErrOf result BlockError.BadBlock → is_adpcm layout.now.params.codec ≡ true }
    ensures in_range { OnOk result (FitCodec layout.now.params.codec into.new) }
    ensures faults { CountsFaultOn D.state disk.old disk.new result }
    ensures reads { OnlyReadsOn D.state D.may_leave D.left_between disk.old disk.new }
    ensures asked { AsksAtMost D.state (bytes_to_read layout.now.params count) disk.old disk.new }
{
    keeps_rules(layout);
    match cache {
        Some(cache) => read_blocks(disk, layout, place, count, into, cache),
        None => Ok(read_from(disk, layout, place, count, into, block)?),
    }
}

/// Reads all blocks that have counted frames, where the codec is ADPCM.
pub fn check_any<D: Disk>(disk: &mut D, layout: &Layout) -> Result<(), BlockError>
    requires { end layout.now layout.now.frames ≤ (D.state disk.old).size }
    ensures good { IfOkTold D.state disk.old result (λ b _. has_bad (frames_in b layout.now) ≡ false) }
    ensures bad { IsErrOf result BlockError.BadBlock → (b : List ℕ) → Tells D.state disk.old b → has_bad (frames_in b layout.now) ≡ true }
    ensures in_blocks { IsErrOf result BlockError.BadBlock → is_adpcm layout.now.params.codec ≡ true }
    ensures faults { CountsFaultOn D.state disk.old disk.new result }
    ensures reads { OnlyReadsOn D.state D.may_leave D.left_between disk.old disk.new }
    ensures asked { AsksAtMost D.state (data_bytes layout.now.params layout.now.frames) disk.old disk.new }
{
    keeps_rules(layout);
    if !is_adpcm(layout.params.codec) {
        return Ok(());
    }
    check_blocks(disk, layout)
}

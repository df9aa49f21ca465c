//! The blocks that were read last.

ghost use Rattle.std.specs.Prelude.{◌≡◌, ◌+◌, ◌-◌, ◌*◌, ◌<◌, ◌≤◌, All, IfOk, IsErr, IsTrue, OnOk, length, max, true, ℕ};
ghost use Rattle.snd_ima_adpcm.specs.Frames.{Is16Bit};
ghost use Rattle.snd_disk.specs.Device.{OnlyReadsOn};
ghost use Rattle.snd_layout.specs.Blocks.{block_frames, is_adpcm};
ghost use Rattle.snd_layout.specs.Shape.{end};
ghost use Rattle.snd_blocks.specs.Cache.{AreKept, Caches, HasBlocksOf, IsCached, block_cached, block_numbers, bytes_cached, count_cached, samples_cached};
ghost use Rattle.snd_blocks.specs.Calls.{AsksForBlocks, CountsFaultOn, HasRoomFor, RefusesBad, is_bad_in};
ghost use Rattle.snd_blocks.specs.Fetching.{Fetches, block_among};

use crate::block::{channels_of, frames_of, keeps_blocks};
use crate::buffer::BlockCache;
use crate::error::BlockError;
use crate::fetch::{Fetched, decode_fetched, fetch_with};
use crate::four::decode_four;
use snd_disk::Disk;
use snd_ima_adpcm::BadBlock;
use snd_layout::Layout;

impl BlockCache {
    // Whether a block is kept.
    fn has(&self, number: u64) -> bool
        ensures kept { result ≡ true → IsCached self.now number }
        ensures missing { IsCached self.now number → result ≡ true }
    {
        self.first <= number && number - self.first < self.count
    }

    // The first block from one on that is not kept.
    pub(crate) fn next_missing(&self, number: u64) -> u64
        ensures from { number ≤ result }
        ensures kept { AreKept self.now number result }
    {
        if self.has(number) {
            self.first.saturating_add(self.count)
        } else {
            number
        }
    }

    // The samples of a block that is kept.
    pub(crate) fn block(&self, layout: &Layout, number: u64) -> &[i32]
        requires blocks { is_adpcm layout.now.params.codec ≡ true }
        requires kept { IsCached self.now number }
        requires whole { count_cached self.now * block_numbers layout.now ≤ length (samples_cached self.now) }
        ensures value { result.now ≡ block_cached layout.now self.now number }
        ensures size { length result.now ≡ block_numbers layout.now }
    {
        keeps_blocks(layout);
        let samples = self.samples.as_slice();
        let size = channels_of(layout) * usize::from(frames_of(layout));
        let at = (number - self.first) as usize * size;
        &samples[at..at + size]
    }
}

// Keeps a block, whose bytes were read, in place of what was kept, and the three behind it where they are decoded together.
fn keep_fetched(
    layout: &Layout,
    fetched: Fetched,
    number: u64,
    cache: &mut BlockCache,
) -> Result<(), BadBlock>
    requires blocks { is_adpcm layout.now.params.codec ≡ true }
    requires begun { fetched.first ≤ number }
    requires some { number < fetched.next }
    requires room { HasRoomFor layout.now (fetched.next - fetched.first) }
    ensures bad { IsErr result → IsTrue (is_bad_in layout.now (block_among (bytes_cached cache.old) layout.now fetched.first number)) }
    ensures kept { OnOk result (IsCached cache.new number) }
    ensures has { HasBlocksOf layout.now fetched.first fetched.next cache.new }
    ensures whole { count_cached cache.new * block_numbers layout.now ≤ length (samples_cached cache.new) }
    ensures range { (n : ℕ) → IsCached cache.new n → All Is16Bit (samples_cached cache.new) }
    ensures bytes { bytes_cached cache.new ≡ bytes_cached cache.old }
{
    cache.count = 0;
    let count = if decode_four(layout, fetched, number, &cache.bytes, &mut cache.samples) {
        4
    } else {
        decode_fetched(layout, fetched, number, &cache.bytes, &mut cache.samples)?;
        1
    };
    cache.first = number;
    cache.count = count;
    Ok(())
}

// Makes a block that has counted frames one of those that are kept. Its bytes are read with those of blocks
// behind it, before `limit`, unless they were read before. Blocks before those that were read are kept.
pub(crate) fn load<D: Disk>(
    disk: &mut D,
    layout: &Layout,
    number: u64,
    limit: u64,
    fetched: Fetched,
    cache: &mut BlockCache,
) -> Result<Fetched, BlockError>
    requires blocks { is_adpcm layout.now.params.codec ≡ true }
    requires held { end layout.now layout.now.frames ≤ (D.state disk.old).size }
    requires some { number < limit }
    requires within { (limit - 1) * block_frames layout.now.params.codec < layout.now.frames }
    requires begun { AreKept cache.old number fetched.first }
    requires fetched { Fetches D.state disk.old layout.now limit fetched (bytes_cached cache.old) }
    requires cached { Caches D.state disk.old layout.now cache.old }
    ensures loaded { OnOk result (IsCached cache.new number) }
    ensures cached { Caches D.state disk.new layout.now cache.new }
    ensures fetched { IfOk result (λ f. Fetches D.state disk.new layout.now limit f (bytes_cached cache.new)) }
    ensures begun { IfOk result (λ f. AreKept cache.new (number + 1) f.first) }
    ensures later { IfOk result (λ f. fetched.next ≤ f.next) }
    ensures asked { IfOk result (λ f. AsksForBlocks D.state layout.now (max (number + 1) f.next - max number fetched.next) disk.old disk.new) }
    ensures most { AsksForBlocks D.state layout.now (limit - max number fetched.next) disk.old disk.new }
    ensures bad { RefusesBad D.state disk.old layout.now number result }
    ensures faults { CountsFaultOn D.state disk.old disk.new result }
    ensures reads { OnlyReadsOn D.state D.may_leave D.left_between disk.old disk.new }
{
    if cache.has(number) {
        return Ok(fetched);
    }
    cache.count = 0;
    let fetched = fetch_with(disk, layout, number, limit, fetched, &mut cache.bytes)?;
    keep_fetched(layout, fetched, number, cache)?;
    Ok(fetched)
}

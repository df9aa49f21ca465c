//! Frames, read from the blocks that they stand in.

ghost use Rattle.std.specs.Prelude.{◌≡◌, ◌+◌, ◌-◌, ◌*◌, ◌/◌, ◌%◌, ◌<◌, ◌≤◌, ◌^◌, ◌++◌, All, List, OnOk, drop, false, length, take, true, ℕ};
ghost use Rattle.std.specs.Result.{IsErrOf};
ghost use Rattle.snd_ima_adpcm.specs.Frames.{Is16Bit};
ghost use Rattle.snd_disk.specs.Device.{AsksAtMost, IfOkTold, OnlyReadsOn, Tells};
ghost use Rattle.snd_layout.specs.Blocks.{block_align, block_frames, is_adpcm};
ghost use Rattle.snd_layout.specs.Shape.{end};
ghost use Rattle.snd_pcm.specs.Groups.{groups};
ghost use Rattle.snd_blocks.specs.Cache.{Caches, block_numbers};
ghost use Rattle.snd_blocks.specs.Calls.{AsksForFrames, CountsFaultOn, IsBlock, block_at};
ghost use Rattle.snd_blocks.specs.Frames.{HasBadFrame, HasFrames, has_bad, wanted_frames};
ghost use Rattle.snd_blocks.specs.Spans.{RangesSpan, ReadsSpan, count_before};

use crate::block::{channels_of, frames_of, keeps_blocks, keeps_rules};
use crate::buffer::BlockCache;
use crate::cache::load;
use crate::check::block_count;
use crate::error::BlockError;
use crate::fetch::Fetched;
use crate::four::is_fourfold;
use snd_disk::Disk;
use snd_layout::Layout;

// The wanted frames that a block has: how many are skipped at its start, how many are done before it,
// and how many there are.
#[derive(Clone, Copy)]
struct Span {
    skipped: usize,
    done: usize,
    count: usize,
}

// The span of a block that has some of `count` frames from a place on.
fn span_of(per_block: u16, place: u64, count: usize, number: u64) -> Span
    requires some { 1 ≤ per_block }
    requires wanted { 1 ≤ count }
    requires begins { number * per_block < place + count }
    requires ends { place < number * per_block + per_block }
    requires fits { place + count < 2 ^ 64 }
    ensures done { result.done ≡ count_before per_block place count number }
    ensures next { result.done + result.count ≡ count_before per_block place count (number + 1) }
    ensures skipped { number * per_block + result.skipped ≡ place + result.done }
    ensures within { result.skipped + result.count ≤ per_block }
    ensures room { result.done + result.count ≤ count }
    ensures some { 1 ≤ result.count }
{
    let begin = number * u64::from(per_block);
    let skipped = place.saturating_sub(begin) as usize;
    let done = begin.saturating_sub(place) as usize;
    Span {
        skipped,
        done,
        count: (usize::from(per_block) - skipped).min(count - done),
    }
}

// Puts the samples of a span into their places.
fn copy_span(channels: usize, span: Span, samples: &[i32], into: &mut [i32])
    requires some { 1 ≤ channels }
    requires whole { channels * (span.skipped + span.count) ≤ length samples.now }
    requires room { channels * (span.done + span.count) ≤ length into.old }
    ensures { take (channels * (span.done + span.count)) into.new
        ≡ take (channels * span.done) into.old ++ take (channels * span.count) (drop (channels * span.skipped) samples.now) }
{
    let first = channels * span.skipped;
    let last = channels * (span.skipped + span.count);
    let from = channels * span.done;
    let to = channels * (span.done + span.count);
    into[from..to].copy_from_slice(&samples[first..last]);
}

// Puts the wanted frames of a block into their places.
fn put_span(
    layout: &Layout,
    place: u64,
    count: usize,
    number: u64,
    samples: &[i32],
    into: &mut [i32],
)
    requires blocks { is_adpcm layout.now.params.codec ≡ true }
    requires within { place + count ≤ layout.now.frames }
    requires some { 1 ≤ count }
    requires room { length into.old ≡ layout.now.params.channels * count }
    requires begins { number * block_frames layout.now.params.codec < place + count }
    requires ends { place < number * block_frames layout.now.params.codec + block_frames layout.now.params.codec }
    requires size { length samples.now ≡ block_numbers layout.now }
    requires range { All Is16Bit samples.now }
    ensures told { (b : List ℕ) → end layout.now layout.now.frames ≤ length b →
        IsBlock layout.now.params (block_at b layout.now number) samples.now → ReadsSpan b layout.now place count number into.old into.new }
    ensures range { RangesSpan layout.now place count number into.old into.new }
{
    keeps_blocks(layout);
    keeps_rules(layout);
    let span = span_of(frames_of(layout), place, count, number);
    copy_span(channels_of(layout), span, samples, into);
}

// The number behind that of the last block with some of `count` frames from a place on.
fn last_block(layout: &Layout, place: u64, count: usize) -> u64
    requires blocks { is_adpcm layout.now.params.codec ≡ true }
    requires within { place + count ≤ layout.now.frames }
    requires some { 1 ≤ count }
    ensures { result ≡ (place + count - 1) / block_frames layout.now.params.codec + 1 }
{
    keeps_blocks(layout);
    keeps_rules(layout);
    (place + count as u64 - 1) / u64::from(frames_of(layout)) + 1
}

// The number behind that of the last block that may be read for `count` frames from a place on, of which those before a
// block are kept: that of the last one with some of them or, where blocks are decoded four at a time, of one behind it,
// as many as such a call may ask for, unless these are fewer than four, which would be read in vain.
fn read_limit(layout: &Layout, place: u64, count: usize, start: u64) -> u64
    requires blocks { is_adpcm layout.now.params.codec ≡ true }
    requires within { place + count ≤ layout.now.frames }
    requires some { 1 ≤ count }
    requires from { place / block_frames layout.now.params.codec ≤ start }
    requires until { start ≤ (place + count - 1) / block_frames layout.now.params.codec + 1 }
    ensures wanted { (place + count - 1) / block_frames layout.now.params.codec < result }
    ensures counted { (result - 1) * block_frames layout.now.params.codec < layout.now.frames }
    ensures most { result - start ≤ count / block_frames layout.now.params.codec + 2 }
{
    keeps_blocks(layout);
    let most = (count as u64 / u64::from(frames_of(layout))).saturating_add(2);
    if !is_fourfold(&layout.params) || most < 4 {
        return last_block(layout, place, count);
    }
    start + most.min(block_count(layout) - start)
}

/// Reads frames of an ADPCM file, as `read_frames` does, by a cache that stands for this file: a block that
/// it holds is not read again.
pub fn read_cached<D: Disk>(
    disk: &mut D,
    layout: &Layout,
    place: u64,
    into: &mut [i32],
    cache: &mut BlockCache,
) -> Result<(), BlockError>
    requires blocks { is_adpcm layout.now.params.codec ≡ true }
    requires held { end layout.now layout.now.frames ≤ (D.state disk.old).size }
    requires whole { length into.old % layout.now.params.channels ≡ 0 }
    requires within { place + length into.old / layout.now.params.channels ≤ layout.now.frames }
    requires cached { Caches D.state disk.old layout.now cache.old }
    ensures cached { Caches D.state disk.new layout.now cache.new }
    ensures told { IfOkTold D.state disk.old result (λ b _. HasFrames b layout.now place into.new) }
    ensures bad { IsErrOf result BlockError.BadBlock → (b : List ℕ) → Tells D.state disk.old b → HasBadFrame b layout.now place (length into.old) }
    ensures range { OnOk result (All Is16Bit into.new) }
    ensures faults { CountsFaultOn D.state disk.old disk.new result }
    ensures reads { OnlyReadsOn D.state D.may_leave D.left_between disk.old disk.new }
    ensures asked { AsksForFrames D.state layout.now (length into.old) disk.old disk.new }
{
    keeps_blocks(layout);
    let count = into.len() / channels_of(layout);
    if count == 0 {
        return Ok(());
    }
    let first = place / u64::from(frames_of(layout));
    let last = last_block(layout, place, count);
    let start = cache.next_missing(first).min(last);
    let limit = read_limit(layout, place, count, start);
    let mut fetched = Fetched {
        first: start,
        next: start,
    };
    for number in first..last {
        fetched = load(disk, layout, number, limit, fetched, cache)?;
        put_span(
            layout,
            place,
            count,
            number,
            cache.block(layout, number),
            into,
        );
    }
    Ok(())
}

/// Reads frames of an ADPCM file, from a place on, into a slice: as many as it has places for, a number for
/// each channel in turn, each in the range of 16 bits. All of them are frames that the layout counts, and
/// the disk has their data.
///
/// The answer is `BadBlock` where one of the blocks that these frames stand in has a bad head, and
/// `DiskFault` where a call of the disk failed first; the slice then holds nothing of use.
pub fn read_frames<D: Disk>(
    disk: &mut D,
    layout: &Layout,
    place: u64,
    into: &mut [i32],
) -> Result<(), BlockError>
    requires blocks { is_adpcm layout.now.params.codec ≡ true }
    requires held { end layout.now layout.now.frames ≤ (D.state disk.old).size }
    requires whole { length into.old % layout.now.params.channels ≡ 0 }
    requires within { place + length into.old / layout.now.params.channels ≤ layout.now.frames }
    ensures told { IfOkTold D.state disk.old result (λ b _. HasFrames b layout.now place into.new) }
    ensures bad { IsErrOf result BlockError.BadBlock → (b : List ℕ) → Tells D.state disk.old b → HasBadFrame b layout.now place (length into.old) }
    ensures range { OnOk result (All Is16Bit into.new) }
    ensures faults { CountsFaultOn D.state disk.old disk.new result }
    ensures reads { OnlyReadsOn D.state D.may_leave D.left_between disk.old disk.new }
    ensures asked { AsksForFrames D.state layout.now (length into.old) disk.old disk.new }
{
    let mut cache = BlockCache::new();
    read_cached(disk, layout, place, into, &mut cache)
}

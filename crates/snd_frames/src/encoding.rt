//! The blocks of a file of ADPCM that is made: the numbers that are given to what makes them.

ghost use Rattle.std.specs.Prelude.{◌≡◌, ◌+◌, ◌-◌, ◌/◌, ◌%◌, ◌≤◌, ◌^◌, ◌↔◌, IfErr, IfOk, IsTrue, OnErr, OnOk, is_some, length, true};
ghost use Rattle.snd_block_writer.specs.Calls.{PutsBlocks, TakesMore};
ghost use Rattle.snd_block_writer.specs.Writing.{padding};
ghost use Rattle.snd_container.specs.Values.{closed_end};
ghost use Rattle.snd_disk.specs.Device.{CountsOn, IsStable};
ghost use Rattle.snd_layout.specs.Blocks.{block_align, is_adpcm};
ghost use Rattle.snd_layout.specs.Params.{AreParams};
ghost use Rattle.snd_layout.specs.Shape.{KeepsRule, end, room as shape_room};
ghost use Rattle.snd_patch.specs.Steps.{MayCount, Updates};
ghost use Rattle.snd_edits.specs.Encoding.{IsEncodeRefusal, MayEncode, encoded_shape, most_encoded};
ghost use Rattle.snd_frames.specs.Encoding.{ClosesBlocks, GivesMore, HoldsClosed, HoldsEncoded, HoldsFinished};
ghost use Rattle.snd_edits.specs.Pacing.{HasPlaceFor, HasRoomToEncode, KeepsPace, PacesIn};
ghost use Rattle.snd_edits.specs.Reading.{FitCodec};
ghost use Rattle.snd_frames.specs.UnderWay.{LeavesAll, LeavesAllIn, LeavesGiven, LeavesGivenIn};

use crate::coding::put_in_range;
use crate::frames::{channels_of, keeps_rules};
use crate::updates::count;
use snd_block_writer::BlockWriter;
use snd_container::{Fixed, room};
use snd_disk::{Disk, Step};
use snd_edits::WriteError;
use snd_fields::Order;
use snd_layout::{Kind, Layout};
use snd_patch::seal;
use snd_pcm::Linear;

// Whether the head has room for so many frames, and the count of a WAVE file for their number.
fn has_room(layout: &Layout, frames: u64) -> bool
    requires { is_adpcm layout.now.params.codec ≡ true }
    ensures { IsTrue result ↔ HasRoomToEncode layout.now frames }
{
    keeps_rules(layout);
    let blocks = frames.div_ceil(u64::from(layout.params.block_frames()));
    let in_room = blocks <= room(layout) / u64::from(layout.params.block_align());
    in_room && (layout.kind != Kind::Wave || frames < 1 << 32)
}

// Whether numbers are in the range of ADPCM. What the block held is lost.
fn fits_codec(layout: &Layout, from: &[i32], block: &mut [u8]) -> bool
    requires { is_adpcm layout.now.params.codec ≡ true }
    ensures { IsTrue result ↔ FitCodec layout.now.params.codec from.now }
{
    let _ = layout;
    put_in_range(Fixed::Linear(Linear::S16(Order::Little)), from, block)
}

/// The frame behind those that the numbers are, where these may be given behind so many. What the block held
/// is lost.
pub fn end_of_encode(
    layout: &Layout,
    place: u64,
    from: &[i32],
    block: &mut [u8],
) -> Result<u64, WriteError>
    requires place { HasPlaceFor layout.now place }
    ensures value { IfOk result (λ end. end ≡ place + length from.now / layout.now.params.channels) }
    ensures rule { KeepsRule layout.now }
    ensures params { AreParams layout.now.params }
    ensures ready { OnOk result (MayEncode from.now layout.now place) }
    ensures fits { IfOk result (HasPlaceFor layout.now) }
    ensures refused { IfErr result (IsEncodeRefusal from.now layout.now place) }
{
    keeps_rules(layout);
    let channels = channels_of(layout);
    if !from.len().is_multiple_of(channels) {
        return Err(WriteError::PartFrame);
    }
    if !fits_codec(layout, from, block) {
        return Err(WriteError::SampleRange);
    }
    let end = place + (from.len() / channels) as u64;
    if end > place && !has_room(layout, end) {
        return Err(WriteError::ContainerFull);
    }
    Ok(end)
}

// Gives a writer the numbers of the frames before `to`, behind those that it was given, and writes each block
// that becomes whole. Where that is automatic, the file is sealed with the frames of whole blocks. Where a
// call of the disk fails, the layout stays.
fn give<D: Disk>(
    disk: &mut D,
    layout: &mut Layout,
    writer: &mut BlockWriter,
    to: u64,
    from: &[i32],
    automatic: bool,
) -> Result<(), Step>
    requires pace { KeepsPace layout.old (to - length from.now / layout.old.params.channels) writer.old }
    requires more { length from.now / layout.old.params.channels ≤ to }
    requires whole { length from.now % layout.old.params.channels ≡ 0 }
    requires fits { HasPlaceFor layout.old to }
    requires in_range { FitCodec layout.old.params.codec from.now }
    requires room_ends { layout.old.start + shape_room layout.old + 8 ≤ 2 ^ 63 }
    requires held { end layout.old layout.old.frames ≤ (D.state disk.old).size }
    ensures takes { OnOk result (TakesMore from.now writer.old writer.new) }
    ensures pace { OnOk result (KeepsPace layout.new to writer.new) }
    ensures layout { OnOk result (layout.new ≡ encoded_shape automatic layout.old to) }
    ensures kept { OnErr result (layout.new ≡ layout.old) }
    ensures contents { OnOk result (HoldsEncoded D.state automatic layout.old to from.now writer.old disk.old disk.new) }
    ensures held { OnOk result (end layout.new layout.new.frames ≤ (D.state disk.new).size) }
    ensures closed { OnOk result (automatic ≡ true → closed_end layout.new layout.new.frames ≤ (D.state disk.new).size) }
    ensures stable { OnOk result (automatic ≡ true → IsStable D.state D.may_leave disk.new) }
    ensures leaves { automatic ≡ true → LeavesGiven D.Disk layout.old to from.now writer.old disk.old disk.new }
    ensures updates { Updates D.state D.left_between layout.old layout.old.frames (most_encoded automatic layout.old (length from.now)) disk.old disk.new }
    ensures faults { CountsOn D.state disk.old disk.new result }
{
    keeps_rules(layout);
    writer.keeps_rule();
    let before = layout.frames;
    let whole = to - to % u64::from(layout.params.block_frames());
    writer.write(disk, layout.start, from)?;
    count(layout, whole);
    if !automatic {
        return Ok(());
    }
    match seal(disk, layout) {
        Ok(()) => Ok(()),
        Err(step) => {
            count(layout, before);
            Err(step)
        }
    }
}

/// Gives what makes the blocks of a file the numbers of the frames before `to`, behind those that it was given,
/// and writes each block that becomes whole. Where that is automatic, the file is sealed with the frames of whole
/// blocks. Where a call of the disk fails, the layout stays.
pub fn give_writer<D: Disk>(
    disk: &mut D,
    layout: &mut Layout,
    writer: &mut Option<Box<BlockWriter>>,
    to: u64,
    from: &[i32],
    automatic: bool,
) -> Result<(), Step>
    requires some { is_some writer.old ≡ true }
    requires paced { PacesIn layout.old (to - length from.now / layout.old.params.channels) writer.old }
    requires more { length from.now / layout.old.params.channels ≤ to }
    requires whole { length from.now % layout.old.params.channels ≡ 0 }
    requires fits { HasPlaceFor layout.old to }
    requires in_range { FitCodec layout.old.params.codec from.now }
    requires room_ends { layout.old.start + shape_room layout.old + 8 ≤ 2 ^ 63 }
    requires held { end layout.old layout.old.frames ≤ (D.state disk.old).size }
    ensures some { is_some writer.new ≡ true }
    ensures paced { OnOk result (PacesIn layout.new to writer.new) }
    ensures layout { OnOk result (layout.new ≡ encoded_shape automatic layout.old to) }
    ensures kept { OnErr result (layout.new ≡ layout.old) }
    ensures gives { OnOk result (GivesMore D.state automatic layout.old to from.now writer.old writer.new disk.old disk.new) }
    ensures held { OnOk result (end layout.new layout.new.frames ≤ (D.state disk.new).size) }
    ensures closed { OnOk result (automatic ≡ true → closed_end layout.new layout.new.frames ≤ (D.state disk.new).size) }
    ensures stable { OnOk result (automatic ≡ true → IsStable D.state D.may_leave disk.new) }
    ensures leaves { automatic ≡ true → LeavesGivenIn D.Disk layout.old to from.now writer.old disk.old disk.new }
    ensures updates { Updates D.state D.left_between layout.old layout.old.frames (most_encoded automatic layout.old (length from.now)) disk.old disk.new }
    ensures faults { CountsOn D.state disk.old disk.new result }
{
    match writer {
        Some(writer) => give(disk, layout, writer, to, from, automatic),
        None => unreachable!(),
    }
}

// Writes the numbers that wait as one more block, which zeros fill, and counts all frames before a place.
fn finish_blocks<D: Disk>(
    disk: &mut D,
    layout: &mut Layout,
    writer: &mut BlockWriter,
    place: u64,
) -> Result<(), Step>
    requires pace { KeepsPace layout.old place writer.old }
    requires fits { HasPlaceFor layout.old place }
    requires room_ends { layout.old.start + shape_room layout.old + 8 ≤ 2 ^ 63 }
    requires held { end layout.old layout.old.frames ≤ (D.state disk.old).size }
    ensures layout { OnOk result (layout.new ≡ record layout.old { frames = place }) }
    ensures rule { OnOk result (KeepsRule layout.new) }
    ensures may { OnOk result (MayCount layout.new layout.new.frames (D.state disk.new).size) }
    ensures contents { OnOk result (HoldsFinished D.state layout.old writer.old disk.old disk.new) }
    ensures puts { PutsBlocks D.Disk layout.old.start (padding writer.old) writer.old disk.old disk.new }
    ensures updates { Updates D.state D.left_between layout.old layout.old.frames (block_align layout.old.params.channels layout.old.params.codec) disk.old disk.new }
    ensures faults { CountsOn D.state disk.old disk.new result }
{
    keeps_rules(layout);
    writer.keeps_rule();
    if writer.waiting() == 0 {
        return Ok(());
    }
    writer.finish(disk, layout.start)?;
    count(layout, place);
    layout.keeps_rule();
    Ok(())
}

// Writes the numbers that wait, and seals the file with all frames before a place.
fn seal_all<D: Disk>(
    disk: &mut D,
    layout: &mut Layout,
    writer: &mut BlockWriter,
    place: u64,
) -> Result<(), Step>
    requires pace { KeepsPace layout.old place writer.old }
    requires fits { HasPlaceFor layout.old place }
    requires room_ends { layout.old.start + shape_room layout.old + 8 ≤ 2 ^ 63 }
    requires held { end layout.old layout.old.frames ≤ (D.state disk.old).size }
    ensures contents { OnOk result (HoldsClosed D.state layout.old place writer.old disk.old disk.new) }
    ensures stable { OnOk result (IsStable D.state D.may_leave disk.new) }
    ensures leaves { LeavesAll D.Disk layout.old place writer.old disk.old disk.new }
    ensures updates { Updates D.state D.left_between layout.old layout.old.frames (64 + block_align layout.old.params.channels layout.old.params.codec) disk.old disk.new }
    ensures faults { CountsOn D.state disk.old disk.new result }
{
    keeps_rules(layout);
    finish_blocks(disk, layout, writer, place)?;
    seal(disk, layout)?;
    Ok(())
}

/// Writes the numbers that wait in what makes the blocks of a file, and seals it with all frames before a place.
pub fn seal_writer<D: Disk>(
    disk: &mut D,
    layout: &mut Layout,
    writer: &mut Option<Box<BlockWriter>>,
    place: u64,
) -> Result<(), Step>
    requires some { is_some writer.old ≡ true }
    requires paced { PacesIn layout.old place writer.old }
    requires fits { HasPlaceFor layout.old place }
    requires room_ends { layout.old.start + shape_room layout.old + 8 ≤ 2 ^ 63 }
    requires held { end layout.old layout.old.frames ≤ (D.state disk.old).size }
    ensures contents { OnOk result (ClosesBlocks D.state layout.old place writer.old disk.old disk.new) }
    ensures stable { OnOk result (IsStable D.state D.may_leave disk.new) }
    ensures leaves { LeavesAllIn D.Disk layout.old place writer.old disk.old disk.new }
    ensures updates { Updates D.state D.left_between layout.old layout.old.frames (64 + block_align layout.old.params.channels layout.old.params.codec) disk.old disk.new }
    ensures faults { CountsOn D.state disk.old disk.new result }
{
    match writer {
        Some(writer) => seal_all(disk, layout, writer, place),
        None => unreachable!(),
    }
}

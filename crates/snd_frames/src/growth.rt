//! Which frames may be written.

ghost use Rattle.std.specs.Prelude.{◌^◌, ◌≡◌, ◌+◌, ◌/◌, ◌<◌, ◌≤◌, ◌↔◌, false, IfErr, IfOk, IsTrue, OnOk, is_none, length};
ghost use Rattle.snd_layout.specs.Params.{data_bytes};
ghost use Rattle.snd_layout.specs.Shape.{KeepsRule, room as shape_room};
ghost use Rattle.snd_container.specs.Sound.{fixed_of};
ghost use Rattle.snd_edits.specs.Reading.{FitCodec};
ghost use Rattle.snd_edits.specs.WriteCalls.{IsGrowthRefusal, IsWriteRefusal, MayWrite, is_whole_field};
ghost use Rattle.snd_frames.specs.Given.{HoldsGiven, MayBeGiven, given};
ghost use Rattle.snd_frames.specs.Writing.{HoldsCoded};

use crate::codec::form_of;
use crate::coding::put_in_range;
use crate::frames::channels_of;
use crate::given::Given;
use snd_container::room;
use snd_edits::WriteError;
use snd_layout::{Layout, one_sector};

// Whether numbers are in the range of the codec. Where they are, the samples that are made
// early then stand at the front of the block.
fn fits_codec(layout: &Layout, from: &[i32], block: &mut [u8]) -> bool
    requires { is_none (fixed_of layout.now.params.codec) ≡ false }
    ensures fit { IsTrue result ↔ FitCodec layout.now.params.codec from.now }
    ensures coded { IsTrue result → HoldsCoded layout.now.params.codec from.now block.new }
{
    let Some(form) = form_of(layout) else {
        unreachable!()
    };
    put_in_range(form, from, block)
}

// .. of what is given. Bytes are the samples of such numbers.
fn fits_given(layout: &Layout, from: Given<'_>, block: &mut [u8]) -> bool
    requires linear { is_none (fixed_of layout.now.params.codec) ≡ false }
    requires given { MayBeGiven layout.now from }
    ensures fit { IsTrue result ↔ FitCodec layout.now.params.codec (given layout.now from.entry) }
    ensures coded { IsTrue result → HoldsGiven layout.now from.entry block.new }
{
    match from {
        Given::Numbers(numbers) => fits_codec(layout, numbers, block),
        Given::Bytes(_) => true,
    }
}

// How many numbers are given.
fn count_given(layout: &Layout, from: Given<'_>) -> usize
    requires linear { is_none (fixed_of layout.now.params.codec) ≡ false }
    requires given { MayBeGiven layout.now from }
    ensures value { result ≡ length (given layout.now from.entry) }
    ensures few { result < 2 ^ 63 }
{
    let Some(form) = form_of(layout) else {
        unreachable!()
    };
    match from {
        Given::Numbers(numbers) => numbers.len(),
        Given::Bytes(bytes) => bytes.len() / form.bytes(),
    }
}

// Whether the head has room for the data of so many frames.
fn has_room(layout: &Layout, frames: u64) -> bool
    requires { is_none (fixed_of layout.now.params.codec) ≡ false }
    ensures { IsTrue result ↔ (data_bytes layout.now.params frames ≤ shape_room layout.now) }
{
    let Some(form) = form_of(layout) else {
        unreachable!()
    };
    let align = form.bytes() as u64 * channels_of(layout) as u64;
    frames <= room(layout) / align
}

// Whether there may be so many frames, more than there are.
fn may_grow(layout: &Layout, to: u64) -> Result<(), WriteError>
    requires { is_none (fixed_of layout.now.params.codec) ≡ false }
    ensures free { OnOk result (layout.now.trailing ≡ false) }
    ensures in_room { OnOk result (data_bytes layout.now.params to ≤ shape_room layout.now) }
    ensures refused { IfErr result (IsGrowthRefusal layout.now to) }
{
    if layout.trailing {
        return Err(WriteError::TrailingData);
    }
    if !has_room(layout, to) {
        return Err(WriteError::ContainerFull);
    }
    Ok(())
}

/// The frame behind those that are given, where these may be written from a frame on, which is at most the
/// end. The samples that are made early then stand at the front of the block.
pub fn end_of_write(
    layout: &Layout,
    place: u64,
    from: Given<'_>,
    block: &mut [u8],
) -> Result<u64, WriteError>
    requires linear { is_none (fixed_of layout.now.params.codec) ≡ false }
    requires given { MayBeGiven layout.now from }
    requires placed { place ≤ layout.now.frames }
    ensures value { IfOk result (λ end. end ≡ place + length (given layout.now from.entry) / layout.now.params.channels) }
    ensures some { 1 ≤ layout.now.params.channels }
    ensures rule { KeepsRule layout.now }
    ensures ready { OnOk result (MayWrite (given layout.now from.entry) layout.now place) }
    ensures coded { OnOk result (HoldsGiven layout.now from.entry block.new) }
    ensures refused { IfErr result (IsWriteRefusal (given layout.now from.entry) layout.now place) }
{
    layout.keeps_rule();
    let channels = channels_of(layout);
    let numbers = count_given(layout, from);
    if !numbers.is_multiple_of(channels) {
        return Err(WriteError::PartFrame);
    }
    if !fits_given(layout, from, block) {
        return Err(WriteError::SampleRange);
    }
    let count = (numbers / channels) as u64;
    let end = place + count;
    if end > layout.frames {
        may_grow(layout, end)?;
    }
    Ok(end)
}

/// Whether the field that decides the count lies in one sector.
pub fn has_whole_field(layout: &Layout) -> bool
    ensures { result ≡ is_whole_field layout.now }
{
    layout.keeps_rule();
    one_sector(layout.inner)
}

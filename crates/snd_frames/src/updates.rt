//! Frames put on a disk, and the head brought up to them.

ghost use Rattle.std.specs.Prelude.{◌≡◌, ◌+◌, ◌/◌, ◌<◌, ◌≤◌, ◌^◌, false, true, OnErr, OnOk, is_none, length, max};
ghost use Rattle.snd_disk.specs.Device.{CountsOn, IsStable};
ghost use Rattle.snd_disk.specs.State.{IsWritten};
ghost use Rattle.snd_layout.specs.Params.{data_bytes};
ghost use Rattle.snd_layout.specs.Shape.{end, room};
ghost use Rattle.snd_container.specs.Sound.{fixed_of};
ghost use Rattle.snd_layout.specs.Container.{HasRoomFor};
ghost use Rattle.snd_block_writer.specs.Puts.{LeavesPartly};
ghost use Rattle.snd_patch.specs.Images.{LeavesCutting};
ghost use Rattle.snd_container.specs.Values.{closed_end};
ghost use Rattle.snd_patch.specs.Steps.{Becomes, KeepsSize, MayCount, Updates};
ghost use Rattle.snd_edits.specs.Edits.{closed_behind, coded, count_written, cut_off, sealed_where, written_bytes, written_shape};
ghost use Rattle.snd_frames.specs.Putting.{LeavesFields, LeavesWritten, PutsClosing, PutsData};
ghost use Rattle.snd_edits.specs.Reading.{FitCodec, bytes_of_frames};
ghost use Rattle.snd_edits.specs.WriteCalls.{MayWrite};
ghost use Rattle.snd_frames.specs.Given.{HoldsGiven, MayBeGiven, coded_given, given};
ghost use Rattle.snd_edits.specs.Writing.{IsKeptUp, closed_size, most_fields, put_size};
ghost use Rattle.snd_frames.specs.Writing.{HoldsCoded, PutsAt};

use crate::codec::form_of;
use crate::frames::{keeps_rules, place_of};
use crate::given::Given;
use crate::writes::{write_run, write_whole};
use snd_container::closing_bytes;
use snd_disk::{Disk, Step};
use snd_layout::Layout;
use snd_patch::{cut_behind, grow, put_closing};

// Writes the numbers of frames over the data from a frame on, which is at most the end. The samples
// that are made early stand at the front of the block.
fn write_data<D: Disk>(
    disk: &mut D,
    layout: &Layout,
    place: u64,
    from: &[i32],
    block: &[u8],
) -> Result<(), Step>
    requires linear { is_none (fixed_of layout.now.params.codec) ≡ false }
    requires fit { FitCodec layout.now.params.codec from.now }
    requires coded { HoldsCoded layout.now.params.codec from.now block.now }
    requires placed { place ≤ layout.now.frames }
    requires held { end layout.now layout.now.frames ≤ (D.state disk.old).size }
    requires fits { end layout.now place + length (coded layout.now.params from.now) < 2 ^ 63 }
    ensures done { OnOk result (IsWritten (end layout.now place) (coded layout.now.params from.now) (D.state disk.old) (D.state disk.new)) }
    ensures puts { PutsAt D.state D.left_between (end layout.now place) (length (coded layout.now.params from.now)) disk.old disk.new }
    ensures partly { PutsData D.Disk layout.now place from.now disk.old disk.new }
    ensures faults { CountsOn D.state disk.old disk.new result }
{
    let Some(form) = form_of(layout) else {
        unreachable!()
    };
    write_run(disk, form, place_of(layout, form, place), from, block)
}

// Writes frames over the data, as `write_data` does, of which the bytes are at hand.
fn write_ready<D: Disk>(disk: &mut D, layout: &Layout, place: u64, bytes: &[u8]) -> Result<(), Step>
    requires linear { is_none (fixed_of layout.now.params.codec) ≡ false }
    requires placed { place ≤ layout.now.frames }
    requires held { end layout.now layout.now.frames ≤ (D.state disk.old).size }
    requires fits { end layout.now place + length bytes.now < 2 ^ 63 }
    ensures done { OnOk result (IsWritten (end layout.now place) bytes.now (D.state disk.old) (D.state disk.new)) }
    ensures puts { PutsAt D.state D.left_between (end layout.now place) (length bytes.now) disk.old disk.new }
    ensures partly { LeavesPartly D.Disk (end layout.now place) bytes.now disk.old disk.new }
    ensures faults { CountsOn D.state disk.old disk.new result }
{
    let Some(form) = form_of(layout) else {
        unreachable!()
    };
    write_whole(disk, place_of(layout, form, place), bytes)
}

// Writes frames over the data, given either way.
fn write_any<D: Disk>(
    disk: &mut D,
    layout: &Layout,
    place: u64,
    from: Given<'_>,
    block: &[u8],
) -> Result<(), Step>
    requires linear { is_none (fixed_of layout.now.params.codec) ≡ false }
    requires fit { FitCodec layout.now.params.codec (given layout.now from) }
    requires given { MayBeGiven layout.now from }
    requires coded { HoldsGiven layout.now from block.now }
    requires placed { place ≤ layout.now.frames }
    requires held { end layout.now layout.now.frames ≤ (D.state disk.old).size }
    requires fits { end layout.now place + length (coded_given layout.now from) < 2 ^ 63 }
    ensures done { OnOk result (IsWritten (end layout.now place) (coded_given layout.now from.entry) (D.state disk.old) (D.state disk.new)) }
    ensures puts { PutsAt D.state D.left_between (end layout.now place) (length (coded_given layout.now from.entry)) disk.old disk.new }
    ensures partly { PutsData D.Disk layout.now place (given layout.now from.entry) disk.old disk.new }
    ensures faults { CountsOn D.state disk.old disk.new result }
{
    keeps_rules(layout);
    match from {
        Given::Numbers(numbers) => write_data(disk, layout, place, numbers, block),
        Given::Bytes(bytes) => write_ready(disk, layout, place, bytes),
    }
}

// Puts what closes the data of so many frames behind them, where these are more than there were.
fn close_behind<D: Disk>(disk: &mut D, layout: &Layout, to: u64) -> Result<(), Step>
    requires { MayCount layout.now to (D.state disk.old).size }
    ensures contents { OnOk result (Becomes D.state (λ b. closed_behind b layout.now to) disk.old disk.new) }
    ensures size { OnOk result ((D.state disk.new).size ≡ closed_size (D.state disk.old).size layout.now to) }
    ensures partly { PutsClosing D.Disk layout.now to disk.old disk.new }
    ensures updates { Updates D.state D.left_between layout.now to 8 disk.old disk.new }
    ensures faults { CountsOn D.state disk.old disk.new result }
{
    if to <= layout.frames {
        return Ok(());
    }
    if closing_bytes(layout, to).is_empty() {
        return Ok(());
    }
    put_closing(disk, layout, to)?;
    Ok(())
}

// Notes that there are so many frames, of which the head does not say.
pub(crate) fn count(layout: &mut Layout, to: u64)
    requires room { HasRoomFor layout.old to }
    requires on_disk { end layout.old to + 8 ≤ 2 ^ 63 }
    ensures { layout.new ≡ record layout.old { frames = to } }
{
    layout.keeps_rule();
    layout.frames = to;
}

// Brings the head up to so many frames, where that is automatic.
fn bring_up<D: Disk>(
    disk: &mut D,
    layout: &mut Layout,
    to: u64,
    automatic: bool,
) -> Result<(), Step>
    requires counts { MayCount layout.old to (D.state disk.old).size }
    requires more { layout.old.frames ≤ to }
    requires stays { layout.old.trailing ≡ true → layout.old.frames ≡ to }
    requires kept_up { automatic ≡ true → layout.old.trailing ≡ false → IsKeptUp layout.old to (D.state disk.old).size }
    ensures contents { OnOk result (Becomes D.state (λ b. sealed_where automatic b layout.old to) disk.old disk.new) }
    ensures size { OnOk result (KeepsSize D.state disk.old disk.new) }
    ensures stable { OnOk result (automatic ≡ true → IsStable D.state D.may_leave disk.new) }
    ensures layout { OnOk result (layout.new ≡ written_shape automatic layout.old to) }
    ensures kept { OnErr result (layout.new ≡ layout.old) }
    ensures leaves { LeavesFields D.Disk layout.old to disk.old disk.new }
    ensures updates { Updates D.state D.left_between layout.old to (most_fields automatic) disk.old disk.new }
    ensures faults { CountsOn D.state disk.old disk.new result }
{
    layout.keeps_rule();
    if !automatic {
        count(layout, to);
        return Ok(());
    }
    grow(disk, layout, to)?;
    Ok(())
}

// Writes frames from a frame on, which is at most the end, where there are so many frames
// then. Where that is automatic, the head is brought up to them.
fn put_frames<D: Disk>(
    disk: &mut D,
    layout: &mut Layout,
    place: u64,
    to: u64,
    from: Given<'_>,
    block: &[u8],
    automatic: bool,
) -> Result<(), Step>
    requires linear { is_none (fixed_of layout.old.params.codec) ≡ false }
    requires fit { FitCodec layout.old.params.codec (given layout.old from) }
    requires given { MayBeGiven layout.old from }
    requires coded { HoldsGiven layout.old from block.now }
    requires placed { place ≤ layout.old.frames }
    requires held { end layout.old layout.old.frames ≤ (D.state disk.old).size }
    requires more { layout.old.frames ≤ to }
    requires stays { layout.old.trailing ≡ true → layout.old.frames ≡ to }
    requires within { end layout.old place + length (coded_given layout.old from) ≤ end layout.old to }
    requires reaches { end layout.old to ≤ max (end layout.old layout.old.frames) (end layout.old place + length (coded_given layout.old from)) }
    requires room { HasRoomFor layout.old to }
    requires on_disk { end layout.old to + 8 ≤ 2 ^ 63 }
    requires kept_up { automatic ≡ true → layout.old.trailing ≡ false → IsKeptUp layout.old layout.old.frames (D.state disk.old).size }
    ensures contents { OnOk result (Becomes D.state (λ b. written_bytes automatic b layout.old place to (given layout.old from.entry)) disk.old disk.new) }
    ensures size { OnOk result (end layout.old to ≤ (D.state disk.new).size) }
    ensures grows { OnOk result ((D.state disk.new).size ≡ put_size (D.state disk.old).size layout.old place (given layout.old from.entry) to) }
    ensures closed { OnOk result (automatic ≡ true → layout.old.trailing ≡ false → closed_end layout.old to ≤ (D.state disk.new).size) }
    ensures stable { OnOk result (automatic ≡ true → IsStable D.state D.may_leave disk.new) }
    ensures layout { OnOk result (layout.new ≡ written_shape automatic layout.old to) }
    ensures kept { OnErr result (layout.new ≡ layout.old) }
    ensures leaves { LeavesWritten D.Disk layout.old place to (given layout.old from.entry) disk.old disk.new }
    ensures updates { Updates D.state D.left_between layout.old place (length (coded_given layout.old from.entry) + 8 + most_fields automatic) disk.old disk.new }
    ensures faults { CountsOn D.state disk.old disk.new result }
{
    write_any(disk, layout, place, from, block)?;
    close_behind(disk, layout, to)?;
    bring_up(disk, layout, to, automatic)
}

/// Writes so many frames from a frame on, which is at most the end. There are then
/// the frames that there were, or those up to the last one that is written. Where that is automatic, the
/// head is brought up to them.
pub fn write_over<D: Disk>(
    disk: &mut D,
    layout: &mut Layout,
    place: u64,
    count: u64,
    from: Given<'_>,
    block: &[u8],
    automatic: bool,
) -> Result<(), Step>
    requires linear { is_none (fixed_of layout.old.params.codec) ≡ false }
    requires room_ends { layout.old.start + room layout.old + 8 ≤ 2 ^ 63 }
    requires sized { layout.old.unknown_length ≡ false }
    requires placed { place ≤ layout.old.frames }
    requires held { end layout.old layout.old.frames ≤ (D.state disk.old).size }
    requires ready { MayWrite (given layout.old from) layout.old place }
    requires given { MayBeGiven layout.old from }
    requires coded { HoldsGiven layout.old from block.now }
    requires sum { place + count < 2 ^ 64 }
    requires count { count ≡ length (given layout.old from) / layout.old.params.channels }
    requires kept_up { automatic ≡ true → layout.old.trailing ≡ false → IsKeptUp layout.old layout.old.frames (D.state disk.old).size }
    ensures contents { OnOk result (Becomes D.state (λ b. written_bytes automatic b layout.old place (count_written layout.old place count) (given layout.old from.entry)) disk.old disk.new) }
    ensures size { OnOk result (end layout.old (count_written layout.old place count) ≤ (D.state disk.new).size) }
    ensures grows { OnOk result ((D.state disk.new).size ≡ put_size (D.state disk.old).size layout.old place (given layout.old from.entry) (count_written layout.old place count)) }
    ensures closed { OnOk result (automatic ≡ true → layout.old.trailing ≡ false → closed_end layout.old (count_written layout.old place count) ≤ (D.state disk.new).size) }
    ensures stable { OnOk result (automatic ≡ true → IsStable D.state D.may_leave disk.new) }
    ensures layout { OnOk result (layout.new ≡ written_shape automatic layout.old (count_written layout.old place count)) }
    ensures kept { OnErr result (layout.new ≡ layout.old) }
    ensures leaves { LeavesWritten D.Disk layout.old place (count_written layout.old place count) (given layout.old from.entry) disk.old disk.new }
    ensures updates { Updates D.state D.left_between layout.old place (bytes_of_frames layout.old.params count + 8 + most_fields automatic) disk.old disk.new }
    ensures faults { CountsOn D.state disk.old disk.new result }
{
    layout.keeps_rule();
    layout.params.are_good();
    let to = layout.frames.max(place + count);
    put_frames(disk, layout, place, to, from, block, automatic)
}

/// Cuts off all that stands behind what closes the data, and notes that.
pub fn cut_off<D: Disk>(disk: &mut D, layout: &mut Layout) -> Result<(), Step>
    requires { MayCount layout.old layout.old.frames (D.state disk.old).size }
    ensures contents { OnOk result (Becomes D.state (λ b. cut_off b layout.old layout.old.frames) disk.old disk.new) }
    ensures size { OnOk result ((D.state disk.new).size ≡ closed_end layout.old layout.old.frames) }
    ensures stable { OnOk result (IsStable D.state D.may_leave disk.new) }
    ensures layout { OnOk result (layout.new ≡ record layout.old { trailing = false }) }
    ensures leaves { LeavesCutting D.Disk layout.old layout.old.frames disk.old disk.new }
    ensures kept { OnErr result (layout.new ≡ layout.old) }
    ensures updates { Updates D.state D.left_between layout.old layout.old.frames 8 disk.old disk.new }
    ensures faults { CountsOn D.state disk.old disk.new result }
{
    let frames = layout.frames;
    cut_behind(disk, layout, frames)?;
    layout.trailing = false;
    Ok(())
}

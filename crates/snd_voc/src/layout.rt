//! What a Creative Voice file says of itself.

ghost use Rattle.std.specs.Prelude.{◌≡◌, ◌+◌, ◌^◌, ◌<◌, ◌≤◌, ◌⊎◌, None, Ok, All, IfOk, length};
ghost use Rattle.snd_disk.specs.Device.{AsksAtMost, CountsOn, OnlyReadsOn, IfOkTold};
ghost use Rattle.snd_layout.specs.Fit.{fit_refusal};
ghost use Rattle.snd_layout.specs.Opened.{CountsOpening, EndsIn, OpensAs};
ghost use Rattle.snd_layout.specs.Shape.{end, room};
ghost use Rattle.snd_layout.specs.declared.kind.Kind.TheVariants.{Voc};
ghost use Rattle.snd_voc.specs.Layout.{data_start, first_place, goes_on, held, is_head, shape_of, voc_layout, with_sound};
ghost use Rattle.snd_voc.specs.Parts.{IsHeld, IsPlaced, IsSound};

use crate::blocks::{Sound, find_sound};
use crate::reads::read_from;
use crate::sound::{SOUND_HEAD, read_format};
use snd_disk::{Disk, Step};
use snd_fields::{Order, u16_at, u24_at};
use snd_layout::{Field, Kind, LAST_PLACE, Layout, OpenError, OpenRefusal, Params, PieceList};
use std::alloc::Global;

/// The bytes before the first block in a file of this library's, and the least that a head has.
const HEAD_SIZE: usize = 26;

/// How many blocks are passed over at most.
const MOST_BLOCKS: u64 = 256;

// Whether the head has a size and the check of its version.
fn is_head(head: &[u8]) -> bool
    requires { length head.now ≡ 26 }
    ensures { result ≡ is_head head.now }
{
    let version = u32::from(u16_at(head, 22, Order::Little));
    let check = u32::from(u16_at(head, 24, Order::Little));
    26 <= u16_at(head, 20, Order::Little) && check == (65535 - version + 0x1234) % 65536
}

// The place of the first block.
fn read_place<D: Disk>(disk: &mut D, size: u64) -> Result<u64, OpenError>
    requires { size ≡ (D.state disk.old).size }
    ensures told { OpensAs D.state disk.old first_place result }
    ensures early { IfOk result (λ place. place < 2 ^ 16) }
    ensures faults { CountsOpening D.state disk.old disk.new result }
    ensures reads { OnlyReadsOn D.state D.may_leave D.left_between disk.old disk.new }
    ensures asked { AsksAtMost D.state 26 disk.old disk.new }
{
    if size < HEAD_SIZE as u64 {
        return Err(OpenError::Refused(OpenRefusal::ShortHeader));
    }
    let mut head = [0; HEAD_SIZE];
    read_from(disk, 0, &mut head)?;
    if !is_head(&head) {
        return Err(OpenError::Refused(OpenRefusal::BadField));
    }
    Ok(u64::from(u16_at(&head, 20, Order::Little)))
}

// Whether the file goes on behind a place.
fn goes_on<D: Disk>(disk: &mut D, size: u64, place: u64) -> Result<bool, Step>
    requires size { size ≡ (D.state disk.old).size }
    requires early { place + 1 < 2 ^ 63 }
    ensures told { IfOkTold D.state disk.old result (λ b more. more ≡ goes_on b place) }
    ensures faults { CountsOn D.state disk.old disk.new result }
    ensures reads { OnlyReadsOn D.state D.may_leave D.left_between disk.old disk.new }
    ensures asked { AsksAtMost D.state 1 disk.old disk.new }
{
    if place + 1 < size {
        return Ok(true);
    }
    let mut last = [0; 1];
    read_from(disk, place, &mut last)?;
    Ok(last[0] != 0)
}

// The data bytes that a file of this size holds of so many from a place on.
fn held_of(size: u64, start: u64, len: u64) -> u64
    ensures value { result ≡ held size start len }
    ensures within { result ≤ len }
    ensures placed { (result ≡ 0) ⊎ (start + result ≤ size) }
{
    len.min(size.min(LAST_PLACE).saturating_sub(start))
}

// The layout that the parts give.
fn layout_of(
    alloc: Global,
    size: u64,
    sound: Sound,
    params: Params,
    declared: u64,
    trailing: bool,
) -> Layout
    requires fits { fit_refusal Voc params ≡ None }
    requires sound { IsPlaced sound }
    requires few { declared < 2 ^ 32 }
    requires within { data_start sound ≤ size }
    ensures value { result ≡ shape_of size sound params declared trailing }
    ensures held { IsHeld size result }
{
    params.are_good();
    let start = sound.data_start();
    let frames = held_of(size, start, declared) / u64::from(params.block_align());
    Layout {
        kind: Kind::Voc,
        params,
        start,
        frames,
        declared,
        inner: Field {
            at: sound.at + 1,
            size: 3,
        },
        outer: None,
        side: None,
        trailing,
        unknown_length: false,
        reserve: None,
        pieces: PieceList::new(alloc),
    }
}

// The layout of a file with this block of sound, or why its format is refused.
fn layout_at<D: Disk>(
    alloc: Global,
    disk: &mut D,
    size: u64,
    sound: Sound,
) -> Result<Layout, OpenError>
    requires size { size ≡ (D.state disk.old).size }
    requires sound { IsPlaced sound }
    ensures told { OpensAs D.state disk.old (λ b. with_sound b (Ok sound)) result }
    ensures held { IfOk result (IsHeld size) }
    ensures faults { CountsOpening D.state disk.old disk.new result }
    ensures reads { OnlyReadsOn D.state D.may_leave D.left_between disk.old disk.new }
    ensures asked { AsksAtMost D.state 21 disk.old disk.new }
{
    let mut head = [0; SOUND_HEAD];
    read_from(disk, sound.at, &mut head)?;
    let params = read_format(disk, size, sound, &head)?;
    let declared = sound.data_len(u24_at(&head, 1, Order::Little));
    let trailing = goes_on(disk, size, sound.data_start() + declared)?;
    Ok(layout_of(alloc, size, sound, params, declared, trailing))
}

// The layout of a file of this size, or why it is refused.
fn find_layout<D: Disk>(alloc: Global, disk: &mut D, size: u64) -> Result<Layout, OpenError>
    requires { size ≡ (D.state disk.old).size }
    ensures told { OpensAs D.state disk.old voc_layout result }
    ensures held { IfOk result (IsHeld size) }
    ensures faults { CountsOpening D.state disk.old disk.new result }
    ensures reads { OnlyReadsOn D.state D.may_leave D.left_between disk.old disk.new }
    ensures asked { AsksAtMost D.state 1075 disk.old disk.new }
{
    let place = read_place(disk, size)?;
    let sound = find_sound(disk, size, place, MOST_BLOCKS)?;
    layout_at(alloc, disk, size, sound)
}

/// Reads what a Creative Voice file says of itself, after "The Developer Kit for Sound Blaster Series"
/// (Creative Labs, 1991). It reads heads alone and at most one byte behind the sound, at most 8192 bytes,
/// and never writes.
///
/// The answer is `Refused` with the first reason, by number, for which the file has no layout;
/// `DiskFault` where a call of the disk failed. Nothing else is answered.
#[tactic(auto, using(snd_layout::proofs::Answered::opens_from))]
pub fn open_layout<D: Disk>(alloc: Global, disk: &mut D) -> Result<Layout, OpenError>
    ensures opened { OpensAs D.state disk.old voc_layout result }
    ensures held { IfOk result (λ l. end l l.frames ≤ (D.state disk.old).size) }
    ensures room_ends { IfOk result (λ l. l.start + room l + 8 ≤ 2 ^ 63) }
    ensures pieces_held { IfOk result (λ l. All (EndsIn (D.state disk.old).size) l.pieces) }
    ensures faults { CountsOpening D.state disk.old disk.new result }
    ensures reads { OnlyReadsOn D.state D.may_leave D.left_between disk.old disk.new }
    ensures asked { AsksAtMost D.state 8192 disk.old disk.new }
{
    let Ok(size) = disk.len() else {
        return Err(OpenError::DiskFault(Step::Len));
    };
    find_layout(alloc, disk, size)
}

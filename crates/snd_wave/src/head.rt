//! The head of a file that is made.

ghost use Rattle.std.specs.Prelude.{◌≡◌, ◌+◌, ◌≤◌, ◌++◌, [], None, Some, false, is_some, length, OnErr, OnOk, IfErr, IfOk, IfSome};
ghost use Rattle.snd_disk.specs.Device.{CountsOn, GoesOnFrom, WritesAtMost};
ghost use Rattle.arrayvec.specs.ArrayVec.{array_vec_len};
ghost use Rattle.snd_chunks.specs.Heads.{IsHeadIn};
ghost use Rattle.snd_chunks.specs.Written.{chunks_bytes};
ghost use Rattle.snd_fields.specs.declared.field.Order.TheVariants.{Little};
ghost use Rattle.snd_layout.specs.Blocks.{is_adpcm};
ghost use Rattle.snd_layout.specs.Fit.{fit_refusal};
ghost use Rattle.snd_layout.specs.Laid.{HoldsJust, IsLayCause};
ghost use Rattle.snd_layout.specs.Opened.{CountsOpening};
ghost use Rattle.snd_layout.specs.declared.kind.Kind.TheVariants.{Wave};
ghost use Rattle.snd_wave.specs.Put.{IsHeadOf, reserved_heads};
ghost use Rattle.snd_wave.specs.Written.{MayReserve, has_fact, inner_at, lead_of, made_shape, new_fact, plain_start, reserved_head, reserved_shape, side_at, wave_head};

use crate::reserve::{RESERVE_SIZE, lead_size};
use arrayvec::ArrayVec;
use snd_chunks::put_chunk;
use snd_disk::{Disk, Step};
use snd_fields::{Order, put_all, put_number};
use snd_layout::{Codec, Field, Kind, Layout, OpenError, Params, PieceList, put_fmt, write_whole};
use std::alloc::Global;

pub(crate) fn has_fact(params: &Params) -> bool
    ensures { result ≡ has_fact params.now.codec }
{
    matches!(
        params.codec,
        Codec::MuLaw | Codec::ALaw | Codec::Ima { .. } | Codec::Ms { .. }
    )
}

// Where the data begin in a file without pieces and without a reservation.
pub(crate) fn plain_start(params: &Params) -> u64
    ensures value { result ≡ plain_start params.now.codec }
    ensures least { 44 ≤ result }
    ensures most { result ≤ 90 }
{
    match params.codec {
        Codec::MuLaw | Codec::ALaw => 58,
        Codec::Ima { .. } => 60,
        Codec::Ms { .. } => 90,
        _ => 44,
    }
}

// The field that decides the count.
pub(crate) fn inner_of(params: &Params, start: u64) -> Field
    requires { 12 ≤ start }
    ensures { result ≡ inner_at params.now.codec start }
{
    if params.codec.is_adpcm() {
        Field {
            at: start - 12,
            size: 12,
        }
    } else {
        Field {
            at: start - 4,
            size: 4,
        }
    }
}

// The count that is not read.
pub(crate) fn side_of(params: &Params, start: u64) -> Option<Field>
    requires { 12 ≤ start }
    ensures { result ≡ side_at params.now.codec start }
{
    if has_fact(params) && !params.codec.is_adpcm() {
        Some(Field {
            at: start - 12,
            size: 4,
        })
    } else {
        None
    }
}

// Puts the count of no frames behind the others, where there is one.
pub(crate) fn put_fact(into: &mut ArrayVec<u8, 128>, params: &Params)
    requires { array_vec_len into.old + 13 ≤ 128 }
    ensures items { into.new.items ≡ into.old.items ++ chunks_bytes Little (new_fact params.now.codec 0) }
    ensures few { array_vec_len into.new ≤ array_vec_len into.old + 13 }
{
    if has_fact(params) {
        put_chunk(into, b"fact", &[0; 4]);
    }
}

// Puts the reserved chunk behind the others, where there is one.
fn put_lead(into: &mut ArrayVec<u8, 128>, reserve: Option<u32>)
    requires room { array_vec_len into.old + 36 ≤ 128 }
    requires size { IfSome reserve (λ len. len ≡ 28) }
    ensures items { into.new.items ≡ into.old.items ++ chunks_bytes Little (lead_of reserve) }
    ensures few { array_vec_len into.new ≤ array_vec_len into.old + 36 }
{
    if let Some(size) = reserve {
        put_all(into, b"JUNK");
        put_number(into, Order::Little, u64::from(size));
        put_all(into, &[0; RESERVE_SIZE]);
    }
}

// The head of a file without pieces and frames, with a reservation or with none.
fn plain_head(params: &Params, reserve: Option<u32>) -> ArrayVec<u8, 128>
    requires fits { fit_refusal Wave params.now ≡ None }
    requires reserve { MayReserve reserve params.now.codec }
    ensures { result.items ≡ reserved_head reserve params.now [] 0 }
{
    params.are_good();
    let mut format = ArrayVec::new();
    put_fmt(*params, &mut format);
    let mut head = ArrayVec::new();
    put_all(&mut head, b"RIFF");
    put_number(
        &mut head,
        Order::Little,
        plain_start(params) + lead_size(reserve) - 8,
    );
    put_all(&mut head, b"WAVE");
    put_lead(&mut head, reserve);
    put_chunk(&mut head, b"fmt ", format.as_slice());
    put_fact(&mut head, params);
    put_all(&mut head, b"data");
    put_number(&mut head, Order::Little, 0);
    head
}

// What it says.
fn plain_layout(alloc: Global, params: Params, reserve: Option<u32>) -> Layout
    requires fits { fit_refusal Wave params ≡ None }
    requires reserve { MayReserve reserve params.codec }
    ensures { result ≡ reserved_shape reserve params [] 0 }
{
    params.are_good();
    let start = plain_start(&params) + lead_size(reserve);
    Layout {
        kind: Kind::Wave,
        params,
        start,
        frames: 0,
        declared: 0,
        inner: inner_of(&params, start),
        outer: Some(Field { at: 4, size: 4 }),
        side: side_of(&params, start),
        trailing: false,
        unknown_length: false,
        reserve,
        pieces: PieceList::new(alloc),
    }
}

/// Makes a disk a WAVE file with these parameters, no frames and no pieces, whatever it held before. A
/// WAVE file holds the parameters. It writes at most 2048 bytes and reads none. The only error is
/// `DiskFault`, where a call of the disk failed.
pub fn lay_head<D: Disk>(alloc: Global, disk: &mut D, params: Params) -> Result<Layout, OpenError>
    requires { fit_refusal Wave params ≡ None }
    ensures laid { OnOk result (HoldsJust (wave_head params []) (D.state disk.old) (D.state disk.new)) }
    ensures layout { IfOk result (λ l. l ≡ made_shape params [] 0) }
    ensures head { IfOk result (λ l. IsHeadOf (D.state disk.new) l params []) }
    ensures cause { IfErr result (IsLayCause (D.state disk.old).faults (D.state disk.new).faults) }
    ensures faults { CountsOpening D.state disk.old disk.new result }
    ensures name { (D.state disk.new).name ≡ (D.state disk.old).name }
    ensures told { is_some (D.state disk.new).contents ≡ is_some (D.state disk.old).contents }
    ensures time { GoesOnFrom D.state D.left_between disk.old disk.new }
    ensures written { WritesAtMost D.state 2048 disk.old disk.new }
    ensures asked { (D.state disk.new).asked ≡ (D.state disk.old).asked }
{
    params.are_good();
    let head = plain_head(&params, None);
    match write_whole(disk, head.as_slice()) {
        Ok(()) => Ok(plain_layout(alloc, params, None)),
        Err(step) => Err(OpenError::DiskFault(step)),
    }
}

/// Lays the head of a WAVE file anew with a chunk `JUNK` of 28 zeros before all others, which is reserved
/// for 64-bit sizes (EBU Tech 3306). The disk holds the head of the layout, with no pieces, no reservation
/// and no frames, and the samples have a fixed size; afterwards it holds the head with the reservation, and
/// the layout is that of this head. It takes no memory, writes at most 2048 bytes and reads none. The only
/// error is a call of the disk that failed: what the disk holds then is not said, and the layout stays.
pub fn lay_reserved<D: Disk>(disk: &mut D, layout: &mut Layout) -> Result<(), Step>
    requires head { IsHeadOf (D.state disk.old) layout.old layout.old.params [] }
    requires fixed { is_adpcm layout.old.params.codec ≡ false }
    ensures laid { OnOk result (HoldsJust (reserved_head (Some 28) layout.old.params [] 0) (D.state disk.old) (D.state disk.new)) }
    ensures layout { OnOk result (layout.new ≡ reserved_shape (Some 28) layout.old.params [] 0) }
    ensures head { OnOk result (IsHeadIn (reserved_heads (Some 28)) (D.state disk.new) layout.new layout.old.params []) }
    ensures kept { OnErr result (layout.new ≡ layout.old) }
    ensures faults { CountsOn D.state disk.old disk.new result }
    ensures name { (D.state disk.new).name ≡ (D.state disk.old).name }
    ensures told { is_some (D.state disk.new).contents ≡ is_some (D.state disk.old).contents }
    ensures time { GoesOnFrom D.state D.left_between disk.old disk.new }
    ensures written { WritesAtMost D.state 2048 disk.old disk.new }
    ensures asked { (D.state disk.new).asked ≡ (D.state disk.old).asked }
{
    let params = layout.params;
    params.are_good();
    let head = plain_head(&params, Some(RESERVE_SIZE as u32));
    write_whole(disk, head.as_slice())?;
    let alloc = layout.pieces.allocator();
    *layout = plain_layout(alloc, params, Some(RESERVE_SIZE as u32));
    Ok(())
}

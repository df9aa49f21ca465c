//! The format of a sound, found by its mark.

ghost use Rattle.std.specs.Prelude.{◌≡◌, ◌+◌, ◌-◌, ◌*◌, ◌≤◌, IfOk, IfSome, option_map, length, take, drop, None, false};
ghost use Rattle.snd_disk.specs.Device.{AsksAtMost, CountsOn, IfOkTold, OnlyReadsOn};
ghost use Rattle.snd_layout.specs.Blocks.{is_adpcm};
ghost use Rattle.snd_layout.specs.Fit.{fit_refusal};
ghost use Rattle.snd_layout.specs.Format.{format_of};
ghost use Rattle.snd_layout.specs.declared.kind.Kind.TheVariants.{Wave};
ghost use Rattle.snd_search.specs.Search.{FormatWithin, IsPlaced, body_len, fixed_format, format_here, format_in, found_in, reached};

use crate::data::{BLOCK, STRIDE};
use crate::mark::place_of;
use crate::stated::Stated;
use snd_disk::{Disk, Step, fill};
use snd_fields::{Order, u32_at};
use snd_layout::{OpenRefusal, Params, read_fmt};

const HEAD: u64 = 8;

const LEAST_BODY: u64 = 16;

/// How many bytes of a body are judged.
const JUDGED: u64 = 64;

// The parameters, where they are good and samples have a fixed number of bytes.
fn fixed_format(params: Result<Params, OpenRefusal>) -> Option<Params>
    ensures { result ≡ fixed_format params }
{
    match params {
        Ok(params) if !params.codec.is_adpcm() => Some(params),
        _ => None,
    }
}

// How many bytes the body of a format has of whose head these are the bytes, where it has 16 at least and at most
// so many.
fn body_len(room: u64, head: &[u8]) -> Option<u64>
    requires { length head.now ≡ 8 }
    ensures value { result ≡ body_len room head.now }
    ensures least { IfSome result (λ n. 16 ≤ n) }
    ensures most { IfSome result (λ n. n ≤ room) }
{
    let len = u64::from(u32_at(head, 4, Order::Little));
    if &head[..4] == b"fmt ".as_slice() && len >= LEAST_BODY && len <= room {
        return Some(len);
    }
    None
}

// The parameters that a body of `len` bytes at a place states.
fn judge_body<D: Disk>(disk: &mut D, at: u64, len: u64) -> Result<Option<Params>, Step>
    requires within { at + len ≤ (D.state disk.old).size }
    requires long { 16 ≤ len }
    ensures told { IfOkTold D.state disk.old result (λ b params. params ≡ fixed_format (format_of (take 64 (take len (drop at b))))) }
    ensures fits { IfOk result (λ params. IfSome params (λ p. fit_refusal Wave p ≡ None)) }
    ensures is_fixed { IfOk result (λ params. IfSome params (λ p. is_adpcm p.codec ≡ false)) }
    ensures faults { CountsOn D.state disk.old disk.new result }
    ensures reads { OnlyReadsOn D.state D.may_leave D.left_between disk.old disk.new }
    ensures asked { AsksAtMost D.state 64 disk.old disk.new }
{
    let mut body = [0; JUDGED as usize];
    let count = len.min(JUDGED) as usize;
    let bytes = &mut body[..count];
    fill(disk, at, bytes)?;
    Ok(fixed_format(read_fmt(bytes)))
}

// The format whose head begins at a place in the first `size` bytes of a disk, where it is good.
fn format_at<D: Disk>(disk: &mut D, place: u64, size: u64) -> Result<Option<Stated>, Step>
    requires size { size ≤ (D.state disk.old).size }
    requires within { place ≤ size }
    ensures told { IfOkTold D.state disk.old result (λ b stated. format_here (drop place (take size b)) ≡ option_map (found_in (take size b)) stated) }
    ensures placed { IfOk result (λ stated. IfSome stated (IsPlaced size place)) }
    ensures fits { IfOk result (λ stated. IfSome stated (λ s. fit_refusal Wave s.params ≡ None)) }
    ensures faults { CountsOn D.state disk.old disk.new result }
    ensures reads { OnlyReadsOn D.state D.may_leave D.left_between disk.old disk.new }
    ensures asked { AsksAtMost D.state 72 disk.old disk.new }
{
    if size - place < HEAD {
        return Ok(None);
    }
    let mut head = [0; HEAD as usize];
    fill(disk, place, &mut head)?;
    let at = place + HEAD;
    let Some(len) = body_len(size - at, &head) else {
        return Ok(None);
    };
    let Some(params) = judge_body(disk, at, len)? else {
        return Ok(None);
    };
    let behind = at + len;
    Ok(Some(Stated { params, behind }))
}

// The first good format whose mark lies in a block that begins at a place, in the first `size` bytes of a disk.
fn format_within<D: Disk>(
    disk: &mut D,
    bytes: &[u8],
    at: u64,
    size: u64,
) -> Result<Option<Stated>, Step>
    requires size { size ≤ (D.state disk.old).size }
    requires within { at + length bytes.now ≤ size }
    ensures told { IfOkTold D.state disk.old result (λ b stated. bytes.now ≡ take (length bytes.now) (drop at (take size b))
        → FormatWithin (take size b) at (length bytes.now) stated) }
    ensures placed { IfOk result (λ stated. IfSome stated (IsPlaced size at)) }
    ensures fits { IfOk result (λ stated. IfSome stated (λ s. fit_refusal Wave s.params ≡ None)) }
    ensures faults { CountsOn D.state disk.old disk.new result }
    ensures reads { OnlyReadsOn D.state D.may_leave D.left_between disk.old disk.new }
    ensures asked { AsksAtMost D.state (18 * (reached (at + length bytes.now) result - at)) disk.old disk.new }
{
    let mut from = 0;
    while let Some(place) = place_of(bytes, b"fmt ", from) {
        if let Some(stated) = format_at(disk, at + place as u64, size)? {
            return Ok(Some(stated));
        }
        from = place + 4;
    }
    Ok(None)
}

/// The first good format in the first `size` bytes of a disk: the mark of a format, a size of at least 16, a body of
/// that size within these bytes, whose first 64 bytes state parameters, of a codec whose samples have a fixed
/// number of bytes. At most 20 bytes are asked for each byte up to the end of the format, and a block.
pub fn find_format<D: Disk>(disk: &mut D, size: u64) -> Result<Option<Stated>, Step>
    requires { size ≤ (D.state disk.old).size }
    ensures told { IfOkTold D.state disk.old result (λ b stated. format_in (take size b) ≡ option_map (found_in (take size b)) stated) }
    ensures placed { IfOk result (λ stated. IfSome stated (IsPlaced size 0)) }
    ensures fits { IfOk result (λ stated. IfSome stated (λ s. fit_refusal Wave s.params ≡ None)) }
    ensures faults { CountsOn D.state disk.old disk.new result }
    ensures reads { OnlyReadsOn D.state D.may_leave D.left_between disk.old disk.new }
    ensures asked { AsksAtMost D.state (20 * reached size result + 16384) disk.old disk.new }
{
    let mut block = [0; BLOCK as usize];
    let mut at = 0;
    while at < size {
        let count = (size - at).min(BLOCK) as usize;
        let bytes = &mut block[..count];
        fill(disk, at, bytes)?;
        if let Some(stated) = format_within(disk, bytes, at, size)? {
            return Ok(Some(stated));
        }
        at += STRIDE;
    }
    Ok(None)
}

//! What stands in a head behind its pieces.

ghost use Rattle.std.specs.Prelude.{◌≡◌, ◌+◌, ◌-◌, ◌<◌, ◌≤◌, ◌^◌, ◌++◌, length};
ghost use Rattle.arrayvec.specs.ArrayVec.{array_vec_len};
ghost use Rattle.snd_chunks.specs.Written.{chunks_bytes};
ghost use Rattle.snd_fields.specs.Field.{bytes_of};
ghost use Rattle.snd_fields.specs.declared.field.Order.TheVariants.{Little};
ghost use Rattle.snd_wave.specs.Put.{closing_behind, filler_for};
ghost use Rattle.snd_wave.specs.Written.{new_fact, reserved_first};

use crate::head::{has_fact, inner_of, plain_start, put_fact};
use crate::reserve::lead_size;
use crate::rest::Closing;
use arrayvec::ArrayVec;
use snd_fields::{Order, put_all, put_number};
use snd_layout::{Field, Params, one_sector};

/// The head of a chunk: its identifier and its size.
const HEAD_SIZE: u64 = 8;

/// The place of the size of the whole.
const SIZE_AT: u64 = 4;

/// The bytes at the beginning that it does not count.
const NOT_COUNTED: u64 = 8;

// The bytes of the count of no frames.
#[tactic(auto, using(crate::proofs::NewHeads::fact_bytes))]
fn fact_size(params: &Params) -> u64
    ensures size { result ≡ length (chunks_bytes Little (new_fact params.now.codec 0)) }
    ensures few { result ≤ 12 }
{
    if has_fact(params) { 12 } else { 0 }
}

/// The place behind the format.
pub(crate) fn first_place(params: &Params, reserve: Option<u32>) -> u64
    ensures place { result ≡ reserved_first reserve params.now }
    ensures least { 36 ≤ result }
{
    plain_start(params) - HEAD_SIZE - fact_size(params) + lead_size(reserve)
}

/// Puts the filler behind the others, a chunk `JUNK` of eight zeros, where a field would not lie in one
/// sector of 512 bytes.
pub fn put_filler<const N: usize>(into: &mut ArrayVec<u8, N>, order: Order, field: Field)
    requires room { array_vec_len into.old + 16 ≤ N }
    requires some { 1 ≤ field.size }
    ensures items { into.new.items ≡ into.old.items ++ chunks_bytes order (filler_for field.at field.size) }
    ensures few { array_vec_len into.new ≤ array_vec_len into.old + 16 }
{
    if !one_sector(field) {
        put_all(into, b"JUNK");
        put_number(into, order, 8);
        put_all(into, &[0; 8]);
    }
}

// What stands in a head whose pieces end at a place: the filler where it is needed, the count of no frames
// where there is one, and the head of data of no bytes.
fn closing_bytes(params: &Params, end: u64) -> ArrayVec<u8, 128>
    requires least { 36 ≤ end }
    requires most { end < 2 ^ 32 }
    ensures items { result.items ≡ closing_behind params.now.codec end }
    ensures least { 8 ≤ array_vec_len result }
    ensures few { array_vec_len result ≤ 38 }
{
    let start = end + HEAD_SIZE + fact_size(params);
    let mut bytes = ArrayVec::new();
    put_filler(&mut bytes, Order::Little, inner_of(params, start));
    put_fact(&mut bytes, params);
    put_all(&mut bytes, b"data");
    put_number(&mut bytes, Order::Little, 0);
    bytes
}

/// How a head is closed whose pieces end at a place.
pub(crate) fn closing_of(params: &Params, end: u64) -> Closing
    requires least { 36 ≤ end }
    requires most { end < 2 ^ 32 }
    ensures order { result.order ≡ Little }
    ensures bytes { result.bytes.items ≡ closing_behind params.now.codec end }
    ensures least { 8 ≤ length result.bytes.items }
    ensures few { length result.bytes.items ≤ 38 }
    ensures size_at { result.size_at ≡ 4 }
    ensures size { result.size.items ≡ bytes_of Little 4 (end + length result.bytes.items - 8) }
{
    let bytes = closing_bytes(params, end);
    let mut size = ArrayVec::new();
    put_number(
        &mut size,
        Order::Little,
        end + bytes.len() as u64 - NOT_COUNTED,
    );
    Closing {
        order: Order::Little,
        bytes,
        size_at: SIZE_AT,
        size,
    }
}

//! What becomes of the samples of one frame, each in one tight loop.

ghost use Rattle.std.specs.Prelude.{◌≡◌, ◌+◌, ◌%◌, ◌++◌, ◌<◌, ◌≤◌, ◌^◌, ◌*ℤ◌, ◌≤ℤ◌, negsuc, pos, neg_ℤ, true, [], IfSome, length, map, nat_lt, slice_index_or};
ghost use Rattle.std.specs.List.{flat_map, list_all};
ghost use Rattle.snd_pcm.specs.Groups.{groups};
ghost use Rattle.snd_pcm.specs.Width.{floor_div};
ghost use Rattle.snd_rack.specs.Held.{InRange, passed};
ghost use Rattle.snd_rack.specs.Passing.{passed_block};
ghost use Rattle.snd_rack.specs.Rises.{fade_from};
ghost use Rattle.snd_rack.specs.Stage.{clamped};

use crate::copies::{add_samples, copy_block};
use arrayvec::ArrayVec;

#[inline]
fn clamp(x: i64, low: i32, high: i32) -> i32
    ensures { result ≡ clamped low high x }
{
    if x < i64::from(low) {
        low
    } else if i64::from(high) < x {
        high
    } else {
        x as i32
    }
}

#[inline]
fn scaled(x: i32, a: u16, b: u16, low: i32, high: i32) -> i32
    requires { 1 ≤ b }
    ensures { result ≡ clamped low high (floor_div (x *ℤ pos a) b) }
{
    let product = i64::from(x) * i64::from(a);
    clamp(product.div_euclid(i64::from(b)), low, high)
}

// Samples of 16 bits, whose products have 32: loops over these become vector code.

#[inline]
fn clamp_short(x: i32, low: i32, high: i32) -> i32
    ensures { result ≡ clamped low high x }
{
    if x < low {
        low
    } else if high < x {
        high
    } else {
        x
    }
}

#[inline]
fn halved(value: i32, times: u32) -> i32
    requires { times < 32 }
    ensures { result ≡ floor_div value (2 ^ times) }
{
    value >> times
}

#[inline]
fn shifted(x: i32, a: u16, shift: u32, low: i32, high: i32) -> i32
    requires least { negsuc 32767 ≤ℤ x }
    requires most { x ≤ℤ pos 32767 }
    requires few { shift < 16 }
    ensures { result ≡ clamped low high (floor_div (x *ℤ pos a) (2 ^ shift)) }
{
    let product = x * i32::from(a);
    clamp_short(halved(product, shift), low, high)
}

#[inline]
fn divided(x: i32, a: u16, b: u16, low: i32, high: i32) -> i32
    requires least { negsuc 32767 ≤ℤ x }
    requires most { x ≤ℤ pos 32767 }
    requires some { 1 ≤ b }
    ensures { result ≡ clamped low high (floor_div (x *ℤ pos a) b) }
{
    let product = x * i32::from(a);
    clamp_short(product.div_euclid(i32::from(b)), low, high)
}

#[inline]
fn negated(x: i32, low: i32, high: i32) -> i32
    ensures { result ≡ clamped low high (neg_ℤ x) }
{
    clamp(-i64::from(x), low, high)
}

// i / count of a sample, which lies between it and 0.
#[inline]
fn risen(x: i32, i: u32, count: u32) -> i32
    requires { i < count }
    ensures { result ≡ floor_div (x *ℤ pos i) count }
{
    let product = i64::from(x) * i64::from(i);
    product.div_euclid(i64::from(count)) as i32
}

fn scale_long(samples: &mut [i32], a: u16, b: u16, low: i32, high: i32)
    requires { 1 ≤ b }
    ensures { samples.new ≡ map (λ x. clamped low high (floor_div (x *ℤ pos a) b)) samples.old }
{
    for x in samples.iter_mut() {
        *x = scaled(*x, a, b, low, high);
    }
}

fn shift_short(samples: &mut [i32], a: u16, shift: u32, low: i32, high: i32)
    requires in_range { InRange (negsuc 32767) (pos 32767) samples.old }
    requires few { shift < 16 }
    ensures { samples.new ≡ map (λ x. clamped low high (floor_div (x *ℤ pos a) (2 ^ shift))) samples.old }
{
    for x in samples.iter_mut() {
        *x = shifted(*x, a, shift, low, high);
    }
}

fn divide_short(samples: &mut [i32], a: u16, b: u16, low: i32, high: i32)
    requires in_range { InRange (negsuc 32767) (pos 32767) samples.old }
    requires some { 1 ≤ b }
    ensures { samples.new ≡ map (λ x. clamped low high (floor_div (x *ℤ pos a) b)) samples.old }
{
    for x in samples.iter_mut() {
        *x = divided(*x, a, b, low, high);
    }
}

// The power of two that a number is: at these a shift is a division.
fn power_of(b: u16) -> Option<u32>
    ensures few { IfSome result (λ n. n < 16) }
    ensures same { IfSome result (λ n. 2 ^ n ≡ b) }
{
    let n = b.trailing_zeros();
    if n < 16 && 1u32 << n == u32::from(b) {
        Some(n)
    } else {
        None
    }
}

fn scale_short(samples: &mut [i32], a: u16, b: u16, low: i32, high: i32)
    requires in_range { InRange (negsuc 32767) (pos 32767) samples.old }
    requires some { 1 ≤ b }
    ensures { samples.new ≡ map (λ x. clamped low high (floor_div (x *ℤ pos a) b)) samples.old }
{
    match power_of(b) {
        Some(shift) => shift_short(samples, a, shift, low, high),
        None => divide_short(samples, a, b, low, high),
    }
}

/// a / b of each sample, rounded down and kept within the range, in which the samples are.
pub(crate) fn scale(samples: &mut [i32], a: u16, b: u16, low: i32, high: i32)
    requires in_range { InRange low high samples.old }
    requires some { 1 ≤ b }
    ensures { samples.new ≡ map (λ x. clamped low high (floor_div (x *ℤ pos a) b)) samples.old }
{
    if -0x8000 <= low && high <= 0x7fff {
        scale_short(samples, a, b, low, high);
    } else {
        scale_long(samples, a, b, low, high);
    }
}

/// The negative of each sample.
pub(crate) fn negate(samples: &mut [i32], low: i32, high: i32)
    ensures { samples.new ≡ map (λ x. clamped low high (neg_ℤ x)) samples.old }
{
    for x in samples.iter_mut() {
        *x = negated(*x, low, high);
    }
}

/// i / count of each sample, rounded down.
pub(crate) fn rise(samples: &mut [i32], i: u32, count: u32)
    requires { i < count }
    ensures { samples.new ≡ map (λ x. floor_div (x *ℤ pos i) count) samples.old }
{
    for x in samples.iter_mut() {
        *x = risen(*x, i, count);
    }
}

/// The samples at some places, in this order.
pub(crate) fn pick(places: &[u8], from: &[i32], into: &mut ArrayVec<i32, 256>)
    requires few { length places.now ≤ 256 }
    requires empty { into.old.items ≡ [] }
    requires there { list_all (λ place. nat_lt place (length from.now)) places.now ≡ true }
    ensures { into.new.items ≡ map (λ place. slice_index_or from.now place (pos 0)) places.now }
{
    for place in places {
        into.push(from[usize::from(*place)]);
    }
}

// Puts the samples at some places behind others.
fn pick_more(places: &[u8], frame: &[i32], into: &mut ArrayVec<i32, 16384>)
    requires room { length into.old.items + length places.now ≤ 16384 }
    requires there { list_all (λ place. nat_lt place (length frame.now)) places.now ≡ true }
    ensures { into.new.items ≡ into.old.items ++ map (λ place. slice_index_or frame.now place (pos 0)) places.now }
{
    for place in places {
        into.push(frame[usize::from(*place)]);
    }
}

/// The samples at some places of each frame.
pub(crate) fn pick_all(
    places: &[u8],
    channels: usize,
    from: &[i32],
    into: &mut ArrayVec<i32, 16384>,
)
    requires some { 1 ≤ channels }
    requires there { list_all (λ place. nat_lt place channels) places.now ≡ true }
    requires room { length (flat_map (λ frame. map (λ place. slice_index_or frame place (pos 0)) places.now) (groups channels from.now)) ≤ 16384 }
    ensures { into.new.items ≡ flat_map (λ frame. map (λ place. slice_index_or frame place (pos 0)) places.now) (groups channels from.now) }
{
    into.clear();
    for frame in from.chunks_exact(channels) {
        pick_more(places, frame, into);
    }
}

// Puts i / count of each sample of a frame behind others.
fn push_risen(frame: &[i32], i: u32, count: u32, into: &mut ArrayVec<i32, 16384>)
    requires below { i < count }
    requires room { length into.old.items + length frame.now ≤ 16384 }
    ensures { into.new.items ≡ into.old.items ++ map (λ x. floor_div (x *ℤ pos i) count) frame.now }
{
    for x in frame {
        into.push(risen(*x, i, count));
    }
}

// Puts the frame with the number i of a rise behind others.
fn rise_more(frame: &[i32], i: u64, count: u32, into: &mut ArrayVec<i32, 16384>)
    requires { length into.old.items + length frame.now ≤ 16384 }
    ensures { into.new.items ≡ into.old.items ++ passed (fade_from count i) frame.now }
{
    if i < u64::from(count) {
        push_risen(frame, i as u32, count, into);
    } else {
        add_samples(frame, into);
    }
}

// The frames of a rise over `count` frames, of which the first has the number `first`.
fn rise_all(channels: usize, first: u64, count: u32, from: &[i32], into: &mut ArrayVec<i32, 16384>)
    requires some { 1 ≤ channels }
    requires room { length (passed_block (fade_from count first) channels from.now) ≤ 16384 }
    ensures { into.new.items ≡ passed_block (fade_from count first) channels from.now }
{
    into.clear();
    let mut i = first;
    for frame in from.chunks_exact(channels) {
        rise_more(frame, i, count, into);
        i = i.saturating_add(1);
    }
}

/// A block of whole frames of a rise over `count` frames, of which the first has the number `first`.
pub(crate) fn rise_block(
    channels: usize,
    first: u64,
    count: u32,
    block: &mut ArrayVec<i32, 16384>,
    spare: &mut ArrayVec<i32, 16384>,
)
    requires some { 1 ≤ channels }
    requires whole { length block.old.items % channels ≡ 0 }
    requires room { length (passed_block (fade_from count first) channels block.old.items) ≤ 16384 }
    ensures { block.new.items ≡ passed_block (fade_from count first) channels block.old.items }
{
    if first < u64::from(count) {
        rise_all(channels, first, count, block.as_slice(), spare);
        copy_block(spare.as_slice(), block);
    }
}

//! Blocks of linear samples. The choice of codec stands here, outside the loops over samples.

ghost use Rattle.std.specs.Prelude.{◌≡◌, ◌*◌, ◌↔◌, ◌≤ℤ◌, All, IsTrue, length, pos};
ghost use Rattle.snd_pcm.specs.Pcm.{InRange, byte_count, samples, samples_bytes};

use crate::linear::Linear;
use crate::puts::{
    put_s8, put_s16_big, put_s16_little, put_s24_big, put_s24_little, put_s32_big, put_s32_little,
    put_u8,
};
use crate::reads::{
    read_s8, read_s16_big, read_s16_little, read_s24_big, read_s24_little, read_s32_big,
    read_s32_little, read_u8,
};
use snd_fields::Order;

/// The numbers of samples that stand one after the other. `bytes` holds as many samples as `into` has
/// places.
pub fn read_samples(form: Linear, bytes: &[u8], into: &mut [i32])
    requires { length bytes.now ≡ byte_count form * length into.old }
    ensures read { into.new ≡ samples form bytes.now }
    ensures in_range { All (InRange form) into.new }
{
    read_by_form(form, bytes, into);
}

fn read_by_form(form: Linear, bytes: &[u8], into: &mut [i32])
    requires { length bytes.now ≡ byte_count form * length into.old }
    ensures { into.new ≡ samples form bytes.now }
{
    match form {
        Linear::U8 => read_u8(bytes, into),
        Linear::S8 => read_s8(bytes, into),
        Linear::S16(Order::Little) => read_s16_little(bytes, into),
        Linear::S16(Order::Big) => read_s16_big(bytes, into),
        Linear::S24(Order::Little) => read_s24_little(bytes, into),
        Linear::S24(Order::Big) => read_s24_big(bytes, into),
        Linear::S32(Order::Little) => read_s32_little(bytes, into),
        Linear::S32(Order::Big) => read_s32_big(bytes, into),
    }
}

/// Writes numbers, each in the range of the form, as samples one after the other. `bytes` has just
/// enough places.
pub fn put_samples(form: Linear, from: &[i32], bytes: &mut [u8])
    requires room { length bytes.old ≡ byte_count form * length from.now }
    requires in_range { All (InRange form) from.now }
    ensures { bytes.new ≡ samples_bytes form from.now }
{
    match form {
        Linear::U8 => put_u8(from, bytes),
        Linear::S8 => put_s8(from, bytes),
        Linear::S16(Order::Little) => put_s16_little(from, bytes),
        Linear::S16(Order::Big) => put_s16_big(from, bytes),
        Linear::S24(Order::Little) => put_s24_little(from, bytes),
        Linear::S24(Order::Big) => put_s24_big(from, bytes),
        Linear::S32(Order::Little) => put_s32_little(from, bytes),
        Linear::S32(Order::Big) => put_s32_big(from, bytes),
    }
}

/// Whether each number is in the range of the form, as `put_samples` asks.
pub fn in_range(form: Linear, from: &[i32]) -> bool
    ensures { IsTrue result ↔ All (InRange form) from.now }
{
    match form {
        // no number is outside, and of two constants the compiler knows that without the loop
        Linear::S32(_) => are_between(i32::MIN, from, i32::MAX),
        _ => are_between(form.low(), from, form.high()),
    }
}

// Whether each number lies between two bounds, which have 0 between them.
#[inline(always)]
fn are_between(low: i32, from: &[i32], high: i32) -> bool
    requires below { low ≤ℤ pos 0 }
    requires above { pos 0 ≤ℤ high }
    ensures { IsTrue result ↔ All (λ x. (low ≤ℤ x) × (x ≤ℤ high)) from.now }
{
    // the ends alone, and no test, so that the loop becomes short vector code
    let mut least = 0i32;
    let mut greatest = 0i32;
    for x in from {
        least = least.min(*x);
        greatest = greatest.max(*x);
    }
    low <= least && greatest <= high
}

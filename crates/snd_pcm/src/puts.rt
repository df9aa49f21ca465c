//! Linear samples one after the other, written: one loop for each codec and order.
#![tactic(auto, using(crate::proofs::Series::write_all, crate::proofs::Series::write_step1, crate::proofs::Series::write_step2, crate::proofs::Series::write_step3, crate::proofs::Series::write_step4))]

ghost use Rattle.std.specs.Prelude.{◌≡◌, ◌*◌, All, length};
ghost use Rattle.snd_pcm.specs.Pcm.{InRange, samples_bytes};
ghost use Rattle.snd_fields.specs.declared.field.Order.TheVariants.{Big, Little};

use crate::linear::Linear;
use crate::sample::{
    to_s8, to_s16_big, to_s16_little, to_s24_big, to_s24_little, to_s32_big, to_s32_little, to_u8,
};

pub(crate) fn put_u8(from: &[i32], bytes: &mut [u8])
    requires room { length bytes.old ≡ length from.now }
    requires in_range { All (InRange Linear.U8) from.now }
    ensures { bytes.new ≡ samples_bytes Linear.U8 from.now }
{
    for (i, x) in from.iter().enumerate() {
        bytes[i] = to_u8(*x);
    }
}

pub(crate) fn put_s8(from: &[i32], bytes: &mut [u8])
    requires room { length bytes.old ≡ length from.now }
    requires in_range { All (InRange Linear.S8) from.now }
    ensures { bytes.new ≡ samples_bytes Linear.S8 from.now }
{
    for (i, x) in from.iter().enumerate() {
        bytes[i] = to_s8(*x);
    }
}

pub(crate) fn put_s16_little(from: &[i32], bytes: &mut [u8])
    requires room { length bytes.old ≡ 2 * length from.now }
    requires in_range { All (InRange (Linear.S16 Little)) from.now }
    ensures { bytes.new ≡ samples_bytes (Linear.S16 Little) from.now }
{
    for (i, x) in from.iter().enumerate() {
        let [low, high] = to_s16_little(*x);
        bytes[2 * i] = low;
        bytes[2 * i + 1] = high;
    }
}

pub(crate) fn put_s16_big(from: &[i32], bytes: &mut [u8])
    requires room { length bytes.old ≡ 2 * length from.now }
    requires in_range { All (InRange (Linear.S16 Big)) from.now }
    ensures { bytes.new ≡ samples_bytes (Linear.S16 Big) from.now }
{
    for (i, x) in from.iter().enumerate() {
        let [high, low] = to_s16_big(*x);
        bytes[2 * i] = high;
        bytes[2 * i + 1] = low;
    }
}

pub(crate) fn put_s24_little(from: &[i32], bytes: &mut [u8])
    requires room { length bytes.old ≡ 3 * length from.now }
    requires in_range { All (InRange (Linear.S24 Little)) from.now }
    ensures { bytes.new ≡ samples_bytes (Linear.S24 Little) from.now }
{
    for (i, x) in from.iter().enumerate() {
        let [low, middle, high] = to_s24_little(*x);
        bytes[3 * i] = low;
        bytes[3 * i + 1] = middle;
        bytes[3 * i + 2] = high;
    }
}

pub(crate) fn put_s24_big(from: &[i32], bytes: &mut [u8])
    requires room { length bytes.old ≡ 3 * length from.now }
    requires in_range { All (InRange (Linear.S24 Big)) from.now }
    ensures { bytes.new ≡ samples_bytes (Linear.S24 Big) from.now }
{
    for (i, x) in from.iter().enumerate() {
        let [high, middle, low] = to_s24_big(*x);
        bytes[3 * i] = high;
        bytes[3 * i + 1] = middle;
        bytes[3 * i + 2] = low;
    }
}

pub(crate) fn put_s32_little(from: &[i32], bytes: &mut [u8])
    requires { length bytes.old ≡ 4 * length from.now }
    ensures { bytes.new ≡ samples_bytes (Linear.S32 Little) from.now }
{
    for (i, x) in from.iter().enumerate() {
        let [low, second, third, high] = to_s32_little(*x);
        bytes[4 * i] = low;
        bytes[4 * i + 1] = second;
        bytes[4 * i + 2] = third;
        bytes[4 * i + 3] = high;
    }
}

pub(crate) fn put_s32_big(from: &[i32], bytes: &mut [u8])
    requires { length bytes.old ≡ 4 * length from.now }
    ensures { bytes.new ≡ samples_bytes (Linear.S32 Big) from.now }
{
    for (i, x) in from.iter().enumerate() {
        let [high, third, second, low] = to_s32_big(*x);
        bytes[4 * i] = high;
        bytes[4 * i + 1] = third;
        bytes[4 * i + 2] = second;
        bytes[4 * i + 3] = low;
    }
}

//! Linear samples one after the other, read: one loop for each codec and order.
#![tactic(auto, using(crate::proofs::Series::read_all, crate::proofs::Series::read_step))]

ghost use Rattle.std.specs.Prelude.{◌≡◌, ◌*◌, length};
ghost use Rattle.snd_pcm.specs.Pcm.{samples};
ghost use Rattle.snd_fields.specs.declared.field.Order.TheVariants.{Big, Little};

use crate::linear::Linear;
use crate::sample::{
    from_s8, from_s16_big, from_s16_little, from_s24_big, from_s24_little, from_s32_big,
    from_s32_little, from_u8,
};

pub(crate) fn read_u8(bytes: &[u8], into: &mut [i32])
    requires { length bytes.now ≡ length into.old }
    ensures { into.new ≡ samples Linear.U8 bytes.now }
{
    for (i, x) in into.iter_mut().enumerate() {
        *x = from_u8(bytes[i]);
    }
}

pub(crate) fn read_s8(bytes: &[u8], into: &mut [i32])
    requires { length bytes.now ≡ length into.old }
    ensures { into.new ≡ samples Linear.S8 bytes.now }
{
    for (i, x) in into.iter_mut().enumerate() {
        *x = from_s8(bytes[i]);
    }
}

pub(crate) fn read_s16_little(bytes: &[u8], into: &mut [i32])
    requires { length bytes.now ≡ 2 * length into.old }
    ensures { into.new ≡ samples (Linear.S16 Little) bytes.now }
{
    for (i, x) in into.iter_mut().enumerate() {
        *x = from_s16_little(bytes[2 * i], bytes[2 * i + 1]);
    }
}

pub(crate) fn read_s16_big(bytes: &[u8], into: &mut [i32])
    requires { length bytes.now ≡ 2 * length into.old }
    ensures { into.new ≡ samples (Linear.S16 Big) bytes.now }
{
    for (i, x) in into.iter_mut().enumerate() {
        *x = from_s16_big(bytes[2 * i], bytes[2 * i + 1]);
    }
}

pub(crate) fn read_s24_little(bytes: &[u8], into: &mut [i32])
    requires { length bytes.now ≡ 3 * length into.old }
    ensures { into.new ≡ samples (Linear.S24 Little) bytes.now }
{
    for (i, x) in into.iter_mut().enumerate() {
        *x = from_s24_little(bytes[3 * i], bytes[3 * i + 1], bytes[3 * i + 2]);
    }
}

pub(crate) fn read_s24_big(bytes: &[u8], into: &mut [i32])
    requires { length bytes.now ≡ 3 * length into.old }
    ensures { into.new ≡ samples (Linear.S24 Big) bytes.now }
{
    for (i, x) in into.iter_mut().enumerate() {
        *x = from_s24_big(bytes[3 * i], bytes[3 * i + 1], bytes[3 * i + 2]);
    }
}

pub(crate) fn read_s32_little(bytes: &[u8], into: &mut [i32])
    requires { length bytes.now ≡ 4 * length into.old }
    ensures { into.new ≡ samples (Linear.S32 Little) bytes.now }
{
    for (i, x) in into.iter_mut().enumerate() {
        *x = from_s32_little(
            bytes[4 * i],
            bytes[4 * i + 1],
            bytes[4 * i + 2],
            bytes[4 * i + 3],
        );
    }
}

pub(crate) fn read_s32_big(bytes: &[u8], into: &mut [i32])
    requires { length bytes.now ≡ 4 * length into.old }
    ensures { into.new ≡ samples (Linear.S32 Big) bytes.now }
{
    for (i, x) in into.iter_mut().enumerate() {
        *x = from_s32_big(
            bytes[4 * i],
            bytes[4 * i + 1],
            bytes[4 * i + 2],
            bytes[4 * i + 3],
        );
    }
}

//! Samples that are made as their numbers are tested.

ghost use Rattle.std.specs.Prelude.{◌≡◌, ◌*◌, ◌≤◌, ◌↔◌, All, IsTrue, length};
ghost use Rattle.snd_fields.specs.declared.field.Order.TheVariants.{Big, Little};
ghost use Rattle.snd_container.specs.Fixed.{InRange};
ghost use Rattle.snd_pcm.specs.Pcm.{InRange as InLinearRange, sample_bytes, samples_bytes};
ghost use Rattle.snd_frames.specs.Writing.{HoldsEarly};

use snd_container::{Fixed, in_range};
use snd_fields::Order;
use snd_pcm::{Linear, put_sample};

// Puts numbers as samples of 16 bits, the lowest byte first, where each is in their range, which is the
// answer. One pass does both, since two would take half as long again.
fn put_tested_little(from: &[i32], bytes: &mut [u8]) -> bool
    requires { length bytes.old ≡ 2 * length from.now }
    ensures in_range { IsTrue result ↔ All (InLinearRange (Linear.S16 Little)) from.now }
    ensures put { IsTrue result → bytes.new ≡ samples_bytes (Linear.S16 Little) from.now }
{
    // the ends alone, and no test, so that the loop becomes short vector code
    let mut least = 0i32;
    let mut greatest = 0i32;
    for (i, x) in from.iter().enumerate() {
        least = least.min(*x);
        greatest = greatest.max(*x);
        // of a number that is in range the clamp makes no other
        let sample = (*x).clamp(-0x8000, 0x7fff);
        put_sample(
            Linear::S16(Order::Little),
            sample,
            &mut bytes[2 * i..2 * i + 2],
        );
    }
    -0x8000 <= least && greatest <= 0x7fff
}

// The two lowest bytes of a number, the higher one first. They are its sample where it has 16 bits.
#[inline(always)]
fn big_bytes(value: i32) -> [u8; 2]
    ensures { InLinearRange (Linear.S16 Big) value → result ≡ sample_bytes (Linear.S16 Big) value }
{
    let [low, high, _, _] = value.to_le_bytes();
    [high, low]
}

// The same, the highest byte first. No clamp: with one the compiler turns eight numbers in more steps.
fn put_tested_big(from: &[i32], bytes: &mut [u8]) -> bool
    requires { length bytes.old ≡ 2 * length from.now }
    ensures in_range { IsTrue result ↔ All (InLinearRange (Linear.S16 Big)) from.now }
    ensures put { IsTrue result → bytes.new ≡ samples_bytes (Linear.S16 Big) from.now }
{
    let mut least = 0i32;
    let mut greatest = 0i32;
    for (i, x) in from.iter().enumerate() {
        least = least.min(*x);
        greatest = greatest.max(*x);
        let [high, low] = big_bytes(*x);
        bytes[2 * i] = high;
        bytes[2 * i + 1] = low;
    }
    -0x8000 <= least && greatest <= 0x7fff
}

fn put_tested(order: Order, from: &[i32], bytes: &mut [u8]) -> bool
    requires { length bytes.old ≡ 2 * length from.now }
    ensures in_range { IsTrue result ↔ All (InLinearRange (Linear.S16 order)) from.now }
    ensures put { IsTrue result → bytes.new ≡ samples_bytes (Linear.S16 order) from.now }
{
    match order {
        Order::Little => put_tested_little(from, bytes),
        Order::Big => put_tested_big(from, bytes),
    }
}

// Whether numbers are in the range of a form. Where they are, their samples have 16 bits, and a block has
// room for them, they then stand at its front.
pub(crate) fn put_in_range(form: Fixed, from: &[i32], block: &mut [u8]) -> bool
    ensures in_range { IsTrue result ↔ All (InRange form) from.now }
    ensures held { IsTrue result → HoldsEarly form from.now block.new }
{
    let Fixed::Linear(Linear::S16(order)) = form else {
        return in_range(form, from);
    };
    if block.len() / 2 < from.len() {
        return in_range(form, from);
    }
    put_tested(order, from, &mut block[..2 * from.len()])
}

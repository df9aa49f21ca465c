//! The choice of a loop by the two codecs.

ghost use Rattle.std.specs.Prelude.{◌≡◌, ◌*◌, All, length};
ghost use Rattle.snd_container.specs.Fixed.{byte_count, samples, samples_bytes};
ghost use Rattle.snd_pcm.specs.Width.{HasWidth, IsWidth};
ghost use Rattle.snd_recode.specs.Recoded.{changed_all, recoded};

use crate::alaw::{alaw_as_linear, linear_as_alaw};
use crate::mulaw::{linear_as_mulaw, mulaw_as_linear};
use crate::wider::{widen_to_24, widen_to_32};
use snd_container::{Fixed, put_samples, read_samples};
use snd_fields::Order;
use snd_pcm::{Linear, change_width};

// Changes the width of numbers.
fn change_all(from: u8, to: u8, numbers: &mut [i32])
    requires from_width { IsWidth from }
    requires to_width { IsWidth to }
    requires in_range { All (HasWidth from) numbers.old }
    ensures changed { numbers.new ≡ changed_all from to numbers.old }
    ensures in_range { All (HasWidth to) numbers.new }
{
    for number in numbers.iter_mut() {
        *number = change_width(from, to, *number);
    }
}

/// Numbers of one width as those of another: a wider number is a multiple by a power of two, a narrower one is
/// divided by it and rounded toward minus infinity.
pub fn change_widths(from: u8, to: u8, numbers: &mut [i32])
    requires from_width { IsWidth from }
    requires to_width { IsWidth to }
    requires in_range { All (HasWidth from) numbers.old }
    ensures changed { numbers.new ≡ changed_all from to numbers.old }
    ensures in_range { All (HasWidth to) numbers.new }
{
    if from != to {
        change_all(from, to, numbers);
    }
}

// The samples by way of their numbers.
fn recode_numbers(from: Fixed, to: Fixed, bytes: &[u8], numbers: &mut [i32], into: &mut [u8])
    requires whole { length bytes.now ≡ byte_count from * length numbers.old }
    requires room { length into.old ≡ byte_count to * length numbers.old }
    ensures { into.new ≡ samples_bytes to (recoded from to (samples from bytes.now)) }
{
    read_samples(from, bytes, numbers);
    change_widths(from.range_form().width(), to.range_form().width(), numbers);
    put_samples(to, numbers, into);
}

/// The samples that bytes are in one codec, as the bytes of another: a wider number is a multiple by a power of
/// two, a narrower one is divided by it and rounded toward minus infinity. `numbers` has a place for each
/// sample, and `into` just enough places for its bytes; what `numbers` held is lost.
pub fn recode(from: Fixed, to: Fixed, bytes: &[u8], numbers: &mut [i32], into: &mut [u8])
    requires whole { length bytes.now ≡ byte_count from * length numbers.old }
    requires room { length into.old ≡ byte_count to * length numbers.old }
    ensures { into.new ≡ samples_bytes to (recoded from to (samples from bytes.now)) }
{
    match (from, to) {
        (Fixed::MuLaw, Fixed::Linear(Linear::S16(Order::Little))) => mulaw_as_linear(bytes, into),
        (Fixed::ALaw, Fixed::Linear(Linear::S16(Order::Little))) => alaw_as_linear(bytes, into),
        (Fixed::Linear(Linear::S16(Order::Little)), Fixed::MuLaw) => linear_as_mulaw(bytes, into),
        (Fixed::Linear(Linear::S16(Order::Little)), Fixed::ALaw) => linear_as_alaw(bytes, into),
        (Fixed::Linear(Linear::S16(Order::Little)), Fixed::Linear(Linear::S24(Order::Little))) =>
            widen_to_24(bytes, into),
        (Fixed::Linear(Linear::S16(Order::Little)), Fixed::Linear(Linear::S32(Order::Little))) =>
            widen_to_32(bytes, into),
        _ => recode_numbers(from, to, bytes, numbers, into),
    }
}

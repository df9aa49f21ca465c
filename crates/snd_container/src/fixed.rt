//! Blocks of samples that have a fixed number of bytes each. The choice of codec stands here, outside the
//! loops over samples.

ghost use Rattle.std.specs.Prelude.{◌≡◌, ◌*◌, ◌↔◌, All, IsTrue, length};
ghost use Rattle.snd_container.specs.Fixed.{InRange, byte_count, range_form, samples, samples_bytes};
ghost use Rattle.snd_container.specs.Sound.{fixed_of};

use snd_fields::Order;
use snd_g711::{alaw_decode_all, alaw_encode_all, mulaw_decode_all, mulaw_encode_all};
use snd_layout::Codec;
use snd_pcm::Linear;

/// How a codec writes a sample in a fixed number of bytes.
#[derive(Clone, Copy, Debug, PartialEq, Eq)]
pub enum Fixed {
    /// Linear.
    Linear(Linear),
    /// The mu-law of ITU-T G.711, one byte for a number of 16 bits.
    MuLaw,
    /// The A-law of ITU-T G.711, one byte for a number of 16 bits.
    ALaw,
}

impl Fixed {
    /// How many bytes a sample has: 1 to 4.
    pub fn bytes(self) -> usize
        ensures { result ≡ byte_count self }
    {
        match self {
            Fixed::Linear(form) => form.bytes(),
            Fixed::MuLaw | Fixed::ALaw => 1,
        }
    }

    /// The linear form whose range the numbers have that may be written: 16 bits for the laws.
    pub fn range_form(self) -> Linear
        ensures { result ≡ range_form self }
    {
        match self {
            Fixed::Linear(form) => form,
            Fixed::MuLaw | Fixed::ALaw => Linear::S16(Order::Little),
        }
    }
}

/// How a codec writes its samples, where each has a fixed number of bytes; none for ADPCM.
pub fn fixed_form(codec: Codec) -> Option<Fixed>
    ensures { result ≡ fixed_of codec }
{
    match codec {
        Codec::U8 => Some(Fixed::Linear(Linear::U8)),
        Codec::S8 => Some(Fixed::Linear(Linear::S8)),
        Codec::S16(order) => Some(Fixed::Linear(Linear::S16(order))),
        Codec::S24(order) => Some(Fixed::Linear(Linear::S24(order))),
        Codec::S32(order) => Some(Fixed::Linear(Linear::S32(order))),
        Codec::MuLaw => Some(Fixed::MuLaw),
        Codec::ALaw => Some(Fixed::ALaw),
        Codec::Ima { .. } | Codec::Ms { .. } => None,
    }
}

/// The numbers of samples that stand one after the other. `bytes` holds as many samples as `into` has
/// places.
pub fn read_samples(form: Fixed, bytes: &[u8], into: &mut [i32])
    requires { length bytes.now ≡ byte_count form * length into.old }
    ensures read { into.new ≡ samples form bytes.now }
    ensures in_range { All (InRange form) into.new }
{
    match form {
        Fixed::Linear(form) => snd_pcm::read_samples(form, bytes, into),
        Fixed::MuLaw => mulaw_decode_all(bytes, into),
        Fixed::ALaw => alaw_decode_all(bytes, into),
    }
}

/// Writes numbers, each in the range of the form, as samples one after the other. `bytes` has just
/// enough places.
pub fn put_samples(form: Fixed, from: &[i32], bytes: &mut [u8])
    requires room { length bytes.old ≡ byte_count form * length from.now }
    requires in_range { All (InRange form) from.now }
    ensures { bytes.new ≡ samples_bytes form from.now }
{
    match form {
        Fixed::Linear(form) => snd_pcm::put_samples(form, from, bytes),
        Fixed::MuLaw => mulaw_encode_all(from, bytes),
        Fixed::ALaw => alaw_encode_all(from, bytes),
    }
}

/// Whether each number is in the range of the form, as `put_samples` asks.
pub fn in_range(form: Fixed, from: &[i32]) -> bool
    ensures { IsTrue result ↔ All (InRange form) from.now }
{
    snd_pcm::in_range(form.range_form(), from)
}

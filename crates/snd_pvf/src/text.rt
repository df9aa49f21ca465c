//! The head that is written.

ghost use Rattle.std.specs.Prelude.{◌≡◌, ◌≤◌, length};
ghost use Rattle.snd_pvf.specs.Pvf.{bits_text, pvf_text};

use arrayvec::ArrayVec;
use itoa::Buffer;
use snd_fields::put_all;
use snd_layout::{Codec, Params};

// The end of the second line: how many bits a sample has.
fn bits_text(codec: Codec) -> &'static [u8]
    ensures text { result.now ≡ bits_text codec }
    ensures few { length result.now ≤ 4 }
{
    match codec {
        Codec::S8 => b" 8\n",
        Codec::S32(_) => b" 32\n",
        _ => b" 16\n",
    }
}

/// The head of a PVF file with these parameters, whose codec is linear of 8, 16 or 32 bits in two's
/// complement, the highest byte first. Its numbers have no leading zeros.
pub fn head_text(params: &Params) -> ArrayVec<u8, 64>
    ensures { result.items ≡ pvf_text params.now }
{
    params.are_good();
    let mut channels = Buffer::new();
    let mut rate = Buffer::new();
    let mut head = ArrayVec::new();
    put_all(&mut head, b"PVF1\n");
    put_all(&mut head, channels.format(params.channels).as_bytes());
    put_all(&mut head, b" ");
    put_all(&mut head, rate.format(params.rate).as_bytes());
    put_all(&mut head, bits_text(params.codec));
    head
}

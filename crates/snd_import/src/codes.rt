//! Dialogic's codes as numbers.

ghost use Rattle.std.specs.Prelude.{◌≡◌, ◌+◌, ◌*◌, ◌<◌, All, length, set};
ghost use Rattle.snd_ima_adpcm.specs.Frames.{high_half_first};
ghost use Rattle.snd_vox.specs.Vox.{vox_samples, vox_state_read};
ghost use Rattle.snd_pcm.specs.Width.{HasWidth};

use snd_vox::VoxReader;

// Puts two numbers of 16 bits, one behind the other, at a place.
#[inline]
fn put_two(numbers: &mut [i32], at: usize, first: i16, second: i16)
    requires { at + 1 < length numbers.old }
    ensures put { numbers.new ≡ set (set numbers.old at first) (at + 1) second }
    ensures fit { (HasWidth 16 first) × (HasWidth 16 second) }
{
    numbers[at] = i32::from(first);
    numbers[at + 1] = i32::from(second);
}

/// The numbers of bytes, two of each, behind those that the reader has given.
pub(crate) fn read_codes(reader: &mut VoxReader, bytes: &[u8], numbers: &mut [i32])
    requires { length numbers.old ≡ 2 * length bytes.now }
    ensures numbers { numbers.new ≡ vox_samples reader.old (high_half_first bytes.now) }
    ensures state { reader.new ≡ vox_state_read reader.old (high_half_first bytes.now) }
    ensures in_range { All (HasWidth 16) numbers.new }
{
    for (i, byte) in bytes.iter().enumerate() {
        let (first, second) = reader.next(*byte);
        put_two(numbers, 2 * i, first, second);
    }
}

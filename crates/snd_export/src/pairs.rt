//! Numbers as the codes of VOX, two in each byte.

ghost use Rattle.std.specs.Prelude.{◌≡◌, ◌+◌, ◌*◌, ◌%◌, ◌≤◌, All, length, take};
ghost use Rattle.snd_ima_adpcm.specs.Frames.{bytes_high_half_first};
ghost use Rattle.snd_vox.specs.Vox.{made_even, vox_codes, vox_state_written};
ghost use Rattle.snd_pcm.specs.Width.{HasWidth};

use snd_vox::VoxWriter;

// A number of 16 bits, as one of a type of as many.
#[inline(always)]
fn narrow(number: i32) -> i16
    requires { HasWidth 16 number }
    ensures { result ≡ number }
{
    number as i16
}

/// Puts the codes of numbers of 16 bits, two for each place.
pub(crate) fn put_pairs(writer: &mut VoxWriter, numbers: &[i32], into: &mut [u8])
    requires pairs { length numbers.now ≡ 2 * length into.old }
    requires in_range { All (HasWidth 16) numbers.now }
    ensures codes { into.new ≡ bytes_high_half_first (vox_codes writer.old numbers.now) }
    ensures state { writer.new ≡ vox_state_written writer.old numbers.now }
{
    for (i, byte) in into.iter_mut().enumerate() {
        let (first, second) = (narrow(numbers[2 * i]), narrow(numbers[2 * i + 1]));
        *byte = writer.put(first, second);
    }
}

/// Puts a zero behind so many numbers where these are odd, and tells how many they are then.
pub(crate) fn make_even(numbers: &mut [i32], count: usize) -> usize
    requires within { count ≤ length numbers.old }
    requires whole { length numbers.old % 2 ≡ 0 }
    requires in_range { All (HasWidth 16) (take count numbers.old) }
    ensures size { result ≡ count + count % 2 }
    ensures fits { result ≤ length numbers.new }
    ensures even { take result numbers.new ≡ made_even (take count numbers.old) }
    ensures in_range { All (HasWidth 16) (take result numbers.new) }
{
    if count.is_multiple_of(2) {
        return count;
    }
    numbers[count] = 0;
    count + 1
}

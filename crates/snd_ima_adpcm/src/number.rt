//! Numbers of 16 bits and the two codes of a byte.

ghost use Rattle.std.specs.Prelude.{◌≡◌, ◌+◌, ◌/◌, ◌%◌, ◌≤◌, ◌≤ℤ◌, ◌++◌, length, pos, negsuc};
ghost use Rattle.snd_ima_adpcm.specs.Frames.{number_16, bytes_16, Is16Bit};

use arrayvec::ArrayVec;

/// The number of two bytes, the low one first.
#[inline]
pub fn number_of(low: u8, high: u8) -> i32
    ensures value { result ≡ number_16 low high }
    ensures least { negsuc 32767 ≤ℤ result }
    ensures most { result ≤ℤ pos 32767 }
{
    i32::from(i16::from_le_bytes([low, high]))
}

/// The code in the low half of a byte.
#[inline]
pub fn low_code(byte: u8) -> u8
    ensures { result ≡ byte % 16 }
{
    byte & 15
}

/// The code in the high half of a byte.
#[inline]
pub fn high_code(byte: u8) -> u8
    ensures { result ≡ byte / 16 }
{
    byte >> 4
}

/// The two bytes of a number of 16 bits, the low one first.
#[inline]
pub fn number_bytes(number: i32) -> [u8; 2]
    requires { Is16Bit number }
    ensures { result ≡ bytes_16 number }
{
    (number as i16).to_le_bytes()
}

/// Puts the two bytes of a number of 16 bits, the low one first.
#[inline]
pub fn put_number(number: i32, into: &mut ArrayVec<u8, 8192>)
    requires range { Is16Bit number }
    requires room { length into.old.items + 2 ≤ 8192 }
    ensures bytes { into.new.items ≡ into.old.items ++ bytes_16 number }
    ensures count { length into.new.items ≡ length into.old.items + 2 }
{
    let [low, high] = number_bytes(number);
    into.push(low);
    into.push(high);
}

/// Makes a list of bytes so long, whatever it holds.
pub fn make_byte_room(count: usize, into: &mut ArrayVec<u8, 8192>)
    requires room { count ≤ 8192 }
    ensures { length into.new.items ≡ count }
{
    if into.len() != count {
        into.clear();
        for _ in 0..count {
            into.push(0);
        }
    }
}

/// Makes a list so long, whatever it holds. Where it is that long already, as after a block of the same size, nothing is done.
pub fn make_room(count: usize, into: &mut ArrayVec<i32, 16384>)
    requires room { count ≤ 16384 }
    ensures { length into.new.items ≡ count }
{
    if into.len() != count {
        into.clear();
        for _ in 0..count {
            into.push(0);
        }
    }
}

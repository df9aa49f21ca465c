//! Numbers of 2, 3, 4 and 8 bytes at a place of a slice, in either byte order.

ghost use Rattle.std.specs.Prelude.{◌≡◌, ◌+◌, ◌<◌, ◌≤◌, ◌^◌, length};
ghost use Rattle.snd_fields.specs.Field.{bytes_of, number, with_field};

use byteorder::{BigEndian, ByteOrder, LittleEndian};

/// Which byte of a number comes first.
#[derive(Clone, Copy, Debug, PartialEq, Eq)]
pub enum Order {
    /// The lowest byte first, as in RIFF files.
    Little,
    /// The highest byte first, as in IFF files.
    Big,
}

/// The number in the 2 bytes from `at` on.
#[inline]
pub fn u16_at(bytes: &[u8], at: usize, order: Order) -> u16
    requires { at + 2 ≤ length bytes.now }
    ensures { result ≡ number order bytes.now at 2 }
{
    let field = &bytes[at..];
    match order {
        Order::Little => LittleEndian::read_u16(field),
        Order::Big => BigEndian::read_u16(field),
    }
}

/// The number in the 3 bytes from `at` on.
#[inline]
pub fn u24_at(bytes: &[u8], at: usize, order: Order) -> u32
    requires { at + 3 ≤ length bytes.now }
    ensures { result ≡ number order bytes.now at 3 }
{
    let field = &bytes[at..];
    match order {
        Order::Little => LittleEndian::read_u24(field),
        Order::Big => BigEndian::read_u24(field),
    }
}

/// The number in the 4 bytes from `at` on.
#[inline]
pub fn u32_at(bytes: &[u8], at: usize, order: Order) -> u32
    requires { at + 4 ≤ length bytes.now }
    ensures { result ≡ number order bytes.now at 4 }
{
    let field = &bytes[at..];
    match order {
        Order::Little => LittleEndian::read_u32(field),
        Order::Big => BigEndian::read_u32(field),
    }
}

/// The number in the 8 bytes from `at` on.
#[inline]
pub fn u64_at(bytes: &[u8], at: usize, order: Order) -> u64
    requires { at + 8 ≤ length bytes.now }
    ensures { result ≡ number order bytes.now at 8 }
{
    let field = &bytes[at..];
    match order {
        Order::Little => LittleEndian::read_u64(field),
        Order::Big => BigEndian::read_u64(field),
    }
}

/// Writes `value` into the 2 bytes from `at` on. The other bytes stay.
#[inline]
#[tactic(auto, using(crate::proofs::Places::put_field))]
pub fn put_u16(bytes: &mut [u8], at: usize, order: Order, value: u16)
    requires { at + 2 ≤ length bytes.old }
    ensures { bytes.new ≡ with_field bytes.old at (bytes_of order 2 value) }
{
    let field = &mut bytes[at..];
    match order {
        Order::Little => LittleEndian::write_u16(field, value),
        Order::Big => BigEndian::write_u16(field, value),
    }
}

/// Writes `value`, which is below 2^24, into the 3 bytes from `at` on. The other bytes stay.
#[inline]
#[tactic(auto, using(crate::proofs::Places::put_field))]
pub fn put_u24(bytes: &mut [u8], at: usize, order: Order, value: u32)
    requires room { at + 3 ≤ length bytes.old }
    requires fits { value < 2 ^ 24 }
    ensures { bytes.new ≡ with_field bytes.old at (bytes_of order 3 value) }
{
    let field = &mut bytes[at..];
    match order {
        Order::Little => LittleEndian::write_u24(field, value),
        Order::Big => BigEndian::write_u24(field, value),
    }
}

/// Writes `value` into the 4 bytes from `at` on. The other bytes stay.
#[inline]
#[tactic(auto, using(crate::proofs::Places::put_field))]
pub fn put_u32(bytes: &mut [u8], at: usize, order: Order, value: u32)
    requires { at + 4 ≤ length bytes.old }
    ensures { bytes.new ≡ with_field bytes.old at (bytes_of order 4 value) }
{
    let field = &mut bytes[at..];
    match order {
        Order::Little => LittleEndian::write_u32(field, value),
        Order::Big => BigEndian::write_u32(field, value),
    }
}

/// Writes `value` into the 8 bytes from `at` on. The other bytes stay.
#[inline]
#[tactic(auto, using(crate::proofs::Places::put_field))]
pub fn put_u64(bytes: &mut [u8], at: usize, order: Order, value: u64)
    requires { at + 8 ≤ length bytes.old }
    ensures { bytes.new ≡ with_field bytes.old at (bytes_of order 8 value) }
{
    let field = &mut bytes[at..];
    match order {
        Order::Little => LittleEndian::write_u64(field, value),
        Order::Big => BigEndian::write_u64(field, value),
    }
}

//! Bytes that a script writes in hexadecimal digits.

ghost use Rattle.std.specs.Prelude.{◌≡◌, ◌<◌, IfOk};
ghost use Rattle.snd_rules.specs.Hex.{bytes_of_hex, hex_value};

use std::alloc::{AllocError, Global};

// The value of a digit, 0 to 9 and a to f.
fn hex_value(digit: u8) -> u8
    ensures value { result ≡ hex_value digit }
    ensures small { result < 16 }
{
    if digit <= b'9' {
        digit.saturating_sub(b'0') % 16
    } else {
        digit.saturating_sub(b'a' - 10) % 16
    }
}

/// The bytes that digits write, two for each.
pub fn bytes_of_hex(alloc: Global, digits: &[u8]) -> Result<Vec<u8>, AllocError>
    ensures { IfOk result (λ bytes. bytes.items ≡ bytes_of_hex digits.now) }
{
    let mut bytes = Vec::with_capacity(alloc, digits.len() / 2)?;
    let mut rest = digits;
    while rest.len() >= 2 {
        bytes.push(16 * hex_value(rest[0]) + hex_value(rest[1]))?;
        rest = &rest[2..];
    }
    Ok(bytes)
}

//! The second line of a head.

ghost use Rattle.std.specs.Prelude.{◌≡◌, ◌+◌, ◌≤◌, IfSome, length, option_map};
ghost use Rattle.snd_pvf.specs.Pvf.{cut_at, number, stated_in};

use snd_fields::decimal;

/// The most digits of a number.
const MOST_DIGITS: usize = 10;

/// The numbers of the second line, as they stand there.
#[derive(Clone, Copy, Debug, PartialEq, Eq)]
pub(crate) struct Stated {
    pub(crate) channels: u64,
    pub(crate) rate: u64,
    pub(crate) bits: u64,
}

/// The bytes before the first that is a mark, and those behind it.
pub(crate) fn cut_at(mark: u8, bytes: &[u8]) -> Option<(&[u8], &[u8])>
    ensures parts { option_map (λ parts. (parts.0.now, parts.1.now)) result ≡ cut_at mark bytes.now }
    ensures within { IfSome result (λ parts. length parts.0.now + 1 ≤ length bytes.now) }
{
    for (i, byte) in bytes.iter().enumerate() {
        if *byte == mark {
            return Some((&bytes[..i], &bytes[i + 1..]));
        }
    }
    None
}

// The number that 1 to 10 digits write.
fn number(digits: &[u8]) -> Option<u64>
    ensures { result ≡ number digits.now }
{
    if digits.len() > MOST_DIGITS {
        return None;
    }
    decimal(digits)
}

/// The three numbers of a line, with one space between each two.
pub(crate) fn stated_in(line: &[u8]) -> Option<Stated>
    ensures { result ≡ stated_in line.now }
{
    let (channels, rest) = cut_at(b' ', line)?;
    let (rate, bits) = cut_at(b' ', rest)?;
    let channels = number(channels)?;
    let rate = number(rate)?;
    let bits = number(bits)?;
    Some(Stated {
        channels,
        rate,
        bits,
    })
}

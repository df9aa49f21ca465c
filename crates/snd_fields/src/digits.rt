//! Numbers as decimal digits.

ghost use Rattle.std.specs.Prelude.{◌≡◌, ◌≤◌, Some, None, length, if◌then◌else◌};
ghost use Rattle.std.specs.List.{list_all};
ghost use Rattle.snd_fields.specs.Decimal.{decimal, digits_number, is_digit};

const MOST_DIGITS: usize = 19;

// the number of a text of digits, where each byte is one
fn number_of(text: &[u8]) -> Option<u64>
    requires { length text.now ≤ 19 }
    ensures { result ≡ (if list_all is_digit text.now then Some (digits_number text.now) else None) }
{
    let mut number: u64 = 0;
    for digit in text {
        if *digit < b'0' || *digit > b'9' {
            return None;
        }
        number = number * 10 + u64::from(*digit - b'0');
    }
    Some(number)
}

/// The number that decimal digits write. `None` comes exactly where the text is not 1 to 19 digits or
/// its number exceeds 2^63 - 1. Leading zeros are digits like others.
pub fn decimal(text: &[u8]) -> Option<u64>
    ensures { result ≡ decimal text.now }
{
    if text.is_empty() || text.len() > MOST_DIGITS {
        return None;
    }
    let number = number_of(text)?;
    if number < 1 << 63 { Some(number) } else { None }
}

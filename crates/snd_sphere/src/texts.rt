//! What a line says behind its name.

ghost use Rattle.std.specs.Prelude.{◌≡◌, ◌+◌, ◌<◌, ◌^◌, ◌≤◌, IfSome, length, option_map};
ghost use Rattle.std.specs.List.{position_from};
ghost use Rattle.snd_sphere.specs.Lines.{is_space, number_in, states_size, text_in};

use snd_fields::decimal;

const MOST_DIGITS: usize = 18;

/// The number of a line that begins with some bytes and goes on with 1 to 18 digits, where it is no
/// greater than another.
pub(crate) fn number_in(line: &[u8], front: &[u8], most: u64) -> Option<u64>
    ensures value { result ≡ number_in front.now most line.now }
    ensures few { IfSome result (λ n. length line.now ≤ length front.now + 18) }
    ensures long { IfSome result (λ n. length front.now ≤ length line.now) }
{
    if !line.starts_with(front) {
        return None;
    }
    let digits = &line[front.len()..];
    if digits.len() > MOST_DIGITS {
        return None;
    }
    let number = decimal(digits)?;
    if number <= most { Some(number) } else { None }
}

// Whether digits without a leading zero state a size.
fn states_size(digits: &[u8], size: usize) -> bool
    ensures { result ≡ states_size digits.now size }
{
    if digits.len() != 1 && digits.starts_with(b"0") {
        return false;
    }
    match decimal(digits) {
        Some(number) => number == size as u64,
        None => false,
    }
}

// The place of the first space.
fn first_space(text: &[u8]) -> Option<usize>
    ensures value { result ≡ position_from is_space 0 text.now }
    ensures within { IfSome result (λ n. n < length text.now) }
{
    for (i, c) in text.iter().enumerate() {
        if *c == b' ' {
            return Some(i);
        }
    }
    None
}

/// The text of a line that begins with some bytes and goes on with the text's size, a space and the text.
pub(crate) fn text_in<'a>(line: &'a [u8], front: &[u8]) -> Option<&'a [u8]>
    ensures { option_map (λ text. text.now) result ≡ text_in front.now line.now }
{
    if !line.starts_with(front) {
        return None;
    }
    let sized = &line[front.len()..];
    let space = first_space(sized)?;
    if !states_size(&sized[..space], sized.len() - (space + 1)) {
        return None;
    }
    Some(&sized[space + 1..])
}

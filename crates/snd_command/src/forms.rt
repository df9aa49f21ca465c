//! The forms of a line's words.

ghost use Rattle.std.specs.Prelude.{◌≡◌, option_map};
ghost use Rattle.std.specs.List.{list_all};
ghost use Rattle.snd_command.specs.Forms.{at_most, hex, ident, is_hex, is_hex_digit, is_ident, is_name, is_not_zero, is_printed, ident_byte, is_text, signed, ten_digits};

use snd_fields::{Id4, decimal};

const LARGEST: u64 = (1 << 31) - 1;

const LONGEST_NAME: usize = 255;

// a number of 1 to 10 digits that is at most another
fn digits_at_most(text: &[u8], most: u64) -> Option<u64>
    ensures { result ≡ at_most most (ten_digits text.now) }
{
    if text.len() > 10 {
        return None;
    }
    let number = decimal(text)?;
    if number <= most { Some(number) } else { None }
}

/// The number with a sign that a word writes: a `-` or none, and 1 to 10 digits. `None` comes exactly
/// for a word of another form, or for a number that does not fit 32 bits.
pub fn signed(word: &[u8]) -> Option<i32>
    ensures { result ≡ signed word.now }
{
    if word.is_empty() {
        return None;
    }
    if word[0] == b'-' {
        let number = digits_at_most(&word[1..], LARGEST + 1)?;
        return Some((-(number as i64)) as i32);
    }
    let number = digits_at_most(word, LARGEST)?;
    Some(number as i32)
}

fn is_printed(c: u8) -> bool
    ensures { result ≡ is_printed c }
{
    b'!' <= c && c <= b'~'
}

fn are_printed(word: &[u8]) -> bool
    ensures { result ≡ list_all is_printed word.now }
{
    word.iter().all(|c| is_printed(*c))
}

/// Whether a word is a name: 1 to 255 printed bytes of ASCII, none of them a space.
pub fn is_name(word: &[u8]) -> bool
    ensures { result ≡ is_name word.now }
{
    1 <= word.len() && word.len() <= LONGEST_NAME && are_printed(word)
}

fn ident_byte(c: u8) -> u8
    ensures { result ≡ ident_byte c }
{
    if c == b'_' { b' ' } else { c }
}

fn is_hex_digit(c: u8) -> bool
    ensures { result ≡ is_hex_digit c }
{
    b'0' <= c && c <= b'9' || b'a' <= c && c <= b'f'
}

fn are_hex_digits(word: &[u8]) -> bool
    ensures { result ≡ list_all is_hex_digit word.now }
{
    word.iter().all(|c| is_hex_digit(*c))
}

/// The hex digits that a word writes: an even number of them, in lower case. The word `-` has none.
pub fn hex(word: &[u8]) -> Option<&[u8]>
    ensures { option_map (λ digits. digits.now) result ≡ hex word.now }
{
    if word == b"-".as_slice() {
        return Some(&word[1..]);
    }
    if word.len() % 2 == 0 && are_hex_digits(word) {
        return Some(word);
    }
    None
}

fn is_not_zero(c: u8) -> bool
    ensures { result ≡ is_not_zero c }
{
    c != 0
}

fn has_no_zero(text: &[u8]) -> bool
    ensures { result ≡ list_all is_not_zero text.now }
{
    text.iter().all(|c| is_not_zero(*c))
}

/// Whether bytes are a text: 1 or more, none of them 0.
pub fn is_text(text: &[u8]) -> bool
    ensures { result ≡ is_text text.now }
{
    1 <= text.len() && has_no_zero(text)
}

/// The identifier that a word writes: four printed bytes of ASCII, where `_` stands for a space.
pub fn ident(word: &[u8]) -> Option<Id4>
    ensures { option_map (λ id. id.0) result ≡ ident word.now }
{
    if word.len() != 4 || !are_printed(word) {
        return None;
    }
    Some(Id4([
        ident_byte(word[0]),
        ident_byte(word[1]),
        ident_byte(word[2]),
        ident_byte(word[3]),
    ]))
}

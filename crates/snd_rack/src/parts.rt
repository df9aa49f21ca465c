//! The parts of a text, and the numbers in them.

ghost use Rattle.std.specs.Prelude.{◌≡◌, ◌≤◌, IfSome, length, option_map, slice_get};
ghost use Rattle.snd_rack.specs.Spec.{behind, number_in, parts};

use snd_fields::decimal;

const MOST_DIGITS: usize = 10;

/// How many parts a text has, cut at each such byte: one more than it has of these.
pub(crate) fn count_parts(byte: u8, text: &[u8]) -> usize
    ensures { result ≡ length (parts byte text.now) }
{
    text.split(|c| *c == byte).count()
}

/// The part at a place, counted from 0.
pub(crate) fn part_at(byte: u8, text: &[u8], at: usize) -> Option<&[u8]>
    ensures { option_map (λ part. part.now) result ≡ slice_get (parts byte text.now) at }
{
    text.split(|c| *c == byte).nth(at)
}

/// What stands behind a word at the front of a text.
#[tactic(auto, unfolding(crate::specs::Spec::behind))]
pub(crate) fn behind<'a>(word: &[u8], text: &'a [u8]) -> Option<&'a [u8]>
    ensures { option_map (λ rest. rest.now) result ≡ behind word.now text.now }
{
    text.strip_prefix(word)
}

/// The number of 1 to 10 digits, where it lies between two bounds.
#[tactic(auto, unfolding(crate::specs::Spec::number_in))]
pub(crate) fn number_in(least: u64, most: u64, text: &[u8]) -> Option<u64>
    ensures value { result ≡ number_in least most text.now }
    ensures within { IfSome result (λ n. (least ≤ n) × (n ≤ most)) }
{
    if text.len() > MOST_DIGITS {
        return None;
    }
    let number = decimal(text)?;
    if least <= number && number <= most {
        Some(number)
    } else {
        None
    }
}

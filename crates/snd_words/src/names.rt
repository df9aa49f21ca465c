//! Names among the words of a command line.

ghost use Rattle.std.specs.Prelude.{◌≡◌, ◌≤◌, ◌-◌, Some, None, drop, length, option_map, slice_get, if◌then◌else◌};
ghost use Rattle.std.specs.List.{list_all, slice_range};
ghost use Rattle.snd_lines.specs.Lines.{is_printed};
ghost use Rattle.snd_words.specs.Names.{is_name, name_or_none, names_or_none, two_names};

use snd_fields::Words;
use snd_lines::is_printed;
use std::marker::Model;

const LONGEST_NAME: usize = 255;

fn are_printed(word: &[u8]) -> bool
    ensures { result ≡ list_all is_printed word.now }
{
    word.iter().all(|c| is_printed(*c))
}

/// Whether a word is a name: 1 to 255 printed bytes that do not begin with `-`.
pub(crate) fn is_name(word: &str) -> bool
    ensures { result ≡ is_name word.now }
{
    let word = word.as_bytes();
    1 <= word.len() && word.len() <= LONGEST_NAME && are_printed(word) && word[0] != b'-'
}

/// The word at a place, where it is a name.
pub(crate) fn name_at(words: &Words, at: usize) -> Option<&str>
    ensures { option_map (λ name. name.now) result ≡ name_or_none (slice_get words.now at) }
{
    let word = words.get(at)?;
    if is_name(word) { Some(word) } else { None }
}

/// The two names that the words from a place on are, where they are two names.
pub(crate) fn two_names(words: &Words, at: usize) -> Option<(&str, &str)>
    requires { at ≤ length words.now }
    ensures { option_map (λ two. (two.0.now, two.1.now)) result ≡ two_names (drop at words.now) }
{
    if words.len() - at != 2 {
        return None;
    }
    let one = name_at(words, at)?;
    let two = name_at(words, at + 1)?;
    Some((one, two))
}

/// Names that stand beside each other among the words of a command line, in their order. Contracts see a
/// list of texts.
#[derive(Drop)]
pub struct Names<'a> {
    words: &'a Words,
    first: usize,
    end: usize,
}

impl<'a> Model for Names<'a> {
    ghost use Rattle.std.specs.Prelude.{ℕ, List, ◌≤◌, length};
    ghost use Rattle.std.specs.List.{slice_range};

    ghost Value = { List (List ℕ) };

    ghost view = { λ n. slice_range n.words.now n.first n.end };

    ghost invariant = { λ n. (n.first ≤ n.end) × (n.end ≤ length n.words.now) };
}

impl<'a> Names<'a> {
    /// The words from a first place to an end, where each of them is a name.
    pub(crate) fn between(words: &'a Words, first: usize, end: usize) -> Option<Names<'a>>
        requires ordered { first ≤ end }
        requires within { end ≤ length words.now }
        ensures { result ≡ names_or_none (slice_range words.now first end) }
    {
        for at in first..end {
            let word = words.get(at)?;
            if !is_name(word) {
                return None;
            }
        }
        Some(Names { words, first, end })
    }

    /// How many names there are.
    pub fn len(&self) -> usize
        ensures { result ≡ length self.now }
    {
        self.end - self.first
    }

    /// The name at a place, counted from 0: none from the length on.
    pub fn get(&self, at: usize) -> Option<&'a str>
        ensures { option_map (λ name. name.now) result ≡ slice_get self.now at }
    {
        let words = self.words;
        if at < self.end - self.first {
            return words.get(self.first + at);
        }
        None
    }
}

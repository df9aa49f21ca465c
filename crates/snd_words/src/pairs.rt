//! Pairs of words: an option of `metadata-set`, and the word behind it.

ghost use Rattle.std.specs.Prelude.{◌≡◌, ◌+◌, ◌*◌, ◌^◌, ◌<◌, ◌≤◌, drop, length, option_map, slice_get};
ghost use Rattle.std.specs.List.{list_any};
ghost use Rattle.std.specs.Option.{option_and_then};
ghost use Rattle.std.specs.Str.{bytes_eq};
ghost use Rattle.snd_words.specs.Metadata.{all_stated, are_distinct, option_pairs, options_in, stated_pair};
ghost use Rattle.snd_words.specs.Setting.{stated};

use crate::options::is_option_at;
use crate::settings::{MetadataSetting, stated_by};
use snd_fields::Words;
use std::marker::Model;

/// How many pairs stand behind the command.
pub(crate) fn count_pairs(words: &Words) -> usize
    requires { 1 ≤ length words.now }
    ensures count { result ≡ length (option_pairs (drop 1 words.now)) }
    ensures within { 2 * result < length words.now }
    ensures fits { 2 * result < 2 ^ 64 }
{
    let mut count = 0;
    while words.len() - 2 * count > 2 && is_option_at(words, 2 * count + 1) {
        count += 1;
    }
    count
}

/// The option of the pair at a place.
fn option_at(words: &Words, at: usize) -> Option<&str>
    requires there { at < length (option_pairs (drop 1 words.now)) }
    requires fits { 2 * at + 2 < 2 ^ 64 }
    ensures { option_map (λ option. option.now) result ≡ slice_get (options_in (option_pairs (drop 1 words.now))) at }
{
    words.get(2 * at + 1)
}

/// Whether a pair from a place on has an option.
fn has_option_from(words: &Words, option: &str, at: usize, count: usize) -> bool
    requires all { count ≡ length (option_pairs (drop 1 words.now)) }
    requires fits { 2 * count < 2 ^ 64 }
    ensures { result ≡ list_any (bytes_eq option.now) (drop at (options_in (option_pairs (drop 1 words.now)))) }
{
    for later in at..count {
        let Some(other) = option_at(words, later) else {
            return false;
        };
        if option == other {
            return true;
        }
    }
    false
}

/// Whether each pair has an option of its own.
pub(crate) fn are_distinct(words: &Words, count: usize) -> bool
    requires all { count ≡ length (option_pairs (drop 1 words.now)) }
    requires fits { 2 * count < 2 ^ 64 }
    ensures { result ≡ are_distinct (options_in (option_pairs (drop 1 words.now))) }
{
    for at in 0..count {
        let Some(option) = option_at(words, at) else {
            return false;
        };
        if has_option_from(words, option, at + 1, count) {
            return false;
        }
    }
    true
}

/// What the pair at a place sets.
fn setting_at(words: &Words, at: usize) -> Option<MetadataSetting<'_>>
    requires there { at < length (option_pairs (drop 1 words.now)) }
    requires fits { 2 * at + 2 < 2 ^ 64 }
    ensures { option_map stated result ≡ option_and_then stated_pair (slice_get (option_pairs (drop 1 words.now)) at) }
{
    let option = words.get(2 * at + 1)?;
    let text = words.get(2 * at + 2)?;
    stated_by(option, text)
}

/// What the options of `metadata-set` set, in the order of the words. Contracts see a list.
#[derive(Drop)]
pub struct MetadataSettings<'a> {
    words: &'a Words,
    count: usize,
}

impl<'a> Model for MetadataSettings<'a> {
    ghost use Rattle.std.specs.Prelude.{List, drop};
    ghost use Rattle.snd_words.specs.Stated.{Stated};

    ghost Value = { List Stated };

    ghost use Rattle.snd_words.specs.Metadata.{ArePairs, option_pairs, stated_list};

    ghost view = { λ s. stated_list (option_pairs (drop 1 s.words.now)) };

    ghost invariant = { λ s. ArePairs (option_pairs (drop 1 s.words.now)) s.count };
}

impl<'a> MetadataSettings<'a> {
    /// What the pairs of the words set, where each of them sets something.
    pub(crate) fn read(words: &'a Words, count: usize) -> Option<MetadataSettings<'a>>
        requires all { count ≡ length (option_pairs (drop 1 words.now)) }
        requires fits { 2 * count < 2 ^ 64 }
        ensures { result ≡ all_stated (option_pairs (drop 1 words.now)) }
    {
        for at in 0..count {
            let Some(_) = setting_at(words, at) else {
                return None;
            };
        }
        Some(MetadataSettings { words, count })
    }

    /// How many options there are.
    pub fn len(&self) -> usize
        ensures { result ≡ length self.now }
    {
        self.count
    }

    /// What the option at a place sets, counted from 0: none from the length on.
    pub fn get(&self, at: usize) -> Option<MetadataSetting<'a>>
        ensures { option_map stated result ≡ slice_get self.now at }
    {
        let words = self.words;
        if at < self.count {
            return setting_at(words, at);
        }
        None
    }
}

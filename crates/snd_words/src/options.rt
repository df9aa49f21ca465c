//! Options among the words of a command line.

ghost use Rattle.std.specs.Prelude.{◌≡◌, ◌+◌, ◌≤◌, [], drop, length, option_map};
ghost use Rattle.std.specs.List.{slice_index_or};
ghost use Rattle.snd_words.specs.Options.{is_option, option_count, text_behind};

use snd_fields::Words;

/// Whether an option stands at a place: a word that begins with `-`.
pub(crate) fn is_option_at(words: &Words, at: usize) -> bool
    ensures { result ≡ is_option (slice_index_or words.now at []) }
{
    match words.get(at) {
        Some(word) => word.as_bytes().first() == Some(&b'-'),
        None => false,
    }
}

/// Where the options end that stand behind the command.
pub(crate) fn options_end(words: &Words) -> usize
    requires { 1 ≤ length words.now }
    ensures end { result ≡ 1 + option_count (drop 1 words.now) }
    ensures within { result ≤ length words.now }
{
    for at in 1..words.len() {
        if !is_option_at(words, at) {
            return at;
        }
    }
    words.len()
}

/// What stands behind a text at the front of a word.
#[tactic(auto, unfolding(crate::specs::Options::text_behind))]
pub(crate) fn text_behind<'a>(front: &[u8], word: &'a [u8]) -> Option<&'a [u8]>
    ensures { option_map (λ text. text.now) result ≡ text_behind front.now word.now }
{
    word.strip_prefix(front)
}

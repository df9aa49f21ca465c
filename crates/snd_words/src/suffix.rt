//! The kind of sound file that a name's suffix stands for.

ghost use Rattle.std.specs.Prelude.{◌≡◌, option_map};
ghost use Rattle.snd_words.specs.Suffix.{kind_by_suffix, suffix_of};

use snd_layout::Kind;

/// What stands behind the last dot of a name, where it has a dot.
#[tactic(auto, unfolding(crate::specs::Suffix::suffix_of))]
fn suffix_of(name: &[u8]) -> Option<&[u8]>
    ensures { option_map (λ suffix. suffix.now) result ≡ suffix_of name.now }
{
    let mut start = name.len();
    while start > 0 {
        if name[start - 1] == b'.' {
            return Some(&name[start..]);
        }
        start -= 1;
    }
    None
}

/// The kind of sound file that the suffix of a name stands for, which is what stands behind its last dot:
/// none where it stands for no kind, also for its letters in upper case, and where the name has no dot.
pub fn kind_by_suffix(name: &str) -> Option<Kind>
    ensures { result ≡ kind_by_suffix name.now }
{
    let suffix = suffix_of(name.as_bytes())?;
    Kind::of_suffix(suffix)
}

//! Names that stand twice.

ghost use Rattle.std.specs.Prelude.{◌≡◌, ◌≤◌, ◌∷◌, [], ◌++◌, length, take};
ghost use Rattle.std.specs.List.{list_any};
ghost use Rattle.std.specs.Str.{bytes_eq};
ghost use Rattle.snd_words.specs.Repeats.{first_repeated};

use crate::names::Names;

/// Whether one of the names before a place equals another one.
fn stands_before(names: &Names<'_>, end: usize, name: &str) -> bool
    requires { end ≤ length names.now }
    ensures { result ≡ list_any (bytes_eq name.now) (take end names.now) }
{
    for at in 0..end {
        let Some(earlier) = names.get(at) else {
            return false;
        };
        if name == earlier {
            return true;
        }
    }
    false
}

/// The place of the first name, in the order of the words, that equals an earlier one. The output stands
/// behind the inputs, at the place that is their number.
pub fn first_repeated(inputs: &Names<'_>, output: &str) -> Option<usize>
    ensures { result ≡ first_repeated (inputs.now ++ output.now ∷ []) }
{
    let count = inputs.len();
    for at in 0..count {
        let name = inputs.get(at)?;
        if stands_before(inputs, at, name) {
            return Some(at);
        }
    }
    if stands_before(inputs, count, output) {
        Some(count)
    } else {
        None
    }
}

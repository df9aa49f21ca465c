//! Names that stand twice.

ghost use Rattle.std.specs.Prelude.{◌≡◌, ◌≤◌, ◌∷◌, length, take};
ghost use Rattle.std.specs.List.{list_any};
ghost use Rattle.std.specs.Str.{bytes_eq};
ghost use Rattle.snd_deinterleave.specs.Deinterleave.{first_same};

use snd_words::Names;

// Whether a name is one, or one of those before a place.
fn is_same(input: &str, outputs: &Names<'_>, end: usize, name: &str) -> bool
    requires { end ≤ length outputs.now }
    ensures { result ≡ list_any (bytes_eq name.now) (input.now ∷ take end outputs.now) }
{
    if name == input {
        return true;
    }
    for at in 0..end {
        let Some(earlier) = outputs.get(at) else {
            return false;
        };
        if name == earlier {
            return true;
        }
    }
    false
}

/// The place of the first output that has the input's name, or that of an earlier output.
pub(crate) fn first_same(input: &str, outputs: &Names<'_>) -> Option<usize>
    ensures { result ≡ first_same input.now outputs.now }
{
    for at in 0..outputs.len() {
        let name = outputs.get(at)?;
        if is_same(input, outputs, at, name) {
            return Some(at);
        }
    }
    None
}

//! Marks in bytes.

ghost use Rattle.std.specs.Prelude.{◌≡◌, ◌≤◌, length};
ghost use Rattle.snd_search.specs.Marks.{IsFirstMark};

/// The first place, from one on, at which a mark of at least one byte stands in a slice.
pub fn place_of(bytes: &[u8], mark: &[u8], from: usize) -> Option<usize>
    requires { 1 ≤ length mark.now }
    ensures { IsFirstMark mark.now bytes.now from result }
{
    let size = mark.len();
    if bytes.len() < size {
        return None;
    }
    for place in from..bytes.len() - size + 1 {
        if &bytes[place..place + size] == mark {
            return Some(place);
        }
    }
    None
}

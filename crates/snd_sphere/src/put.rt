//! The spaces behind the lines of a header.

ghost use Rattle.std.specs.Prelude.{◌≡◌, ◌-◌, ◌++◌, length, replicate};

use arrayvec::ArrayVec;
use snd_fields::put_all;

/// How many bytes a header has.
pub(crate) const HEADER_SIZE: usize = 1024;

/// Fills up a header with spaces.
pub(crate) fn put_spaces(into: &mut ArrayVec<u8, 1024>)
    ensures { into.new.items ≡ into.old.items ++ replicate (1024 - length into.old.items) 32 }
{
    let spaces = [b' '; HEADER_SIZE];
    let count = HEADER_SIZE - into.len();
    put_all(into, &spaces[..count]);
}

//! Where the data and the whole end.

ghost use Rattle.std.specs.Prelude.{◌≡◌, ◌<◌, ◌≤◌, ◌^◌};
ghost use Rattle.snd_rf64.specs.Layout.{held};
ghost use Rattle.snd_rf64.specs.Parts.{ends_of};

use crate::sizes::Sizes;
use snd_layout::LAST_PLACE;

/// The bytes at the beginning that the size of the whole does not count.
const NOT_COUNTED: u64 = 8;

/// Where the data of a file and the whole of it end.
#[derive(Clone, Copy, Debug, PartialEq, Eq)]
pub(crate) struct Ends {
    /// How many data bytes count that the file holds.
    pub(crate) held: u64,
    /// The place behind those that it holds and their pad byte.
    pub(crate) data_end: u64,
    /// The place behind the whole.
    pub(crate) outer_end: u64,
}

// The data bytes that count of so many from a place of a file on.
fn held_of(size: u64, start: u64, sound: u64) -> u64
    ensures { result ≡ held size start sound }
{
    sound.min(size.min(LAST_PLACE).saturating_sub(start))
}

/// Where data that begin at a place of a file of this size end, and the whole.
pub(crate) fn ends_of(size: u64, sizes: Sizes, start: u64) -> Ends
    requires size { size < 2 ^ 63 }
    requires start { start ≤ size }
    ensures { result ≡ ends_of size sizes start }
{
    let here = sizes.sound.min(size - start);
    let data_end = start + here + here % 2;
    let outer_end = size.min(sizes.whole.saturating_add(NOT_COUNTED));
    Ends {
        held: held_of(size, start, sizes.sound),
        data_end,
        outer_end,
    }
}

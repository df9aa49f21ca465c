//! Where the data and the whole end.

ghost use Rattle.std.specs.Prelude.{◌≡◌, ◌<◌, ◌^◌};
ghost use Rattle.snd_chunks.specs.Parts.{held};
ghost use Rattle.snd_svx.specs.Parts.{ends_of};

use snd_chunks::Chunk;
use snd_layout::LAST_PLACE;

/// Where the data of a file and the whole of it end.
#[derive(Clone, Copy, Debug, PartialEq, Eq)]
pub(crate) struct Ends {
    /// How many data bytes the file holds.
    pub(crate) held: u64,
    /// The place behind them and their pad byte.
    pub(crate) data_end: u64,
    /// The place behind the whole.
    pub(crate) outer_end: u64,
}

// The data bytes that a file of this size holds of a body.
fn held_of(size: u64, sound: Chunk) -> u64
    ensures { result ≡ held size sound }
{
    sound.len.min(size.min(LAST_PLACE).saturating_sub(sound.at))
}

/// Where they end in a file of this size with this size of the FORM.
pub(crate) fn ends_of(size: u64, form: u32, sound: Chunk) -> Ends
    requires { sound.at < 2 ^ 63 }
    ensures { result ≡ ends_of size form sound }
{
    let held = held_of(size, sound);
    let data_end = sound.at + held + held % 2;
    let outer_end = size.min(u64::from(form) + 8);
    Ends {
        held,
        data_end,
        outer_end,
    }
}

//! Why no file is made.

ghost use Rattle.std.specs.Prelude.{◌≡◌};
ghost use Rattle.snd_metadata.specs.declared.halt.Halt.TheVariants as halt;

use snd_lines::Refusal;
use snd_output::Stop;

/// Why what a chunk says is not given.
#[derive(Clone, Copy, Debug, PartialEq, Eq)]
pub(crate) enum Unread {
    /// It has more than 65536 bytes.
    TooLarge,
    /// Its body does not read.
    Bad,
    /// The outside failed, or there is no memory.
    Stop(Stop),
}

/// Why no file is made.
#[derive(Clone, Copy, Debug, PartialEq, Eq)]
pub(crate) enum Halt {
    /// The input is refused.
    Input(Refusal),
    /// The output is refused.
    Output(Refusal),
    /// The outside failed, or there is no memory.
    Stop(Stop),
}

impl From<Stop> for Halt {
    ghost from_gives = { λ stop e. e ≡ halt.Stop stop };

    fn from(stop: Stop) -> Halt {
        Halt::Stop(stop)
    }
}

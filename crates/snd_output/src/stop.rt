//! Why a tool stops.

ghost use Rattle.std.specs.Prelude.{◌≡◌};
ghost use Rattle.snd_output.specs.declared.stop.Stop.TheVariants as stop;

use std::alloc::AllocError;

/// Why a tool stops before it has done its work.
#[derive(Clone, Copy, Debug, PartialEq, Eq)]
pub enum Stop {
    /// The outside failed.
    Fault,
    /// There was no memory.
    Memory,
    /// A file that is read has changed meanwhile: a block of its samples is bad.
    Changed,
}

impl From<AllocError> for Stop {
    ghost from_gives = { λ _ e. e ≡ stop.Memory };

    fn from(_e: AllocError) -> Stop {
        Stop::Memory
    }
}

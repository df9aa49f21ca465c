//! Why a walk stops.

ghost use Rattle.std.specs.Prelude.{◌≡◌};
ghost use Rattle.snd_chunks.specs.Opening.{open_error};
ghost use Rattle.snd_chunks.specs.declared.error.WalkError.TheVariants.{Fault, Memory};

use snd_disk::Step;
use snd_layout::OpenError;
use std::alloc::AllocError;

/// Why a walk stops before its end.
#[derive(Clone, Copy, Debug, PartialEq, Eq)]
pub enum WalkError {
    /// A call of the disk failed at this step.
    Fault(Step),
    /// There is no memory.
    Memory,
}

impl From<Step> for WalkError {
    ghost from_gives = { λ step e. e ≡ Fault step };

    fn from(step: Step) -> WalkError {
        WalkError::Fault(step)
    }
}

impl From<AllocError> for WalkError {
    ghost from_gives = { λ _ e. e ≡ Memory };

    fn from(_e: AllocError) -> WalkError {
        WalkError::Memory
    }
}

impl From<WalkError> for OpenError {
    ghost from_gives = { λ walk e. e ≡ open_error walk };

    fn from(walk: WalkError) -> OpenError {
        match walk {
            WalkError::Fault(step) => OpenError::DiskFault(step),
            WalkError::Memory => OpenError::Memory,
        }
    }
}

//! Why nothing is reserved in a head, and why a file is not promoted.

ghost use Rattle.std.specs.Prelude.{◌≡◌};
ghost use Rattle.snd_reservations.specs.declared.error.PromoteError.TheVariants as promote;
ghost use Rattle.snd_reservations.specs.declared.error.ReserveError.TheVariants as reserve;

use snd_disk::Step;
use thiserror::Error;

/// Why no chunk is reserved for 64-bit sizes.
#[derive(Clone, Copy, Debug, PartialEq, Eq, Error)]
pub enum ReserveError {
    /// The file is broken since a fault at this step.
    #[error("the file is broken")]
    Broken(Step),
    /// A frame was written already.
    #[error("frames were written already")]
    FramesWritten,
    /// Automatic update is on.
    #[error("automatic update is on")]
    AutoOn,
    /// The file is no WAVE file whose samples have a fixed size, or it has a further chunk or a reservation.
    #[error("the head has no room for a reservation")]
    NoRoom,
    /// A call of the disk failed at this step.
    #[error("the disk failed")]
    DiskFault(Step),
}

impl From<Step> for ReserveError {
    ghost from_gives = { λ step e. e ≡ reserve.DiskFault step };

    fn from(step: Step) -> ReserveError {
        ReserveError::DiskFault(step)
    }
}

/// Why a WAVE file is not turned into RF64.
#[derive(Clone, Copy, Debug, PartialEq, Eq, Error)]
pub enum PromoteError {
    /// The file is broken since a fault at this step.
    #[error("the file is broken")]
    Broken(Step),
    /// The file has no reservation.
    #[error("the file has no room for 64-bit sizes")]
    NoRoom,
    /// The file goes on behind its data.
    #[error("the file goes on behind its sound")]
    TrailingData,
    /// A call of the disk failed at this step.
    #[error("the disk failed")]
    DiskFault(Step),
}

impl From<Step> for PromoteError {
    ghost from_gives = { λ step e. e ≡ promote.DiskFault step };

    fn from(step: Step) -> PromoteError {
        PromoteError::DiskFault(step)
    }
}

//! Why a body was not read, or a draft not changed.

ghost use Rattle.std.specs.Prelude.{◌≡◌};
ghost use Rattle.snd_meta.specs.declared.error.MetaError.TheVariants.{Memory};

use std::alloc::{AllocError, AllocFailed};
use thiserror::Error;

/// Why a body was not read, or a draft not changed.
#[derive(Clone, Copy, Debug, PartialEq, Eq, Error)]
pub enum MetaError {
    #[error("the INFO list does not begin with INFO, or a text runs past its end")]
    BadInfo,
    #[error("the cue points run past the end of their chunk")]
    BadCue,
    #[error("the broadcast extension is shorter than its fixed part")]
    BadBext,
    #[error("the text is too long")]
    TextTooLong,
    #[error("out of memory")]
    Memory,
}

impl From<AllocError> for MetaError {
    ghost from_gives = { λ _ e. e ≡ Memory };

    fn from(_e: AllocError) -> MetaError {
        MetaError::Memory
    }
}

impl<T: Drop> From<AllocFailed<T>> for MetaError {
    ghost from_gives = { λ _ e. e ≡ Memory };

    fn from(_e: AllocFailed<T>) -> MetaError {
        MetaError::Memory
    }
}

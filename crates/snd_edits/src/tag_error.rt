//! Why texts, fields and points are not given.

ghost use Rattle.std.specs.Prelude.{◌≡◌};
ghost use Rattle.snd_edits.specs.declared.error.GetError.TheVariants as get;
ghost use Rattle.snd_edits.specs.declared.tag_error.TagError.TheVariants.{Get};
ghost use Rattle.snd_edits.specs.TagErrors.{body_error, read_error};

use crate::error::{GetError, PieceReadError};
use snd_meta::MetaError;
use std::alloc::AllocError;
use thiserror::Error;

/// Why what a chunk says is not given.
#[derive(Clone, Copy, Debug, PartialEq, Eq, Error)]
pub enum TagError {
    /// The body of the chunk is not given.
    #[error("{0}")]
    Get(GetError),
    /// The body does not read.
    #[error("the chunk does not read")]
    BadBody,
}

impl From<GetError> for TagError {
    ghost from_gives = { λ error e. e ≡ Get error };

    fn from(error: GetError) -> TagError {
        TagError::Get(error)
    }
}

impl From<PieceReadError> for TagError {
    ghost from_gives = { λ error e. e ≡ Get (read_error error) };

    fn from(error: PieceReadError) -> TagError {
        match error {
            PieceReadError::Broken(step) => TagError::Get(GetError::Broken(step)),
            PieceReadError::DiskFault(step) => TagError::Get(GetError::DiskFault(step)),
        }
    }
}

impl From<AllocError> for TagError {
    ghost from_gives = { λ _ e. e ≡ Get get.Memory };

    fn from(_e: AllocError) -> TagError {
        TagError::Get(GetError::Memory)
    }
}

impl From<MetaError> for TagError {
    ghost from_gives = { λ error e. e ≡ body_error error };

    fn from(error: MetaError) -> TagError {
        match error {
            MetaError::Memory => TagError::Get(GetError::Memory),
            MetaError::BadInfo | MetaError::BadCue | MetaError::BadBext | MetaError::TextTooLong =>
                TagError::BadBody,
        }
    }
}

//! Why a file is not opened, and why a chunk is not added.

ghost use Rattle.std.specs.Prelude.{◌≡◌};
ghost use Rattle.snd_layout.specs.declared.error.OpenError.TheVariants.{DiskFault, Refused, Memory as open_memory};
ghost use Rattle.snd_layout.specs.declared.error.PieceError.TheVariants.{Memory as piece_memory};

use crate::refusal::OpenRefusal;
use snd_disk::Step;
use std::alloc::{AllocError, AllocFailed};
use thiserror::Error;

/// Why a file is not opened or made.
#[derive(Clone, Copy, Debug, PartialEq, Eq, Error)]
pub enum OpenError {
    /// What the file holds, or what it is to hold, is refused.
    #[error("{0}")]
    Refused(OpenRefusal),
    /// A file of ADPCM blocks was to be updated.
    #[error("an ADPCM file is not updated in place")]
    AdpcmUpdate,
    /// A file that does not say its length was to be updated.
    #[error("a file of unknown length is not updated in place")]
    UnknownLength,
    /// A call of the disk failed at this step.
    #[error("the disk failed")]
    DiskFault(Step),
    /// There is no memory.
    #[error("out of memory")]
    Memory,
}

impl From<OpenRefusal> for OpenError {
    ghost from_gives = { λ refusal e. e ≡ Refused refusal };

    fn from(refusal: OpenRefusal) -> OpenError {
        OpenError::Refused(refusal)
    }
}

impl From<Step> for OpenError {
    ghost from_gives = { λ step e. e ≡ DiskFault step };

    fn from(step: Step) -> OpenError {
        OpenError::DiskFault(step)
    }
}

impl From<AllocError> for OpenError {
    ghost from_gives = { λ _ e. e ≡ open_memory };

    fn from(_e: AllocError) -> OpenError {
        OpenError::Memory
    }
}

impl<T: Drop> From<AllocFailed<T>> for OpenError {
    ghost from_gives = { λ _ e. e ≡ open_memory };

    fn from(_e: AllocFailed<T>) -> OpenError {
        OpenError::Memory
    }
}

/// Why a chunk is not added to a file.
#[derive(Clone, Copy, Debug, PartialEq, Eq, Error)]
pub enum PieceError {
    /// The file is broken since a fault at this step.
    #[error("the file is broken")]
    Broken(Step),
    /// A frame was written already.
    #[error("frames were written already")]
    FramesWritten,
    /// Automatic update is on.
    #[error("automatic update is on")]
    AutoOn,
    /// The identifier is one that the container uses itself.
    #[error("the chunk's identifier is reserved")]
    ReservedChunk,
    /// The container has no chunks of others.
    #[error("the container has no further chunks")]
    NoChunks,
    /// The body has more than 65536 bytes.
    #[error("the chunk has more than 65536 bytes")]
    ChunkTooLarge,
    /// 240 chunks stand already.
    #[error("the file has 240 chunks already")]
    TooManyChunks,
    /// The data and the chunks behind them have no room in the size of the whole.
    #[error("the file has no room for the chunk")]
    ContainerFull,
    /// A call of the disk failed at this step.
    #[error("the disk failed")]
    DiskFault(Step),
    /// There is no memory.
    #[error("out of memory")]
    Memory,
}

impl From<AllocError> for PieceError {
    ghost from_gives = { λ _ e. e ≡ piece_memory };

    fn from(_e: AllocError) -> PieceError {
        PieceError::Memory
    }
}

impl<T: Drop> From<AllocFailed<T>> for PieceError {
    ghost from_gives = { λ _ e. e ≡ piece_memory };

    fn from(_e: AllocFailed<T>) -> PieceError {
        PieceError::Memory
    }
}

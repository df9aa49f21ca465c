//! Why a call of an open file is refused, and how it fails.

ghost use Rattle.std.specs.Prelude.{◌≡◌};
ghost use Rattle.snd_edits.specs.declared.error.AutoError.TheVariants as auto_error;
ghost use Rattle.snd_edits.specs.declared.error.GetError.TheVariants as get;
ghost use Rattle.snd_edits.specs.declared.error.ShrinkError.TheVariants as shrink;
ghost use Rattle.snd_edits.specs.declared.error.UpdateError.TheVariants as update;

use snd_disk::Step;
use std::alloc::AllocError;
use thiserror::Error;

/// Why a file was not closed as it should: a call of the disk had failed at this step.
#[derive(Clone, Copy, Debug, PartialEq, Eq, Error)]
#[error("the disk failed")]
pub struct DiskFault(pub Step);

/// Why the body of a chunk is not given.
#[derive(Clone, Copy, Debug, PartialEq, Eq, Error)]
pub enum GetError {
    /// The file is broken since a fault at this step.
    #[error("the file is broken")]
    Broken(Step),
    /// There is no such chunk.
    #[error("there is no such chunk")]
    NoSuchChunk,
    /// The body has more than 65536 bytes.
    #[error("the chunk has more than 65536 bytes")]
    ChunkTooLarge,
    /// A call of the disk failed at this step.
    #[error("the disk failed")]
    DiskFault(Step),
    /// There is no memory.
    #[error("out of memory")]
    Memory,
}

impl From<AllocError> for GetError {
    ghost from_gives = { λ _ e. e ≡ get.Memory };

    fn from(_e: AllocError) -> GetError {
        GetError::Memory
    }
}

/// Why the front of a chunk's body is not read.
#[derive(Clone, Copy, Debug, PartialEq, Eq, Error)]
pub enum PieceReadError {
    /// The file is broken since a fault at this step.
    #[error("the file is broken")]
    Broken(Step),
    /// A call of the disk failed at this step.
    #[error("the disk failed")]
    DiskFault(Step),
}

/// Why no frames are read.
#[derive(Clone, Copy, Debug, PartialEq, Eq, Error)]
pub enum ReadError {
    /// The file is broken since a fault at this step.
    #[error("the file is broken")]
    Broken(Step),
    /// The slice does not hold whole frames.
    #[error("the slice does not hold whole frames")]
    PartFrame,
    /// A block of ADPCM is bad.
    #[error("a block of samples is bad")]
    BadBlock,
    /// A call of the disk failed at this step.
    #[error("the disk failed")]
    DiskFault(Step),
}

/// Why a place is not sought.
#[derive(Clone, Copy, Debug, PartialEq, Eq, Error)]
pub enum SeekError {
    /// The file is broken since a fault at this step.
    #[error("the file is broken")]
    Broken(Step),
    /// A file of ADPCM blocks is written from front to back.
    #[error("an ADPCM file is written in one go")]
    AdpcmSeek,
    /// The place is past the end.
    #[error("the place is past the end")]
    SeekRange,
}

/// Why frames are not written.
#[derive(Clone, Copy, Debug, PartialEq, Eq, Error)]
pub enum WriteError {
    /// The file is broken since a fault at this step.
    #[error("the file is broken")]
    Broken(Step),
    /// The slice does not hold whole frames.
    #[error("the slice does not hold whole frames")]
    PartFrame,
    /// A number is not in the range of the codec.
    #[error("a sample is out of range")]
    SampleRange,
    /// The file goes on behind its data, which then do not grow.
    #[error("the file goes on behind its sound")]
    TrailingData,
    /// The head has no room for so many data.
    #[error("the file holds no more frames")]
    ContainerFull,
    /// A call of the disk failed at this step.
    #[error("the disk failed")]
    DiskFault(Step),
}

/// Why a file is not brought up to date.
#[derive(Clone, Copy, Debug, PartialEq, Eq, Error)]
pub enum UpdateError {
    /// The file is broken since a fault at this step.
    #[error("the file is broken")]
    Broken(Step),
    /// A call of the disk failed at this step.
    #[error("the disk failed")]
    DiskFault(Step),
}

impl From<Step> for UpdateError {
    ghost from_gives = { λ step e. e ≡ update.DiskFault step };

    fn from(step: Step) -> UpdateError {
        UpdateError::DiskFault(step)
    }
}

/// Why a file is not updated automatically.
#[derive(Clone, Copy, Debug, PartialEq, Eq, Error)]
pub enum AutoError {
    /// The file is broken since a fault at this step.
    #[error("the file is broken")]
    Broken(Step),
    /// The field that decides the count lies in two sectors, of which a crash may leave one old.
    #[error("the count lies in two sectors")]
    Straddle,
    /// A call of the disk failed at this step.
    #[error("the disk failed")]
    DiskFault(Step),
}

impl From<Step> for AutoError {
    ghost from_gives = { λ step e. e ≡ auto_error.DiskFault step };

    fn from(step: Step) -> AutoError {
        AutoError::DiskFault(step)
    }
}

/// Why a file is not cut.
#[derive(Clone, Copy, Debug, PartialEq, Eq, Error)]
pub enum ShrinkError {
    /// The file is broken since a fault at this step.
    #[error("the file is broken")]
    Broken(Step),
    /// A file of ADPCM blocks is not cut.
    #[error("an ADPCM file is not cut")]
    AdpcmUpdate,
    /// The place is past the end.
    #[error("the place is past the end")]
    SeekRange,
    /// The file goes on behind its data, which then do not shrink.
    #[error("the file goes on behind its sound")]
    TrailingData,
    /// A call of the disk failed at this step.
    #[error("the disk failed")]
    DiskFault(Step),
}

impl From<Step> for ShrinkError {
    ghost from_gives = { λ step e. e ≡ shrink.DiskFault step };

    fn from(step: Step) -> ShrinkError {
        ShrinkError::DiskFault(step)
    }
}

//! Why the frames of blocks are not read.

ghost use Rattle.std.specs.Prelude.{◌≡◌};
ghost use Rattle.snd_blocks.specs.declared.error.BlockError.TheVariants as block;

use snd_disk::Step;
use snd_ima_adpcm::BadBlock;
use thiserror::Error;

/// Why the frames of blocks are not read.
#[derive(Clone, Copy, Debug, PartialEq, Eq, Error)]
pub enum BlockError {
    /// A block that holds one of the frames has a bad head.
    #[error("a block of samples is bad")]
    BadBlock,
    /// A call of the disk failed at this step.
    #[error("the disk failed")]
    DiskFault(Step),
}

impl From<Step> for BlockError {
    ghost from_gives = { λ step e. e ≡ block.DiskFault step };

    fn from(step: Step) -> BlockError {
        BlockError::DiskFault(step)
    }
}

impl From<BadBlock> for BlockError {
    ghost from_gives = { λ _ e. e ≡ block.BadBlock };

    fn from(_bad: BadBlock) -> BlockError {
        BlockError::BadBlock
    }
}

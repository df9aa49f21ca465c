//! The laws of the frames of blocks, proved of every file. The function does nothing: its contract is the
//! laws.

ghost use Rattle.snd_blocks.specs.Sound.{BlocksAreCounted, FramesAreInBlocks};

/// An ADPCM file has the frames of its blocks: as many, good or bad, as its layout counts.
#[tactic(auto, using(crate::proofs::Counted::blocks_are_counted, crate::proofs::Counted::frames_are_in_blocks))]
pub fn blocks_are_sounds()
    ensures blocks { FramesAreInBlocks }
    ensures counted { BlocksAreCounted }
{}

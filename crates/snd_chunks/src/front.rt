//! What a walk up to the sound sees.

use crate::chunk::Chunk;
use crate::list::ChunkList;

/// Where a walk up to the sound ends.
#[derive(Clone, Copy, Debug, PartialEq, Eq)]
pub enum Ending {
    /// At the sound's chunk, whatever its size.
    AtSound(Chunk),
    /// Where no whole chunk follows.
    Cut,
    /// Behind too many chunks.
    TooMany,
}

/// What a walk up to the sound sees: the chunks before its end, and where it ends.
#[derive(Drop)]
pub struct Front {
    pub chunks: ChunkList,
    pub ending: Ending,
}

/// What stands at one place of such a walk.
#[derive(Clone, Copy, Debug, PartialEq, Eq)]
pub(crate) enum Seen {
    /// The head of the sound's chunk.
    Sound(Chunk),
    /// Another chunk, which ends within the file.
    Whole(Chunk),
    Nothing,
}

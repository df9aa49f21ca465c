//! What stands at one place of a walk up to the data.

use snd_chunks::Chunk;

/// What stands at one place of a walk up to the data.
#[derive(Clone, Copy, Debug, PartialEq, Eq)]
pub(crate) enum Seen {
    /// The head of the data chunk.
    Sound(Chunk),
    /// Another chunk, which ends within the file.
    Whole(Chunk),
    Nothing,
}

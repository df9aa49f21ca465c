//! Lists of chunks.

ghost use Rattle.std.specs.Prelude.{◌≡◌, [], ◌∷◌, ◌++◌, OnOk, OnErr, length};

use crate::chunk::Chunk;
use std::alloc::{AllocError, Global};
use std::marker::Model;

/// The chunks that a walk saw, in the file's order. Contracts see a list of chunks.
#[derive(Drop)]
pub struct ChunkList {
    list: Vec<Chunk>,
}

impl Model for ChunkList {
    ghost use Rattle.std.specs.Prelude.{List};
    ghost use Rattle.snd_chunks.specs.declared.chunk.Chunk.{Chunk};

    ghost Value = { List Chunk };

    ghost view = { λ p. p.list.items };
}

impl ChunkList {
    /// No chunk.
    pub fn new(alloc: Global) -> ChunkList
        ensures { result ≡ [] }
    {
        ChunkList {
            list: Vec::new(alloc),
        }
    }

    /// How many chunks there are.
    pub fn len(&self) -> usize
        ensures { result ≡ length self.now }
    {
        self.list.len()
    }

    /// The chunks as a slice.
    pub fn as_slice(&self) -> &[Chunk]
        ensures { result.now ≡ self.now }
    {
        self.list.as_slice()
    }

    /// Adds a chunk behind the others. Where there is no memory the list stays as it was.
    pub fn push(&mut self, chunk: Chunk) -> Result<(), AllocError>
        ensures added { OnOk result (self.new ≡ self.old ++ chunk ∷ []) }
        ensures same { OnErr result (self.new ≡ self.old) }
    {
        self.list.push(chunk)?;
        Ok(())
    }
}

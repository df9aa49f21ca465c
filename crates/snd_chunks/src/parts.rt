//! The chunks before the data from which a layout is made.

ghost use Rattle.std.specs.Prelude.{◌≡◌, IfOk, IfErr, Some};
ghost use Rattle.snd_chunks.specs.Parts.{AreParts, fact_chunk, format_chunk, front_refusal, has_id, is_fact};

use crate::chunk::Chunk;
use crate::front::{Ending, Front};
use snd_layout::OpenRefusal;

const LEAST_FORMAT: u64 = 16;

/// The chunks from which a layout is made: the format, the `fact` that counts where there is one, and
/// the data.
#[derive(Clone, Copy, Debug, PartialEq, Eq)]
pub struct Parts {
    pub format: Chunk,
    pub fact: Option<Chunk>,
    pub sound: Chunk,
}

/// Whether a chunk has this identifier.
pub fn has_id(chunk: &Chunk, id: &[u8]) -> bool
    ensures { result ≡ has_id id.now chunk.now }
{
    chunk.id.0.as_slice() == id
}

fn is_fact(chunk: &Chunk, size: u8) -> bool
    ensures { result ≡ is_fact size chunk.now }
{
    has_id(chunk, b"fact") && u64::from(size) <= chunk.len
}

// The first format.
fn format_chunk(chunks: &[Chunk]) -> Option<Chunk>
    ensures { result ≡ format_chunk chunks.now }
{
    chunks.iter().copied().find(|c| has_id(c, b"fmt "))
}

// The first `fact` that has its count.
fn fact_chunk(chunks: &[Chunk], size: u8) -> Option<Chunk>
    ensures { result ≡ fact_chunk size chunks.now }
{
    chunks.iter().copied().find(|c| is_fact(c, size))
}

/// The parts of a file in which a `fact` counts with a number of `size` bytes, or why its walk up to the
/// data is refused.
pub fn parts_of(front: &Front, size: u8) -> Result<Parts, OpenRefusal>
    ensures found { IfOk result (AreParts size front.now) }
    ensures refused { IfErr result (λ r. front_refusal front.now ≡ Some r) }
{
    if front.ending == Ending::TooMany {
        return Err(OpenRefusal::TooManyChunks);
    }
    let chunks = front.chunks.as_slice();
    let Some(format) = format_chunk(chunks) else {
        return Err(OpenRefusal::NoFormat);
    };
    if format.len < LEAST_FORMAT {
        return Err(OpenRefusal::NoFormat);
    }
    let Ending::AtSound(sound) = front.ending else {
        return Err(OpenRefusal::NoData);
    };
    let fact = fact_chunk(chunks, size);
    Ok(Parts {
        format,
        fact,
        sound,
    })
}

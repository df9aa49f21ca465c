//! The chunk that is reserved for 64-bit sizes.

ghost use Rattle.std.specs.Prelude.{◌≡◌, ◌+◌, ◌<◌, ◌≤◌, ◌^◌, All};
ghost use Rattle.snd_chunks.specs.Walks.{IsShort};
ghost use Rattle.snd_wave.specs.Layout.{is_reserve, reserve_of};
ghost use Rattle.snd_wave.specs.Written.{lead_end};

use snd_chunks::{Chunk, has_id};
use snd_layout::Params;

/// The place of its body: behind `RIFF`, the size of the whole, `WAVE`, and its own head.
const RESERVE_AT: u64 = 20;

/// What 64-bit sizes need, and what is reserved for them: three numbers of 8 bytes, and the length of a table.
pub(crate) const RESERVE_SIZE: usize = 28;

/// The head of a chunk: its identifier and its size.
const HEAD_SIZE: u64 = 8;

fn is_reserve(params: &Params, chunk: &Chunk) -> bool
    ensures { result ≡ is_reserve params.now chunk.now }
{
    !params.codec.is_adpcm()
        && chunk.at == RESERVE_AT
        && has_id(chunk, b"JUNK")
        && RESERVE_SIZE as u64 <= chunk.len
}

/// The size of the reserved chunk, where there is one among the chunks before the data.
pub(crate) fn reserve_of(params: &Params, chunks: &[Chunk]) -> Option<u32>
    requires { All IsShort chunks.now }
    ensures { result ≡ reserve_of params.now chunks.now }
{
    match chunks.first() {
        Some(chunk) if is_reserve(params, chunk) => Some(chunk.len as u32),
        _ => None,
    }
}

/// The bytes of the reserved chunk, with its head.
pub(crate) fn lead_size(reserve: Option<u32>) -> u64
    ensures size { result + 12 ≡ lead_end reserve }
    ensures few { result < 2 ^ 33 }
{
    match reserve {
        Some(len) => HEAD_SIZE + u64::from(len) + u64::from(len % 2),
        None => 0,
    }
}

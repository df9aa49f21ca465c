//! The fields of a head that state sizes and counts.

ghost use Rattle.std.specs.Prelude.{◌≡◌, ◌+◌, ◌<◌, ◌≤◌, Some, None, if◌then◌else◌};
ghost use Rattle.snd_chunks.specs.Parts.{fact_place, inner_field, is_joined, side_field};

use crate::chunk::Chunk;
use snd_layout::{Field, Params};

// The place of the count of a `fact` that stands right before the data chunk and has nothing else.
fn joined_place(fact: Option<Chunk>, sound: Chunk, size: u8, head: u8) -> Option<u64>
    ensures { result ≡ (if is_joined size head fact sound then Some (fact_place fact) else None) }
{
    let fact = fact?;
    let head = u64::from(head);
    if fact.len == u64::from(size) && sound.at >= head && fact.next == sound.at - head {
        Some(fact.at)
    } else {
        None
    }
}

/// The field that decides the count of the frames, where a number has `size` bytes and the head of a chunk
/// `head`.
pub fn inner_field(params: &Params, fact: Option<Chunk>, sound: Chunk, size: u8, head: u8) -> Field
    requires behind { size ≤ sound.at }
    requires few { size + head < 256 }
    ensures { result ≡ inner_field size head params.now fact sound }
{
    match joined_place(fact, sound, size, head) {
        Some(at) if params.codec.is_adpcm() => Field {
            at,
            size: size + head,
        },
        _ => Field {
            at: sound.at - u64::from(size),
            size,
        },
    }
}

/// The count that is not read, a number of `size` bytes.
pub fn side_field(params: &Params, fact: Option<Chunk>, size: u8) -> Option<Field>
    ensures { result ≡ side_field size params.now fact }
{
    if params.codec.is_adpcm() {
        return None;
    }
    fact.map(|c| Field { at: c.at, size })
}

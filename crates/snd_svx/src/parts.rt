//! The chunks before the data from which a layout is made.

ghost use Rattle.std.specs.Prelude.{◌≡◌, IfOk, IfErr, Some};
ghost use Rattle.snd_svx.specs.Layout.{front_refusal, header_chunk};
ghost use Rattle.snd_svx.specs.Parts.{AreParts};

use snd_chunks::{Chunk, Ending, Front, has_id};
use snd_layout::OpenRefusal;

const LEAST_HEADER: u64 = 20;

/// The chunks from which a layout is made: the voice header and the body.
#[derive(Clone, Copy, Debug, PartialEq, Eq)]
pub(crate) struct Parts {
    pub(crate) header: Chunk,
    pub(crate) sound: Chunk,
}

// The first voice header.
fn header_chunk(chunks: &[Chunk]) -> Option<Chunk>
    ensures { result ≡ header_chunk chunks.now }
{
    chunks.iter().copied().find(|c| has_id(c, b"VHDR"))
}

/// The parts of a file, or why its walk up to the body is refused.
pub(crate) fn parts_of(front: &Front) -> Result<Parts, OpenRefusal>
    ensures found { IfOk result (AreParts front.now) }
    ensures refused { IfErr result (λ r. front_refusal front.now ≡ Some r) }
{
    if front.ending == Ending::TooMany {
        return Err(OpenRefusal::TooManyChunks);
    }
    let Some(header) = header_chunk(front.chunks.as_slice()) else {
        return Err(OpenRefusal::NoFormat);
    };
    if header.len < LEAST_HEADER {
        return Err(OpenRefusal::NoFormat);
    }
    let Ending::AtSound(sound) = front.ending else {
        return Err(OpenRefusal::NoData);
    };
    Ok(Parts { header, sound })
}

//! Which chunks may be put into a file that is made.

ghost use Rattle.std.specs.Prelude.{◌≡◌, not};
ghost use Rattle.snd_layout.specs.Kinds.{is_own_id};

use snd_fields::Id4;
use snd_layout::Kind;

/// What decides whether a chunk is put.
#[derive(Clone, Copy)]
pub struct Wanted {
    // whether its identifier is reserved, and whether the kind has such chunks
    pub reserved: bool,
    pub held: bool,
    // the length of its body in bytes, and its place in the list, which may be behind them all
    pub len: usize,
    pub place: usize,
}

/// Whether a further chunk of a file of a kind may have an identifier, which is what `File::copy_piece`
/// asks for: it is none of those of the file's own format, sound, counts, 64-bit sizes and fillers.
pub fn may_be_piece(kind: Kind, id: Id4) -> bool
    ensures { result ≡ not (is_own_id kind id.0) }
{
    !kind.is_own_id(id)
}

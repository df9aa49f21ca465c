//! The place of a further chunk in the list of a layout.

ghost use Rattle.std.specs.Prelude.{◌≡◌, ◌≤◌, length, position};
ghost use Rattle.snd_edits.specs.Pieces.{has_name};
ghost use Rattle.snd_edits.specs.Relaid.{place_named};

use crate::bodies::has_name;
use snd_fields::Id4;
use snd_layout::Layout;

// The place in the list of the first chunk with an identifier.
fn place_of(layout: &Layout, id: Id4) -> Option<usize>
    ensures { result ≡ position (has_name id.0) layout.now.pieces }
{
    let pieces = layout.pieces.as_slice();
    pieces.iter().position(|piece| has_name(piece, id))
}

/// The place in the list of the first chunk with an identifier, or the one behind them all where there is none.
pub fn place_named(layout: &Layout, id: Id4) -> usize
    ensures place { result ≡ place_named id.0 layout.now }
    ensures within { result ≤ length layout.now.pieces }
{
    place_of(layout, id).unwrap_or(layout.pieces.len())
}

//! What the head of a new file has room for.

ghost use Rattle.std.specs.Prelude.{◌≡◌, None, []};
ghost use Rattle.snd_inputs.specs.Rooms.{exceeds, is_full, is_past_count};
ghost use Rattle.snd_layout.specs.Fit.{fit_refusal};
ghost use Rattle.snd_layout.specs.Shape.{room as shape_room};
ghost use Rattle.snd_edits.specs.Relaid.{shape_with};

use snd_container::room_with;
use snd_layout::{Codec, Kind, Params};

/// The greatest number of data bytes for which the head of a file has room that is made with these
/// parameters and without further chunks. The kind holds the parameters.
pub fn bare_room(kind: Kind, params: Params) -> u64
    requires { fit_refusal kind params ≡ None }
    ensures { result ≡ shape_room (shape_with kind params []) }
{
    room_with(kind, params, 0)
}

// Whether so many frames are more than an ADPCM WAVE file counts.
fn is_past_count(kind: Kind, codec: Codec, frames: u128) -> bool
    ensures { result ≡ is_past_count kind codec frames }
{
    codec.is_adpcm() && kind == Kind::Wave && frames >= 1 << 32
}

/// Whether a file of a kind with these parameters that has room for so many data bytes has none for so many
/// frames; in an ADPCM WAVE file these are fewer than 2^32, too. The kind holds the parameters.
pub fn exceeds_room(room: u64, kind: Kind, params: Params, frames: u128) -> bool
    requires { fit_refusal kind params ≡ None }
    ensures { result ≡ exceeds kind params room frames }
{
    params.are_good();
    let blocks = frames.div_ceil(u128::from(params.block_frames()));
    let most = u128::from(room) / u128::from(params.block_align());
    let full = blocks > most;
    full || is_past_count(kind, params.codec, frames)
}

/// .. of a new file without further chunks.
pub fn is_full(kind: Kind, params: Params, frames: u128) -> bool
    requires { fit_refusal kind params ≡ None }
    ensures { result ≡ is_full kind params frames }
{
    exceeds_room(bare_room(kind, params), kind, params, frames)
}

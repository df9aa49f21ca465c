//! The codecs whose samples have a fixed number of bytes.

ghost use Rattle.std.specs.Prelude.{◌≡◌};
ghost use Rattle.snd_layout.specs.Blocks.{is_adpcm};
ghost use Rattle.snd_layout.specs.Params.{AreParams};
ghost use Rattle.snd_container.specs.Sound.{fixed_of};

use snd_container::{Fixed, fixed_form};
use snd_layout::{Codec, Layout};

/// Whether a codec's samples stand in blocks.
pub fn is_adpcm(codec: Codec) -> bool
    ensures { result ≡ is_adpcm codec }
{
    matches!(codec, Codec::Ima { .. } | Codec::Ms { .. })
}

/// How the samples are written that a layout counts, and what holds of its parameters.
pub(crate) fn form_of(layout: &Layout) -> Option<Fixed>
    ensures form { result ≡ fixed_of layout.now.params.codec }
    ensures params { AreParams layout.now.params }
{
    layout.params.are_good();
    fixed_form(layout.params.codec)
}

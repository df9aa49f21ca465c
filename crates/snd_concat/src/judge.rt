//! What may stand behind what.

ghost use Rattle.std.specs.Prelude.{◌≡◌};
ghost use Rattle.snd_concat.specs.Concat.{all_frames, first_mixed, is_alike};

use snd_layout::{Layout, Params};

/// Whether two sounds have the same channels and the same rate.
pub(crate) fn is_alike(one: Params, other: Params) -> bool
    ensures { result ≡ is_alike one other }
{
    one.channels == other.channels && one.rate == other.rate
}

/// The place of the first layout whose channels or rate are not those of the parameters.
pub(crate) fn first_mixed(params: Params, layouts: &[Layout]) -> Option<usize>
    ensures { result ≡ first_mixed params layouts.now }
{
    layouts
        .iter()
        .position(|layout| !is_alike(params, layout.params))
}

/// How many frames all layouts count.
pub(crate) fn all_frames(layouts: &[Layout]) -> u128
    ensures { result ≡ all_frames layouts.now }
{
    let mut frames = 0;
    for layout in layouts {
        frames += u128::from(layout.frames);
    }
    frames
}

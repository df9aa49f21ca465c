//! What inputs may stand side by side, and as what.

ghost use Rattle.std.specs.Prelude.{◌≡◌, length, option_map};
ghost use Rattle.snd_interleave.specs.Channels.{first_of, layouts_of, most_frames};
ghost use Rattle.snd_interleave.specs.Interleave.{first_misfit, misfit};

use snd_disk::Disk;
use snd_inputs::Input;
use snd_layout::{Kind, Params};
use snd_lines::Refusal;
use snd_words::Names;

// Why a file is no channel beside a first one.
fn misfit(first: Params, params: Params) -> Option<Refusal>
    ensures { result ≡ misfit first params }
{
    if params.channels != 1 {
        Some(Refusal::NotMono)
    } else if params.rate != first.rate {
        Some(Refusal::MixedParams)
    } else {
        None
    }
}

// The kind of an input, and its parameters.
fn kind_in<D: Disk>(input: &Input<D>) -> Kind
    ensures { result ≡ input.now.layout.kind }
{
    input.layout.kind
}

fn params_in<D: Disk>(input: &Input<D>) -> Params
    ensures { result ≡ input.now.layout.params }
{
    input.layout.params
}

/// The kind and the parameters of the first input.
pub(crate) fn first_of<D: Disk>(inputs: &[Input<D>]) -> Option<(Kind, Params)>
    ensures { result ≡ first_of (layouts_of inputs.now) }
{
    let first = inputs.first()?;
    Some((kind_in(first), params_in(first)))
}

/// The name of the first input that is no channel beside a first one, and why.
pub(crate) fn first_misfit<'a, D: Disk>(
    first: Params,
    names: &Names<'a>,
    inputs: &[Input<D>],
) -> Option<(&'a str, Refusal)>
    requires { length names.now ≡ length inputs.now }
    ensures { option_map (λ r. (r.0.now, r.1)) result ≡ first_misfit first names.now (layouts_of inputs.now) }
{
    for (at, input) in inputs.iter().enumerate() {
        let name = names.get(at)?;
        if let Some(why) = misfit(first, params_in(input)) {
            return Some((name, why));
        }
    }
    None
}

/// The greatest number of frames that an input has.
pub(crate) fn most_frames<D: Disk>(inputs: &[Input<D>]) -> u64
    ensures { result ≡ most_frames (layouts_of inputs.now) }
{
    let mut most = 0;
    for input in inputs {
        most = input.layout.frames.max(most);
    }
    most
}

//! Whether inputs have bad blocks.

ghost use Rattle.std.specs.Prelude.{◌≡◌, IfOk, List};
ghost use Rattle.snd_inputs.specs.Copying.{bytes_checked};
ghost use Rattle.snd_inputs.specs.Inputs.{first_bad, is_bad};
ghost use Rattle.snd_inputs.specs.Opening.{Holds};
ghost use Rattle.snd_edits.specs.Editing.{Editing};
ghost use Rattle.snd_output.specs.Ends.{CountsStop, IsUnchanged};
ghost use Rattle.snd_interleave.specs.Asking.{AsksEach, AsksInput};
ghost use Rattle.snd_interleave.specs.Channels.{CountsInputs, HoldAll, ReadAll, Reads, faults_of};

use snd_blocks::BlockError;
use snd_disk::Disk;
use snd_frames::{check_any, is_adpcm};
use snd_inputs::Input;
use snd_output::Stop;

// Whether an input has one.
fn is_bad<D: Disk>(input: &mut Input<D>) -> Result<bool, Stop>
    ensures found { IfOk result (λ bad. (e : Editing) → Holds D.state input.old e → bad ≡ is_bad e) }
    ensures faults { CountsStop (faults_of D.state input.old) (faults_of D.state input.new) result }
    ensures unchanged { IsUnchanged result }
    ensures reads { Reads D.Disk input.old input.new }
    ensures asked { AsksInput D.state bytes_checked input.old input.new }
{
    if !is_adpcm(input.layout.params.codec) {
        return Ok(false);
    }
    match check_any(&mut input.disk, &input.layout) {
        Ok(()) => Ok(false),
        Err(BlockError::BadBlock) => Ok(true),
        Err(BlockError::DiskFault(_)) => Err(Stop::Fault),
    }
}

/// The place of the first input that has one.
pub(crate) fn first_bad<D: Disk>(inputs: &mut [Input<D>]) -> Result<Option<usize>, Stop>
    ensures found { IfOk result (λ at. (es : List Editing) → HoldAll D.state inputs.old es → at ≡ first_bad es) }
    ensures faults { CountsInputs D.state inputs.old inputs.new result }
    ensures unchanged { IsUnchanged result }
    ensures reads { ReadAll D.Disk inputs.old inputs.new }
    ensures asked { AsksEach D.state bytes_checked inputs.old inputs.new }
{
    let count = inputs.len();
    for i in 0..count {
        let input = &mut inputs[i];
        let bad = is_bad(input)?;
        if bad {
            return Ok(Some(i));
        }
    }
    Ok(None)
}

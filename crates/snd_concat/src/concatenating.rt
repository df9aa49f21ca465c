//! The tool that puts sound files behind each other.

ghost use Rattle.std.specs.Prelude.{◌≡◌, None};
ghost use Rattle.snd_inputs.specs.Asking.{AsksForEach, AsksForFiles};
ghost use Rattle.snd_layout.specs.Fit.{fit_refusal};
ghost use Rattle.snd_output.specs.Ends.{CountsStop};
ghost use Rattle.snd_tools.specs.Shelves.{ChangesOne, Does, IsAllIn, NeverChanged};
ghost use Rattle.snd_concat.specs.Concat.{concatenated};
ghost use Rattle.snd_concat.specs.Making.{AllApart, DoesGood, DoesLike, IsNamedAt, StayTold};

use crate::judge::{all_frames, first_mixed};
use crate::make::make_under;
use snd_disk::Shelf;
use snd_inputs::{Inputs, first_bad, is_full, look_all};
use snd_layout::{Kind, Layout, Params};
use snd_lines::Refusal;
use snd_output::{Stop, params_like};
use snd_tools::Answer;
use snd_words::{Concatenation, first_repeated};
use std::alloc::Global;

// The name at a place among the inputs, with the output behind them.
fn name_at<'a>(concatenation: &Concatenation<'a>, at: usize) -> &'a str
    ensures { IsNamedAt concatenation.now at result.now }
{
    match concatenation.inputs.get(at) {
        Some(name) => name,
        None => concatenation.output,
    }
}

// Makes the output of inputs that may be put together, where none has a bad block.
fn concat_good<'a, S: Shelf>(
    alloc: Global,
    concatenation: &Concatenation<'a>,
    kind: Kind,
    params: Params,
    shelf: &mut S,
) -> Result<Answer<'a>, Stop>
    requires back { IsAllIn (S.state shelf.old) }
    requires apart { AllApart concatenation.now.output.now concatenation.now.inputs }
    requires fits { fit_refusal kind params ≡ None }
    ensures done { DoesGood S.state concatenation.now kind params shelf.old shelf.new result }
    ensures changes { ChangesOne S.Shelf concatenation.now.output.now shelf.old shelf.new }
    ensures faults { CountsStop (S.state shelf.old).faults (S.state shelf.new).faults result }
    ensures changed { StayTold S.state concatenation.now.inputs shelf.old result }
    ensures asked { AsksForEach 2 32768 S.state concatenation.now.inputs shelf.old shelf.new }
{
    let bad = first_bad(alloc, &concatenation.inputs, shelf)?;
    match bad {
        Some(at) => {
            let name = name_at(concatenation, at);
            Ok(Answer::Refused(name, Refusal::BadBlock))
        }
        None => {
            let output = concatenation.output;
            make_under(alloc, &concatenation.inputs, output, kind, params, shelf)
        }
    }
}

// Judges inputs by their layouts, and makes the output.
fn concat_laid<'a, S: Shelf>(
    alloc: Global,
    concatenation: &Concatenation<'a>,
    layouts: &[Layout],
    shelf: &mut S,
) -> Result<Answer<'a>, Stop>
    requires back { IsAllIn (S.state shelf.old) }
    requires apart { AllApart concatenation.now.output.now concatenation.now.inputs }
    ensures done { DoesLike S.state concatenation.now layouts.now shelf.old shelf.new result }
    ensures changes { ChangesOne S.Shelf concatenation.now.output.now shelf.old shelf.new }
    ensures faults { CountsStop (S.state shelf.old).faults (S.state shelf.new).faults result }
    ensures changed { StayTold S.state concatenation.now.inputs shelf.old result }
    ensures asked { AsksForEach 2 32768 S.state concatenation.now.inputs shelf.old shelf.new }
{
    let Some(like) = layouts.first() else {
        return Ok(Answer::Refused(concatenation.output, Refusal::MissingFile));
    };
    if let Some(at) = first_mixed(like.params, layouts) {
        return Ok(Answer::Refused(name_at(concatenation, at), Refusal::MixedParams));
    }
    let kind = like.kind;
    let params = match params_like(kind, u64::from(like.params.channels), like.params) {
        Ok(params) => params,
        Err(why) => return Ok(Answer::Refused(concatenation.output, Refusal::Open(why))),
    };
    if is_full(kind, params, all_frames(layouts)) {
        return Ok(Answer::Refused(concatenation.output, Refusal::ContainerFull));
    }
    concat_good(alloc, concatenation, kind, params, shelf)
}

/// Puts the frames of sound files behind each other, in a file of the kind and with the parameters of the
/// first, whatever its suffix is; blocks of ADPCM have the size that `codec_like` gives them. The output is made,
/// or replaced, whole, each number in the width of the first input's codec, and without further chunks. Each other
/// file is as before, whatever comes.
///
/// All that is refused is refused before the output is touched, in this order: `SameName` of the later of two
/// equal names; `MissingFile`, or why an input does not open, in the order of the inputs; `MixedParams` of the
/// first input whose channels or rate are not those of the first; why the output would not hold them;
/// `ContainerFull` of the output where its head has no room for the data, or the count of an ADPCM WAVE file for
/// the frames; `BadBlock` of the first input that has a bad block. Where the shelf does not tell its files, and one
/// has changed since, it is refused by what it is when its frames are put, and the output holds those before.
///
/// `Fault` where a call of the shelf or of a disk failed, and `Memory` where there is none: then the output
/// may stand there in part. So it is with `Changed`, where the blocks of an input have changed since they were
/// seen to be good; it never comes where the shelf tells its files. No more bytes are asked than twice the
/// inputs have, and 49152 for each; of one of ADPCM, eight times its bytes and 114688.
pub fn concat<'a, S: Shelf>(
    alloc: Global,
    concatenation: &Concatenation<'a>,
    shelf: &mut S,
) -> Result<Answer<'a>, Stop>
    requires back { IsAllIn (S.state shelf.old) }
    ensures done { Does S.state (concatenated concatenation.now.inputs concatenation.now.output.now) shelf.old shelf.new result }
    ensures changes { ChangesOne S.Shelf concatenation.now.output.now shelf.old shelf.new }
    ensures faults { CountsStop (S.state shelf.old).faults (S.state shelf.new).faults result }
    ensures changed { NeverChanged S.state shelf.old result }
    ensures asked { AsksForFiles S.state concatenation.now.inputs shelf.old shelf.new }
{
    if let Some(at) = first_repeated(&concatenation.inputs, concatenation.output) {
        return Ok(Answer::Refused(name_at(concatenation, at), Refusal::SameName));
    }
    match look_all(alloc, &concatenation.inputs, shelf) {
        Ok(Inputs::Sound(layouts)) => concat_laid(alloc, concatenation, &layouts, shelf),
        Ok(Inputs::Refused(name, why)) => Ok(Answer::Refused(name, why)),
        Err(stop) => Err(stop),
    }
}

//! The tool that puts sound files side by side.

ghost use Rattle.std.specs.Prelude.{◌≡◌, ◌≤◌, None, drop, false, length, take};
ghost use Rattle.snd_layout.specs.Fit.{fit_refusal};
ghost use Rattle.std.specs.Vec.{vec_len};
ghost use Rattle.snd_inputs.specs.Asking.{AsksForEach};
ghost use Rattle.snd_inputs.specs.Rooms.{is_full};
ghost use Rattle.snd_output.specs.Ends.{CountsStop};
ghost use Rattle.snd_tools.specs.Shelves.{ChangesOne, Does, IsAllIn, NeverChanged};
ghost use Rattle.snd_interleave.specs.Asking.{AsksWhole};
ghost use Rattle.snd_interleave.specs.Channels.{AreMono, CountsAll, CountsBeside, DoesGood, ReadAll, StayHeld, StayTold, layouts_of, most_frames};
ghost use Rattle.snd_interleave.specs.Opening.{AreApart, AreOut, DoesAll, DoesBeside};
ghost use Rattle.snd_interleave.specs.Interleave.{interleaved};

use crate::checking::first_bad;
use crate::judge::{first_misfit, first_of, most_frames};
use crate::make::make_under;
use snd_disk::{Disk, Shelf};
use snd_inputs::{Input, is_full, open_input};
use snd_layout::{Kind, OpenRefusal, Params};
use snd_lines::Refusal;
use snd_output::{Stop, params_like};
use snd_tools::Answer;
use snd_words::{Interleaving, first_repeated};
use std::alloc::Global;

// Makes the output of inputs that are all open, and fit, where none has a bad block.
fn join_good<'a, S: Shelf, D: Disk>(
    alloc: Global,
    interleaving: &Interleaving<'a>,
    inputs: &mut [Input<D>],
    kind: Kind,
    params: Params,
    frames: u64,
    shelf: &mut S,
) -> Result<Answer<'a>, Stop>
    requires is_in { (S.state shelf.old).out interleaving.now.output.now ≡ false }
    requires named { length inputs.old ≡ length interleaving.now.inputs }
    requires mono { AreMono inputs.old }
    requires alike { params.channels ≡ length inputs.old }
    requires fits { fit_refusal kind params ≡ None }
    requires all { frames ≡ most_frames (layouts_of inputs.old) }
    requires room { is_full kind params frames ≡ false }
    ensures done { DoesGood D.state S.state interleaving.now kind params inputs.old shelf.old shelf.new result }
    ensures changes { ChangesOne S.Shelf interleaving.now.output.now shelf.old shelf.new }
    ensures faults { CountsBeside D.state S.state inputs.old inputs.new shelf.old shelf.new result }
    ensures changed { StayHeld D.state inputs.old result }
    ensures reads { ReadAll D.Disk inputs.old inputs.new }
    ensures asked { AsksWhole D.state inputs.old inputs.new }
    ensures unasked { (S.state shelf.new).asked ≡ (S.state shelf.old).asked }
{
    let output = interleaving.output;
    let bad = first_bad(inputs)?;
    if let Some(at) = bad {
        let names = &interleaving.inputs;
        let name = names.get(at).unwrap_or(output);
        return Ok(Answer::Refused(name, Refusal::BadBlock));
    }
    match make_under(alloc, inputs, kind, params, frames, output, shelf) {
        Ok(()) => Ok(Answer::Made(frames)),
        Err(stop) => Err(stop),
    }
}

// Makes the output of inputs that are all open.
fn join<'a, S: Shelf, D: Disk>(
    alloc: Global,
    interleaving: &Interleaving<'a>,
    inputs: &mut [Input<D>],
    shelf: &mut S,
) -> Result<Answer<'a>, Stop>
    requires is_in { (S.state shelf.old).out interleaving.now.output.now ≡ false }
    requires all { length inputs.old ≡ length interleaving.now.inputs }
    ensures done { DoesBeside D.state S.state interleaving.now inputs.old shelf.old shelf.new result }
    ensures changes { ChangesOne S.Shelf interleaving.now.output.now shelf.old shelf.new }
    ensures faults { CountsBeside D.state S.state inputs.old inputs.new shelf.old shelf.new result }
    ensures changed { StayHeld D.state inputs.old result }
    ensures reads { ReadAll D.Disk inputs.old inputs.new }
    ensures asked { AsksWhole D.state inputs.old inputs.new }
    ensures unasked { (S.state shelf.new).asked ≡ (S.state shelf.old).asked }
{
    let output = interleaving.output;
    let Some((kind, own)) = first_of(inputs) else {
        let why = Refusal::Open(OpenRefusal::BadChannels);
        return Ok(Answer::Refused(output, why));
    };
    if let Some((name, why)) = first_misfit(own, &interleaving.inputs, inputs) {
        return Ok(Answer::Refused(name, why));
    }
    let params = match params_like(kind, inputs.len() as u64, own) {
        Ok(params) => params,
        Err(why) => return Ok(Answer::Refused(output, Refusal::Open(why))),
    };
    let frames = most_frames(inputs);
    if is_full(kind, params, u128::from(frames)) {
        return Ok(Answer::Refused(output, Refusal::ContainerFull));
    }
    join_good(alloc, interleaving, inputs, kind, params, frames, shelf)
}

// Opens the inputs that are left, beside those that are open already, and makes the output once all are. Each
// is held until that is done, and given back.
fn open_rest<'a, S: Shelf>(
    alloc: Global,
    interleaving: &Interleaving<'a>,
    inputs: &mut Vec<Input<S::Disk>>,
    shelf: &mut S,
) -> Result<Answer<'a>, Stop>
    requires apart { AreApart interleaving.now.inputs interleaving.now.output.now }
    requires within { vec_len inputs.old ≤ length interleaving.now.inputs }
    requires out { AreOut (take (vec_len inputs.old) interleaving.now.inputs) (S.state shelf.old) }
    ensures done { DoesAll S.Disk.state S.state interleaving.now inputs.old shelf.old shelf.new result }
    ensures changes { ChangesOne S.Shelf interleaving.now.output.now shelf.old shelf.new }
    ensures faults { CountsAll S.Disk.state S.state inputs.old inputs.new shelf.old shelf.new result }
    ensures changed { StayTold S.Disk.state S.state inputs.old.items shelf.old result }
    ensures reads { ReadAll S.Disk.Disk inputs.old.items inputs.new.items }
    ensures asked { AsksWhole S.Disk.state inputs.old.items inputs.new.items }
    ensures asked_rest { AsksForEach 1 16384 S.state (drop (vec_len inputs.old) interleaving.now.inputs) shelf.old shelf.new }
{
    let Some(name) = interleaving.inputs.get(inputs.len()) else {
        return join(alloc, interleaving, inputs.as_mut_slice(), shelf);
    };
    let input = match open_input(alloc, name, shelf)? {
        Ok(input) => input,
        Err(why) => return Ok(Answer::Refused(name, why)),
    };
    if let Err(failed) = inputs.push(input) {
        let Input { disk, layout: _ } = failed.value;
        shelf.give(name, disk);
        return Err(Stop::Memory);
    }
    let answer = open_rest(alloc, interleaving, inputs, shelf);
    let Some(input) = inputs.pop() else {
        unreachable!()
    };
    let Input { disk, layout: _ } = input;
    shelf.give(name, disk);
    answer
}

/// Puts sound files of one channel side by side: the output is made, or replaced, whole, with the kind, the
/// rate and the codec of the first input, a channel for each, and as many frames as the longest has; blocks of
/// ADPCM have the size that `codec_like` gives them. A number has the width of the first input's codec, and is
/// zero where its input has ended. Further chunks are not carried. Each other file is as before, whatever comes.
///
/// All that is refused is refused before the output is touched, in this order: `SameName`, by the first
/// name that equals an earlier one; `MissingFile`, or why an input does not open; `NotMono` and `MixedParams`
/// of an input that has more channels or another rate than the first, input by input; why the kind of the output
/// does not hold its parameters, as 2 channels in 8SVX; `ContainerFull` where its head has no room for the data,
/// or the count of an ADPCM WAVE file for the frames; `BadBlock` of the first input that has a bad block.
///
/// `Fault` where a call of the shelf or of a disk failed, and `Memory` where there is none: then the output
/// may stand there in part. All inputs are open at once, and frames pass in blocks: as the bytes that they are
/// where all have one linear codec of 16 bits, and else as numbers. No more bytes are asked than the inputs
/// have, and 16384 for each.
pub fn interleave<'a, S: Shelf>(
    alloc: Global,
    interleaving: &Interleaving<'a>,
    shelf: &mut S,
) -> Result<Answer<'a>, Stop>
    requires back { IsAllIn (S.state shelf.old) }
    ensures done { Does S.state (interleaved interleaving.now.inputs interleaving.now.output.now) shelf.old shelf.new result }
    ensures changes { ChangesOne S.Shelf interleaving.now.output.now shelf.old shelf.new }
    ensures faults { CountsStop (S.state shelf.old).faults (S.state shelf.new).faults result }
    ensures changed { NeverChanged S.state shelf.old result }
    ensures asked { AsksForEach 1 16384 S.state interleaving.now.inputs shelf.old shelf.new }
{
    let output = interleaving.output;
    if let Some(at) = first_repeated(&interleaving.inputs, output) {
        let name = interleaving.inputs.get(at).unwrap_or(output);
        return Ok(Answer::Refused(name, Refusal::SameName));
    }
    let mut inputs = Vec::new(alloc);
    let answer = open_rest(alloc, interleaving, &mut inputs, shelf);
    inputs.destroy_empty();
    answer
}

//! The tool that makes a file of each channel of a sound file.

ghost use Rattle.std.specs.Prelude.{◌≡◌, ◌+◌, ◌≤◌, ◌^◌, ◌∷◌, [], All, length};
ghost use Rattle.snd_disk.specs.Device.{OnlyReadsOn};
ghost use Rattle.snd_inputs.specs.Asking.{AsksForEach};
ghost use Rattle.snd_inputs.specs.Copying.{CountsDiskAndShelf, CountsFileAndShelf, OnlyReadsFile};
ghost use Rattle.snd_inputs.specs.Opening.{IsUnread};
ghost use Rattle.snd_layout.specs.Opened.{EndsIn};
ghost use Rattle.snd_layout.specs.Shape.{end, room};
ghost use Rattle.snd_file.specs.Handle.{channels_of, known_of, loan_of};
ghost use Rattle.snd_output.specs.Ends.{CountsStop};
ghost use Rattle.snd_tools.specs.Shelves.{IsAllIn, NeverChanged};
ghost use Rattle.snd_deinterleave.specs.Among.{ChangesAmong};
ghost use Rattle.snd_deinterleave.specs.Deinterleave.{deinterleaved};
ghost use Rattle.snd_deinterleave.specs.Making.{AreApartNames, AreIn, AsksWhole, AsksWholeLaid, DoesAll, DoesGood, DoesLaid, MaySplit, StaysTold, StaysToldOn};
ghost use Rattle.snd_deinterleave.specs.Outputs.{Does};

use crate::names::first_same;
use crate::outputs::make_first;
use snd_disk::{Disk, Shelf};
use snd_edits::Read;
use snd_file::File;
use snd_inputs::{Input, close_read, has_bad_block, is_full, open_input};
use snd_layout::{Kind, Layout, Params};
use snd_lines::Refusal;
use snd_opening::open_laid;
use snd_output::{Stop, params_like};
use snd_tools::Answer;
use snd_words::Names;
use std::alloc::Global;

// Makes the outputs of an open file, where their heads have room for its data.
fn split_good<'a, S: Shelf, D: Disk>(
    alloc: Global,
    input: &'a str,
    outputs: &Names<'a>,
    kind: Kind,
    params: Params,
    file: &mut File<'_, D, Read>,
    shelf: &mut S,
) -> Result<Answer<'a>, Stop>
    requires apart { AreApartNames outputs.now }
    requires all_in { AreIn outputs.now (S.state shelf.old) }
    requires unread { IsUnread (known_of file.old) }
    requires some { 1 ≤ length outputs.now }
    requires channels { length outputs.now ≡ channels_of file.old }
    requires split { MaySplit kind params (known_of file.old) }
    ensures loan { loan_of file.new ≡ loan_of file.old }
    ensures done { DoesGood D.state S.state input.now outputs.now kind params file.old shelf.old shelf.new result }
    ensures changes { ChangesAmong S.Shelf outputs.now shelf.old shelf.new }
    ensures faults { CountsFileAndShelf D.state S.state file.old file.new shelf.old shelf.new result }
    ensures changed { StaysTold D.state file.old result }
    ensures reads { OnlyReadsFile D.Disk file.old file.new }
    ensures asked { AsksWhole D.state (length outputs.now) file.old file.new }
    ensures unasked { (S.state shelf.new).asked ≡ (S.state shelf.old).asked }
{
    let frames = file.frames();
    let count = outputs.len();
    let bad = has_bad_block(file)?;
    if bad {
        return Ok(Answer::Refused(input, Refusal::BadBlock));
    }
    match make_first(alloc, file, outputs, count, kind, params, shelf) {
        Ok(()) => Ok(Answer::Made(frames)),
        Err(stop) => Err(stop),
    }
}

// .. whether they have or not, and however many there are.
fn split_file<'a, S: Shelf, D: Disk>(
    alloc: Global,
    input: &'a str,
    outputs: &Names<'a>,
    file: &mut File<'_, D, Read>,
    shelf: &mut S,
) -> Result<Answer<'a>, Stop>
    requires apart { AreApartNames outputs.now }
    requires all_in { AreIn outputs.now (S.state shelf.old) }
    requires unread { IsUnread (known_of file.old) }
    ensures loan { loan_of file.new ≡ loan_of file.old }
    ensures done { DoesAll D.state S.state input.now outputs.now file.old shelf.old shelf.new result }
    ensures changes { ChangesAmong S.Shelf outputs.now shelf.old shelf.new }
    ensures faults { CountsFileAndShelf D.state S.state file.old file.new shelf.old shelf.new result }
    ensures changed { StaysTold D.state file.old result }
    ensures reads { OnlyReadsFile D.Disk file.old file.new }
    ensures asked { AsksWhole D.state (length outputs.now) file.old file.new }
    ensures unasked { (S.state shelf.new).asked ≡ (S.state shelf.old).asked }
{
    let like = file.params();
    like.are_good();
    if outputs.len() != usize::from(like.channels) {
        return Ok(Answer::Refused(input, Refusal::WrongCount));
    }
    let Some(first) = outputs.get(0) else {
        unreachable!();
    };
    let kind = file.kind();
    let params = match params_like(kind, 1, like) {
        Ok(params) => params,
        Err(why) => return Ok(Answer::Refused(first, Refusal::Open(why))),
    };
    if is_full(kind, params, u128::from(file.frames())) {
        return Ok(Answer::Refused(first, Refusal::ContainerFull));
    }
    split_good(alloc, input, outputs, kind, params, file, shelf)
}

// .. of the file on a disk, by its layout.
fn split_laid<'a, S: Shelf, D: Disk>(
    alloc: Global,
    input: &'a str,
    outputs: &Names<'a>,
    disk: &mut D,
    layout: Layout,
    shelf: &mut S,
) -> Result<Answer<'a>, Stop>
    requires apart { AreApartNames outputs.now }
    requires all_in { AreIn outputs.now (S.state shelf.old) }
    requires held { end layout layout.frames ≤ (D.state disk.old).size }
    requires room_ends { layout.start + room layout + 8 ≤ 2 ^ 63 }
    requires pieces_held { All (EndsIn (D.state disk.old).size) layout.pieces }
    ensures done { DoesLaid D.state S.state input.now outputs.now disk.old layout shelf.old shelf.new result }
    ensures changes { ChangesAmong S.Shelf outputs.now shelf.old shelf.new }
    ensures faults { CountsDiskAndShelf D.state S.state disk.old disk.new shelf.old shelf.new result }
    ensures changed { StaysToldOn D.state disk.old result }
    ensures reads { OnlyReadsOn D.state D.may_leave D.left_between disk.old disk.new }
    ensures asked { AsksWholeLaid D.state (length outputs.now) layout disk.old disk.new }
    ensures unasked { (S.state shelf.new).asked ≡ (S.state shelf.old).asked }
{
    let mut file = match open_laid(alloc, disk, layout) {
        Ok(file) => file,
        Err((_, back)) => {
            let _ = back;
            return Err(Stop::Memory);
        }
    };
    let answer = split_file(alloc, input, outputs, &mut file, shelf);
    let back = close_read(file);
    let _ = back;
    answer
}

/// Makes a file of each channel of a sound file: output k is made, or replaced, whole, with the k-th sample of each
/// frame, and with the kind, the rate and the codec of the input; blocks of ADPCM have the size that `codec_like` gives
/// them. Further chunks are not carried. Each other file is as before, whatever comes.
///
/// All that is refused is refused before an output is touched, in this order: `SameName` of the first output that has
/// the input's name or that of an earlier output; `MissingFile`, or why the input does not open; `WrongCount` of the input
/// where it has not as many channels as there are outputs; of the first output why its kind does not hold the
/// parameters, and `ContainerFull` where its head has no room for the data, or the count of an ADPCM WAVE file for the
/// frames; `BadBlock` of the input.
///
/// `Fault` where a call of the shelf or of a disk failed, and `Memory` where there is none: then the outputs may stand
/// there in part. The input is read once for each output, and no more bytes are asked of it than this takes, and 16384.
pub fn deinterleave<'a, S: Shelf>(
    alloc: Global,
    input: &'a str,
    outputs: &Names<'a>,
    shelf: &mut S,
) -> Result<Answer<'a>, Stop>
    requires back { IsAllIn (S.state shelf.old) }
    ensures done { Does S.state (deinterleaved input.now outputs.now) shelf.old shelf.new result }
    ensures changes { ChangesAmong S.Shelf outputs.now shelf.old shelf.new }
    ensures faults { CountsStop (S.state shelf.old).faults (S.state shelf.new).faults result }
    ensures changed { NeverChanged S.state shelf.old result }
    ensures asked { AsksForEach (length outputs.now) 16384 S.state (input.now ∷ []) shelf.old shelf.new }
{
    if let Some(at) = first_same(input, outputs) {
        let name = outputs.get(at).unwrap_or(input);
        return Ok(Answer::Refused(name, Refusal::SameName));
    }
    let opened = match open_input(alloc, input, shelf)? {
        Ok(opened) => opened,
        Err(why) => return Ok(Answer::Refused(input, why)),
    };
    let Input { mut disk, layout } = opened;
    let answer = split_laid(alloc, input, outputs, &mut disk, layout, shelf);
    shelf.give(input, disk);
    answer
}

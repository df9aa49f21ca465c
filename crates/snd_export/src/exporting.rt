//! The tool that makes a file of another form of a sound file.

ghost use Rattle.std.specs.Prelude.{◌≡◌, ◌≤◌, ◌∷◌, [], false};
ghost use Rattle.snd_blocks.specs.Frames.{has_bad};
ghost use Rattle.snd_blocks.specs.Sound.{frames_in};
ghost use Rattle.snd_disk.specs.Device.{AsksAtMost, IfOkTold, OnlyReadsOn};
ghost use Rattle.snd_inputs.specs.Asking.{AsksForEach};
ghost use Rattle.snd_inputs.specs.Copying.{CountsDiskAndShelf, bytes_checked};
ghost use Rattle.snd_layout.specs.Shape.{end};
ghost use Rattle.snd_output.specs.Ends.{CountsStop, IsUnchanged};
ghost use Rattle.snd_tools.specs.Shelves.{ChangesOne, Does, IsAllIn, NeverChanged};
ghost use Rattle.snd_export.specs.Export.{exported, has_too_many, is_too_long};
ghost use Rattle.snd_export.specs.Making.{AsksWhole, DoesGood, DoesLaid, StaysTold};

use crate::make::make_under;
use crate::target::{frames_of, has_too_many, is_too_long};
use snd_blocks::BlockError;
use snd_disk::{Disk, Shelf};
use snd_frames::{check_any, keeps_rules};
use snd_inputs::{Input, open_input};
use snd_layout::Layout;
use snd_lines::Refusal;
use snd_output::Stop;
use snd_tools::Answer;
use snd_words::Exportation;
use std::alloc::Global;

// Whether the file on a disk has a bad block, by its layout.
fn is_bad<D: Disk>(from: &mut D, layout: &Layout) -> Result<bool, Stop>
    requires { end layout.now layout.now.frames ≤ (D.state from.old).size }
    ensures found { IfOkTold D.state from.old result (λ b bad. bad ≡ has_bad (frames_in b layout.now)) }
    ensures faults { CountsStop (D.state from.old).faults (D.state from.new).faults result }
    ensures unchanged { IsUnchanged result }
    ensures reads { OnlyReadsOn D.state D.may_leave D.left_between from.old from.new }
    ensures asked { AsksAtMost D.state (bytes_checked layout.now) from.old from.new }
{
    keeps_rules(layout);
    if !layout.params.codec.is_adpcm() {
        return Ok(false);
    }
    match check_any(from, layout) {
        Ok(()) => Ok(false),
        Err(BlockError::BadBlock) => Ok(true),
        Err(BlockError::DiskFault(_)) => Err(Stop::Fault),
    }
}

// Makes the output of the file on a disk, by its layout, where no block is bad.
fn export_good<'a, S: Shelf, D: Disk>(
    alloc: Global,
    exportation: &Exportation<'a>,
    from: &mut D,
    layout: &Layout,
    shelf: &mut S,
) -> Result<Answer<'a>, Stop>
    requires is_in { (S.state shelf.old).out exportation.now.output.now ≡ false }
    requires held { end layout.now layout.now.frames ≤ (D.state from.old).size }
    requires mono { has_too_many exportation.now.form layout.now ≡ false }
    requires short { is_too_long exportation.now.form layout.now ≡ false }
    ensures done { DoesGood D.state S.state exportation.now layout.now from.old shelf.old shelf.new result }
    ensures changes { ChangesOne S.Shelf exportation.now.output.now shelf.old shelf.new }
    ensures faults { CountsDiskAndShelf D.state S.state from.old from.new shelf.old shelf.new result }
    ensures changed { StaysTold D.state from.old result }
    ensures reads { OnlyReadsOn D.state D.may_leave D.left_between from.old from.new }
    ensures asked { AsksWhole D.state layout.now from.old from.new }
    ensures unasked { (S.state shelf.new).asked ≡ (S.state shelf.old).asked }
{
    let frames = frames_of(layout);
    let bad = is_bad(from, layout)?;
    if bad {
        return Ok(Answer::Refused(exportation.input, Refusal::BadBlock));
    }
    let (form, output) = (exportation.form, exportation.output);
    match make_under(alloc, form, from, layout, output, shelf) {
        Ok(()) => Ok(Answer::Made(frames)),
        Err(stop) => Err(stop),
    }
}

// .. or says why it is not made.
fn export_laid<'a, S: Shelf, D: Disk>(
    alloc: Global,
    exportation: &Exportation<'a>,
    from: &mut D,
    layout: &Layout,
    shelf: &mut S,
) -> Result<Answer<'a>, Stop>
    requires is_in { (S.state shelf.old).out exportation.now.output.now ≡ false }
    requires held { end layout.now layout.now.frames ≤ (D.state from.old).size }
    ensures done { DoesLaid D.state S.state exportation.now layout.now from.old shelf.old shelf.new result }
    ensures changes { ChangesOne S.Shelf exportation.now.output.now shelf.old shelf.new }
    ensures faults { CountsDiskAndShelf D.state S.state from.old from.new shelf.old shelf.new result }
    ensures changed { StaysTold D.state from.old result }
    ensures reads { OnlyReadsOn D.state D.may_leave D.left_between from.old from.new }
    ensures asked { AsksWhole D.state layout.now from.old from.new }
    ensures unasked { (S.state shelf.new).asked ≡ (S.state shelf.old).asked }
{
    if has_too_many(exportation.form, layout) {
        return Ok(Answer::Refused(exportation.input, Refusal::NotMono));
    }
    if is_too_long(exportation.form, layout) {
        return Ok(Answer::Refused(exportation.output, Refusal::ContainerFull));
    }
    export_good(alloc, exportation, from, layout, shelf)
}

/// Makes a file of another form of a sound file: its samples without a head, in their codec, and those of ADPCM in 16
/// bits, the lowest byte first; a PVF file, of 8 bits where the input's samples have 8, of 32 where they have 24 or 32,
/// and else of 16; or a Dialogic VOX file of an input with one channel, of its numbers in 16 bits, with a zero behind a
/// last odd one. A sample that can be written in two ways is written in one: the second zero of the mu-law becomes the
/// first. The output is made, or replaced, whole, and is stable once the answer is there; how many frames the answer
/// tells are those of the input. Further chunks are not carried. Each other file is as before, whatever comes.
///
/// All that is refused is refused before the output is touched, in this order: `SameName`; `MissingFile`, or why the
/// input does not open; `NotMono` of an input with more channels than one, for VOX; `ContainerFull` of the output where
/// it would have more than 2^63 - 1 bytes; `BadBlock` of the input.
///
/// `Fault` where a call of the shelf or of a disk failed, and `Memory` where there is none: then the output may stand
/// there in part. So it is with `Changed`, where the input has changed since its blocks were seen to be good; it never
/// comes where the shelf tells its files. Frames pass in blocks of at most 64 KiB. No more bytes are asked than the
/// input has, and 16384; of an input of ADPCM, four times these bytes and 49152.
pub fn export<'a, S: Shelf>(
    alloc: Global,
    exportation: &Exportation<'a>,
    shelf: &mut S,
) -> Result<Answer<'a>, Stop>
    requires back { IsAllIn (S.state shelf.old) }
    ensures done { Does S.state (exported exportation.now.form exportation.now.input.now exportation.now.output.now) shelf.old shelf.new result }
    ensures changes { ChangesOne S.Shelf exportation.now.output.now shelf.old shelf.new }
    ensures faults { CountsStop (S.state shelf.old).faults (S.state shelf.new).faults result }
    ensures changed { NeverChanged S.state shelf.old result }
    ensures asked { AsksForEach 1 16384 S.state (exportation.now.input.now ∷ []) shelf.old shelf.new }
{
    if exportation.input == exportation.output {
        return Ok(Answer::Refused(exportation.output, Refusal::SameName));
    }
    let input = match open_input(alloc, exportation.input, shelf)? {
        Ok(input) => input,
        Err(why) => return Ok(Answer::Refused(exportation.input, why)),
    };
    let Input { mut disk, layout } = input;
    let answer = export_laid(alloc, exportation, &mut disk, &layout, shelf);
    shelf.give(exportation.input, disk);
    answer
}

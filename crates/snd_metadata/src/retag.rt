//! The tool that copies a file with changed texts.

ghost use Rattle.std.specs.Prelude.{◌≡◌, ◌+◌, ◌≤◌, ◌^◌, ◌∷◌, [], All, false};
ghost use Rattle.snd_disk.specs.Device.{OnlyReadsOn};
ghost use Rattle.snd_inputs.specs.Asking.{AsksForEach};
ghost use Rattle.snd_inputs.specs.Copying.{AsksToCopy, CountsDiskAndShelf, CountsFileAndShelf, OnlyReadsFile};
ghost use Rattle.snd_inputs.specs.Opening.{IsUnread};
ghost use Rattle.snd_layout.specs.Opened.{EndsIn};
ghost use Rattle.snd_layout.specs.Shape.{end, room};
ghost use Rattle.snd_file.specs.Handle.{known_of, loan_of};
ghost use Rattle.snd_output.specs.Ends.{CountsStop, IsUnchanged};
ghost use Rattle.snd_tools.specs.Shelves.{ChangesOne, Does, IsAllIn};
ghost use Rattle.snd_words.specs.Stated.{IsStated};
ghost use Rattle.snd_metadata.specs.Asking.{AsksToRetag, AsksToRetagLaid};
ghost use Rattle.snd_metadata.specs.Making.{AnswersHalt, MakesUnder, Retags, RetagsLaid};
ghost use Rattle.snd_metadata.specs.Planned.{IsReady, bytes_planned};
ghost use Rattle.snd_metadata.specs.Retagged.{retagged};

use crate::chunks::PlannedChunk;
use crate::halt::Halt;
use crate::make::make;
use crate::planning::plan_of;
use snd_disk::{Disk, Shelf};
use snd_edits::Read;
use snd_file::File;
use snd_inputs::{Input, close_read, open_input, take_output};
use snd_layout::Layout;
use snd_lines::Refusal;
use snd_opening::open_laid;
use snd_output::Stop;
use snd_tools::Answer;
use snd_words::MetadataChange;
use std::alloc::Global;

// Makes the output of an open file by its plan, under a name.
fn make_under<S: Shelf, D: Disk>(
    alloc: Global,
    file: &mut File<'_, D, Read>,
    name: &str,
    plan: &[PlannedChunk],
    shelf: &mut S,
) -> Result<(), Stop>
    requires is_in { (S.state shelf.old).out name.now ≡ false }
    requires unread { IsUnread (known_of file.old) }
    requires ready { IsReady (known_of file.old).shape plan.now }
    ensures loan { loan_of file.new ≡ loan_of file.old }
    ensures made { MakesUnder D.state S.state name.now plan.now file.old shelf.old shelf.new result }
    ensures changes { ChangesOne S.Shelf name.now shelf.old shelf.new }
    ensures faults { CountsFileAndShelf D.state S.state file.old file.new shelf.old shelf.new result }
    ensures unchanged { IsUnchanged result }
    ensures reads { OnlyReadsFile D.Disk file.old file.new }
    ensures asked { AsksToCopy D.state (bytes_planned plan.now) file.old file.new }
    ensures unasked { (S.state shelf.new).asked ≡ (S.state shelf.old).asked }
{
    let mut disk = take_output(name, shelf)?;
    let made = make(alloc, file, &mut disk, plan);
    shelf.give(name, disk);
    made
}

// What is answered where no file is made.
fn answer_of<'a>(change: &MetadataChange<'a>, halt: Halt) -> Result<Answer<'a>, Stop>
    ensures { AnswersHalt change.now.input.now change.now.output.now halt result }
{
    match halt {
        Halt::Input(why) => Ok(Answer::Refused(change.input, why)),
        Halt::Output(why) => Ok(Answer::Refused(change.output, why)),
        Halt::Stop(stop) => Err(stop),
    }
}

// Makes the output of an open file, or answers why it is not made.
fn retag_file<'a, S: Shelf, D: Disk>(
    alloc: Global,
    change: &MetadataChange<'a>,
    file: &mut File<'_, D, Read>,
    shelf: &mut S,
) -> Result<Answer<'a>, Stop>
    requires is_in { (S.state shelf.old).out change.now.output.now ≡ false }
    requires good { All IsStated change.now.settings }
    requires unread { IsUnread (known_of file.old) }
    ensures loan { loan_of file.new ≡ loan_of file.old }
    ensures done { Retags D.state S.state change.now file.old shelf.old shelf.new result }
    ensures changes { ChangesOne S.Shelf change.now.output.now shelf.old shelf.new }
    ensures faults { CountsFileAndShelf D.state S.state file.old file.new shelf.old shelf.new result }
    ensures unchanged { IsUnchanged result }
    ensures reads { OnlyReadsFile D.Disk file.old file.new }
    ensures asked { AsksToRetag D.state file.old file.new }
    ensures unasked { (S.state shelf.new).asked ≡ (S.state shelf.old).asked }
{
    let frames = file.frames();
    let plan = match plan_of(alloc, &change.settings, file) {
        Ok(plan) => plan,
        Err(halt) => return answer_of(change, halt),
    };
    match make_under(alloc, file, change.output, &plan, shelf) {
        Ok(()) => Ok(Answer::Made(frames)),
        Err(stop) => Err(stop),
    }
}

// .. of the file on a disk, by its layout.
fn retag_laid<'a, S: Shelf, D: Disk>(
    alloc: Global,
    change: &MetadataChange<'a>,
    disk: &mut D,
    layout: Layout,
    shelf: &mut S,
) -> Result<Answer<'a>, Stop>
    requires is_in { (S.state shelf.old).out change.now.output.now ≡ false }
    requires good { All IsStated change.now.settings }
    requires held { end layout layout.frames ≤ (D.state disk.old).size }
    requires room_ends { layout.start + room layout + 8 ≤ 2 ^ 63 }
    requires pieces_held { All (EndsIn (D.state disk.old).size) layout.pieces }
    ensures done { RetagsLaid D.state S.state change.now disk.old layout shelf.old shelf.new result }
    ensures changes { ChangesOne S.Shelf change.now.output.now shelf.old shelf.new }
    ensures faults { CountsDiskAndShelf D.state S.state disk.old disk.new shelf.old shelf.new result }
    ensures unchanged { IsUnchanged result }
    ensures reads { OnlyReadsOn D.state D.may_leave D.left_between disk.old disk.new }
    ensures asked { AsksToRetagLaid D.state layout disk.old disk.new }
    ensures unasked { (S.state shelf.new).asked ≡ (S.state shelf.old).asked }
{
    let mut file = match open_laid(alloc, disk, layout) {
        Ok(file) => file,
        Err((_, back)) => {
            let _ = back;
            return Err(Stop::Memory);
        }
    };
    let answer = retag_file(alloc, change, &mut file, shelf);
    let back = close_read(file);
    let _ = back;
    answer
}

/// Copies a WAVE or RF64 file with changed texts: the output has the kind, the parameters and the frames of
/// the input, and of its further chunks those with at most 65536 bytes, the first 238 of them, in their order
/// and before the data. A text of the INFO list or of the broadcast extension that is set is put into what
/// the first such chunk of the input says, or into a new one; the chunk keeps its place, or stands behind the
/// others where it has none, the broadcast extension first. Texts of other identifiers than those of the keys
/// are not kept in a list that is changed. Each other file is as before, whatever comes.
///
/// All that is refused is refused before the output is touched, in this order: `SameName`; `MissingFile`, or
/// why the input does not open; `NoChunks` of an input of another kind; `AdpcmUpdate` of one of ADPCM;
/// `ChunkTooLarge`, and then `BadBext` and `BadInfo`, where a chunk that is to be changed has more than 65536
/// bytes or does not read;
/// `TextTooLong` where a text exceeds its field, or of the INFO list and the coding history 1024 bytes;
/// `ChunkTooLarge` of the output where the changed list has more than 65536 bytes; why the output's kind does
/// not hold the parameters; and `ContainerFull` where its head has no room for the data.
///
/// `Fault` where a call of the shelf or of a disk failed, and `Memory` where there is none: then the output
/// may stand there in part. No more bytes are asked than twice the input has, and 164864.
pub fn set_metadata<'a, S: Shelf>(
    alloc: Global,
    change: &MetadataChange<'a>,
    shelf: &mut S,
) -> Result<Answer<'a>, Stop>
    requires back { IsAllIn (S.state shelf.old) }
    requires good { All IsStated change.now.settings }
    ensures done { Does S.state (retagged change.now.settings change.now.input.now change.now.output.now) shelf.old shelf.new result }
    ensures changes { ChangesOne S.Shelf change.now.output.now shelf.old shelf.new }
    ensures faults { CountsStop (S.state shelf.old).faults (S.state shelf.new).faults result }
    ensures changed { IsUnchanged result }
    ensures asked { AsksForEach 2 164864 S.state (change.now.input.now ∷ []) shelf.old shelf.new }
{
    if change.input == change.output {
        return Ok(Answer::Refused(change.output, Refusal::SameName));
    }
    let input = match open_input(alloc, change.input, shelf)? {
        Ok(input) => input,
        Err(why) => return Ok(Answer::Refused(change.input, why)),
    };
    let Input { mut disk, layout } = input;
    let answer = retag_laid(alloc, change, &mut disk, layout, shelf);
    shelf.give(change.input, disk);
    answer
}

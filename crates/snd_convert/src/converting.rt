//! The tool that copies a file into another container or codec.

ghost use Rattle.std.specs.Prelude.{◌≡◌, ◌+◌, ◌≤◌, ◌^◌, ◌∷◌, [], All, None, false, length, map, take};
ghost use Rattle.snd_disk.specs.Device.{OnlyReadsOn};
ghost use Rattle.snd_inputs.specs.Asking.{AsksForFiles};
ghost use Rattle.snd_inputs.specs.Copying.{CountsDiskAndShelf, CountsFileAndShelf, OnlyReadsFile};
ghost use Rattle.snd_inputs.specs.Opening.{IsUnread};
ghost use Rattle.snd_layout.specs.Fit.{fit_refusal};
ghost use Rattle.snd_layout.specs.Opened.{EndsIn};
ghost use Rattle.snd_layout.specs.Shape.{end, room};
ghost use Rattle.snd_file.specs.Handle.{channels_of, known_of, loan_of};
ghost use Rattle.snd_output.specs.Appended.{FindsChanged};
ghost use Rattle.snd_output.specs.Ends.{CountsStop};
ghost use Rattle.snd_tools.specs.Shelves.{ChangesOne, Does, IsAllIn, NeverChanged};
ghost use Rattle.snd_convert.specs.Convert.{converted};
ghost use Rattle.snd_convert.specs.Making.{AsksToConvert, AsksToConvertLaid, AsksToFill, Converts, ConvertsLaid, DoesBy, DoesGood, FitsRack, MakesUnder, StaysTold, StaysToldOn, TellsFull, is_full_by};
ghost use Rattle.snd_convert.specs.Planning.{asked_of, items_of, planned_by};

use crate::chunks::chunks_size;
use crate::make::make;
use crate::plan::{Plan, plan_with};
use crate::racks::take_boxes;
use snd_container::room_with;
use snd_disk::{Disk, Shelf};
use snd_edits::Read;
use snd_file::File;
use snd_inputs::{Input, close_read, exceeds_room, has_bad_block, open_input, take_output};
use snd_layout::{Kind, Layout};
use snd_lines::Refusal;
use snd_opening::open_laid;
use snd_output::Stop;
use snd_rack::Stage;
use snd_tools::Answer;
use snd_words::{Conversion, kind_by_suffix};
use std::alloc::Global;

// Makes the output of an open file by its plan.
fn make_under<S: Shelf, D: Disk>(
    alloc: Global,
    conversion: &Conversion<'_>,
    plan: &Plan,
    file: &mut File<'_, D, Read>,
    shelf: &mut S,
    stages: &mut [Box<dyn Stage>],
) -> Result<(), Stop>
    requires is_in { (S.state shelf.old).out conversion.now.output.now ≡ false }
    requires unread { IsUnread (known_of file.old) }
    requires fits { fit_refusal plan.now.kind plan.now.params ≡ None }
    requires rack { FitsRack (items_of conversion.now.rack) (map (λ b. (stage b).kind) (take (length (items_of conversion.now.rack)) stages.old))
        (channels_of file.old) plan.now.params.channels }
    requires room { is_full_by (planned_by plan.now) (known_of file.old).shape ≡ false }
    ensures loan { loan_of file.new ≡ loan_of file.old }
    ensures made { MakesUnder D.state S.state conversion.now plan.now file.old shelf.old shelf.new result }
    ensures changes { ChangesOne S.Shelf conversion.now.output.now shelf.old shelf.new }
    ensures faults { CountsFileAndShelf D.state S.state file.old file.new shelf.old shelf.new result }
    ensures reads { OnlyReadsFile D.Disk file.old file.new }
    ensures changed { FindsChanged D.state (λ e. e.frames) file.old result }
    ensures asked { AsksToFill D.state file.old file.new }
    ensures unasked { (S.state shelf.new).asked ≡ (S.state shelf.old).asked }
{
    let mut disk = take_output(conversion.output, shelf)?;
    let made = make(alloc, file, &mut disk, plan, &conversion.rack, stages);
    shelf.give(conversion.output, disk);
    made
}

// Whether the head of what is made has no room for the data.
fn is_full<D: Disk>(plan: &Plan, file: &File<'_, D, Read>) -> bool
    requires fits { fit_refusal plan.now.kind plan.now.params ≡ None }
    requires working { (known_of file.now).broken ≡ None }
    ensures outlines { result ≡ is_full_by (planned_by plan.now) (known_of file.now).shape }
    ensures told { TellsFull D.state plan.now file.now result }
{
    let chunks = chunks_size(plan, file);
    let room = room_with(plan.kind, plan.params, chunks);
    exceeds_room(room, plan.kind, plan.params, u128::from(file.frames()))
}

// Makes what a plan makes of an open file, where the head has room for its data.
fn convert_good<'a, S: Shelf, D: Disk>(
    alloc: Global,
    conversion: &Conversion<'a>,
    plan: &Plan,
    file: &mut File<'_, D, Read>,
    shelf: &mut S,
    stages: &mut [Box<dyn Stage>],
) -> Result<Answer<'a>, Stop>
    requires is_in { (S.state shelf.old).out conversion.now.output.now ≡ false }
    requires unread { IsUnread (known_of file.old) }
    requires fits { fit_refusal plan.now.kind plan.now.params ≡ None }
    requires rack { FitsRack (items_of conversion.now.rack) (map (λ b. (stage b).kind) (take (length (items_of conversion.now.rack)) stages.old))
        (channels_of file.old) plan.now.params.channels }
    requires room { is_full_by (planned_by plan.now) (known_of file.old).shape ≡ false }
    ensures loan { loan_of file.new ≡ loan_of file.old }
    ensures done { DoesGood D.state S.state conversion.now plan.now file.old shelf.old shelf.new result }
    ensures changes { ChangesOne S.Shelf conversion.now.output.now shelf.old shelf.new }
    ensures faults { CountsFileAndShelf D.state S.state file.old file.new shelf.old shelf.new result }
    ensures changed { StaysTold D.state file.old result }
    ensures reads { OnlyReadsFile D.Disk file.old file.new }
    ensures asked { AsksToConvert D.state file.old file.new }
    ensures unasked { (S.state shelf.new).asked ≡ (S.state shelf.old).asked }
{
    let frames = file.frames();
    let bad = has_bad_block(file)?;
    if bad {
        return Ok(Answer::Refused(conversion.input, Refusal::BadBlock));
    }
    match make_under(alloc, conversion, plan, file, shelf, stages) {
        Ok(()) => Ok(Answer::Made(frames)),
        Err(stop) => Err(stop),
    }
}

// .. whether it has or not.
fn convert_as<'a, S: Shelf, D: Disk>(
    alloc: Global,
    conversion: &Conversion<'a>,
    plan: &Plan,
    file: &mut File<'_, D, Read>,
    shelf: &mut S,
    stages: &mut [Box<dyn Stage>],
) -> Result<Answer<'a>, Stop>
    requires is_in { (S.state shelf.old).out conversion.now.output.now ≡ false }
    requires unread { IsUnread (known_of file.old) }
    requires fits { fit_refusal plan.now.kind plan.now.params ≡ None }
    requires rack { FitsRack (items_of conversion.now.rack) (map (λ b. (stage b).kind) (take (length (items_of conversion.now.rack)) stages.old))
        (channels_of file.old) plan.now.params.channels }
    ensures loan { loan_of file.new ≡ loan_of file.old }
    ensures done { DoesBy D.state S.state conversion.now plan.now file.old shelf.old shelf.new result }
    ensures changes { ChangesOne S.Shelf conversion.now.output.now shelf.old shelf.new }
    ensures faults { CountsFileAndShelf D.state S.state file.old file.new shelf.old shelf.new result }
    ensures changed { StaysTold D.state file.old result }
    ensures reads { OnlyReadsFile D.Disk file.old file.new }
    ensures asked { AsksToConvert D.state file.old file.new }
    ensures unasked { (S.state shelf.new).asked ≡ (S.state shelf.old).asked }
{
    if is_full(plan, file) {
        return Ok(Answer::Refused(conversion.output, Refusal::ContainerFull));
    }
    convert_good(alloc, conversion, plan, file, shelf, stages)
}

// Converts an open file.
fn convert_file<'a, S: Shelf, D: Disk>(
    alloc: Global,
    conversion: &Conversion<'a>,
    kind: Kind,
    file: &mut File<'_, D, Read>,
    shelf: &mut S,
    stages: &mut [Box<dyn Stage>],
) -> Result<Answer<'a>, Stop>
    requires is_in { (S.state shelf.old).out conversion.now.output.now ≡ false }
    requires unread { IsUnread (known_of file.old) }
    ensures loan { loan_of file.new ≡ loan_of file.old }
    ensures done { Converts D.state S.state (map (λ b. (stage b).kind) stages.old) conversion.now kind file.old shelf.old shelf.new result }
    ensures changes { ChangesOne S.Shelf conversion.now.output.now shelf.old shelf.new }
    ensures faults { CountsFileAndShelf D.state S.state file.old file.new shelf.old shelf.new result }
    ensures changed { StaysTold D.state file.old result }
    ensures reads { OnlyReadsFile D.Disk file.old file.new }
    ensures asked { AsksToConvert D.state file.old file.new }
    ensures unasked { (S.state shelf.new).asked ≡ (S.state shelf.old).asked }
{
    let params = file.params();
    params.are_good();
    let channels = match take_boxes(&conversion.rack, params.channels, stages) {
        Ok(channels) => channels,
        Err(why) => return Ok(Answer::Refused(conversion.input, why)),
    };
    match plan_with(conversion, kind, channels, params) {
        Ok(plan) => convert_as(alloc, conversion, &plan, file, shelf, stages),
        Err(why) => Ok(Answer::Refused(conversion.output, Refusal::Open(why))),
    }
}

// .. the file on a disk, by its layout.
fn convert_laid<'a, S: Shelf, D: Disk>(
    alloc: Global,
    conversion: &Conversion<'a>,
    kind: Kind,
    disk: &mut D,
    layout: Layout,
    shelf: &mut S,
    stages: &mut [Box<dyn Stage>],
) -> Result<Answer<'a>, Stop>
    requires is_in { (S.state shelf.old).out conversion.now.output.now ≡ false }
    requires held { end layout layout.frames ≤ (D.state disk.old).size }
    requires room_ends { layout.start + room layout + 8 ≤ 2 ^ 63 }
    requires pieces_held { All (EndsIn (D.state disk.old).size) layout.pieces }
    ensures done { ConvertsLaid D.state S.state (map (λ b. (stage b).kind) stages.old) conversion.now kind disk.old layout shelf.old shelf.new result }
    ensures changes { ChangesOne S.Shelf conversion.now.output.now shelf.old shelf.new }
    ensures faults { CountsDiskAndShelf D.state S.state disk.old disk.new shelf.old shelf.new result }
    ensures changed { StaysToldOn D.state disk.old result }
    ensures reads { OnlyReadsOn D.state D.may_leave D.left_between disk.old disk.new }
    ensures asked { AsksToConvertLaid D.state layout disk.old disk.new }
    ensures unasked { (S.state shelf.new).asked ≡ (S.state shelf.old).asked }
{
    let mut file = match open_laid(alloc, disk, layout) {
        Ok(file) => file,
        Err((_, back)) => {
            let _ = back;
            return Err(Stop::Memory);
        }
    };
    let answer = convert_file(alloc, conversion, kind, &mut file, shelf, stages);
    let back = close_read(file);
    let _ = back;
    answer
}

/// Copies a sound file into another container or codec: see the README and the manual page for what a
/// conversion may ask. The output is made, or replaced, whole, with the input's frames, each number in the
/// width of the output's codec. Each other file is as before, whatever comes.
///
/// With a rack each frame first passes a box for each of its items, in their order, in the range of the input's
/// width: the first box of the item's kind that no item before took. These are started, and all boxes are dropped.
/// The output has the channels that the rack leaves.
///
/// From WAVE or RF64 into either of them the further chunks go with the frames: those with at most 65536
/// bytes, the first 240 of them, in their order and before the data. Into and from any other kind none go.
///
/// All that is refused is refused before the output is touched, in this order: `SameName`;
/// `UnknownSuffix` of the output; `MissingFile`, or why the input does not open; `NoSuchStage` of the input where the
/// rack has more items of a kind than there are boxes of it; `BadPlace` of the input where an item picks a sample that
/// the frames which reach it do not have; why the output's kind does not hold its parameters; `ContainerFull` where its
/// head, with the chunks, has no room for the data, or the count of an ADPCM WAVE file for the frames; `BadBlock` of
/// the input.
///
/// `Fault` where a call of the shelf or of a disk failed, and `Memory` where there is none: then the output
/// may stand there in part. So it is with `Changed`, where the input has changed since its blocks were seen to
/// be good; it never comes where the shelf tells its files. No more bytes are asked than twice the input has,
/// and 49152; of an input of ADPCM, eight times these bytes and 114688.
pub fn convert<'a, S: Shelf>(
    alloc: Global,
    conversion: &Conversion<'a>,
    shelf: &mut S,
    stages: Vec<Box<dyn Stage>>,
) -> Result<Answer<'a>, Stop>
    requires back { IsAllIn (S.state shelf.old) }
    ensures done { Does S.state (converted (map (λ b. (stage b).kind) stages.items) (asked_of conversion.now)) shelf.old shelf.new result }
    ensures changes { ChangesOne S.Shelf conversion.now.output.now shelf.old shelf.new }
    ensures faults { CountsStop (S.state shelf.old).faults (S.state shelf.new).faults result }
    ensures changed { NeverChanged S.state shelf.old result }
    ensures asked { AsksForFiles S.state (conversion.now.input.now ∷ []) shelf.old shelf.new }
{
    if conversion.input == conversion.output {
        return Ok(Answer::Refused(conversion.output, Refusal::SameName));
    }
    let Some(kind) = kind_by_suffix(conversion.output) else {
        return Ok(Answer::Refused(conversion.output, Refusal::UnknownSuffix));
    };
    let input = match open_input(alloc, conversion.input, shelf)? {
        Ok(input) => input,
        Err(why) => return Ok(Answer::Refused(conversion.input, why)),
    };
    let Input { mut disk, layout } = input;
    let mut stages = stages;
    let boxes = stages.as_mut_slice();
    let answer = convert_laid(alloc, conversion, kind, &mut disk, layout, shelf, boxes);
    shelf.give(conversion.input, disk);
    answer
}

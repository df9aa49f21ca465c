//! The tool that makes a sound file of what is left in another.

ghost use Rattle.std.specs.Prelude.{◌≡◌, ◌+◌, ◌*◌, ◌^◌, ◌≤◌, All, None, false};
ghost use Rattle.snd_disk.specs.Device.{AsksAtMost, OnlyReadsOn};
ghost use Rattle.snd_inputs.specs.Copying.{AsksToCopy, CountsDiskAndShelf, CountsFileAndShelf, OnlyReadsFile, bytes_to_copy};
ghost use Rattle.snd_inputs.specs.Opening.{IsUnread};
ghost use Rattle.snd_layout.specs.Blocks.{is_adpcm};
ghost use Rattle.snd_layout.specs.Fit.{fit_refusal};
ghost use Rattle.snd_layout.specs.Opened.{EndsIn};
ghost use Rattle.snd_layout.specs.Shape.{end, room};
ghost use Rattle.snd_layout.specs.declared.kind.Kind.TheVariants.{Wave};
ghost use Rattle.snd_file.specs.Handle.{codec_of, known_of, loan_of};
ghost use Rattle.snd_output.specs.Ends.{CountsStop, IsUnchanged};
ghost use Rattle.snd_tools.specs.Shelves.{ChangesOne, Does, IsAllIn};
ghost use Rattle.snd_salvage.specs.Making.{AsksToSalvage, DoesDisk, DoesFile, DoesLaid};
ghost use Rattle.snd_salvage.specs.Salvage.{salvaged};

use crate::make::make_under;
use snd_disk::{Disk, Shelf, ShelfFault};
use snd_edits::Read;
use snd_file::File;
use snd_inputs::{close_read, is_full, params_of};
use snd_layout::{Kind, Layout, OpenError};
use snd_lines::Refusal;
use snd_opening::open_laid;
use snd_output::Stop;
use snd_search::find_sound;
use snd_tools::Answer;
use std::alloc::Global;

/// What the words of `salvage` ask for.
#[derive(Clone, Copy, Debug, PartialEq, Eq)]
pub struct Salvaging<'a> {
    pub input: &'a str,
    pub output: &'a str,
}

// Makes the output of an open file, where the head has room for its frames.
fn salvage_file<'a, S: Shelf, D: Disk>(
    alloc: Global,
    output: &'a str,
    file: &mut File<'_, D, Read>,
    shelf: &mut S,
) -> Result<Answer<'a>, Stop>
    requires is_in { (S.state shelf.old).out output.now ≡ false }
    requires unread { IsUnread (known_of file.old) }
    requires is_fixed { is_adpcm (codec_of file.old) ≡ false }
    requires fits { fit_refusal Wave (known_of file.old).shape.params ≡ None }
    ensures loan { loan_of file.new ≡ loan_of file.old }
    ensures done { DoesFile D.state S.state output.now file.old shelf.old shelf.new result }
    ensures changes { ChangesOne S.Shelf output.now shelf.old shelf.new }
    ensures faults { CountsFileAndShelf D.state S.state file.old file.new shelf.old shelf.new result }
    ensures unchanged { IsUnchanged result }
    ensures reads { OnlyReadsFile D.Disk file.old file.new }
    ensures asked { AsksToCopy D.state 0 file.old file.new }
    ensures unasked { (S.state shelf.new).asked ≡ (S.state shelf.old).asked }
{
    let params = params_of(file);
    let frames = file.frames();
    if is_full(Kind::Wave, params, u128::from(frames)) {
        return Ok(Answer::Refused(output, Refusal::ContainerFull));
    }
    match make_under(alloc, output, file, shelf) {
        Ok(()) => Ok(Answer::Made(frames)),
        Err(stop) => Err(stop),
    }
}

// .. the file on a disk, by its layout.
fn salvage_laid<'a, S: Shelf, D: Disk>(
    alloc: Global,
    output: &'a str,
    disk: &mut D,
    layout: Layout,
    shelf: &mut S,
) -> Result<Answer<'a>, Stop>
    requires is_in { (S.state shelf.old).out output.now ≡ false }
    requires is_fixed { is_adpcm layout.params.codec ≡ false }
    requires held { end layout layout.frames ≤ (D.state disk.old).size }
    requires room_ends { layout.start + room layout + 8 ≤ 2 ^ 63 }
    requires pieces_held { All (EndsIn (D.state disk.old).size) layout.pieces }
    requires is_wave { layout.kind ≡ Wave }
    ensures done { DoesLaid D.state S.state output.now disk.old layout shelf.old shelf.new result }
    ensures changes { ChangesOne S.Shelf output.now shelf.old shelf.new }
    ensures faults { CountsDiskAndShelf D.state S.state disk.old disk.new shelf.old shelf.new result }
    ensures unchanged { IsUnchanged result }
    ensures reads { OnlyReadsOn D.state D.may_leave D.left_between disk.old disk.new }
    ensures asked { AsksAtMost D.state (0 + bytes_to_copy layout.params layout.frames) disk.old disk.new }
    ensures unasked { (S.state shelf.new).asked ≡ (S.state shelf.old).asked }
{
    layout.keeps_rule();
    let mut file = match open_laid(alloc, disk, layout) {
        Ok(file) => file,
        Err((_, back)) => {
            let _ = back;
            return Err(Stop::Memory);
        }
    };
    let answer = salvage_file(alloc, output, &mut file, shelf);
    let back = close_read(file);
    let _ = back;
    answer
}

// .. what is found on a disk.
fn salvage_disk<'a, S: Shelf, D: Disk>(
    alloc: Global,
    salvaging: &Salvaging<'a>,
    disk: &mut D,
    shelf: &mut S,
) -> Result<Answer<'a>, Stop>
    requires is_in { (S.state shelf.old).out salvaging.now.output.now ≡ false }
    ensures done { DoesDisk D.state S.state salvaging.now.input.now salvaging.now.output.now disk.old shelf.old shelf.new result }
    ensures changes { ChangesOne S.Shelf salvaging.now.output.now shelf.old shelf.new }
    ensures faults { CountsDiskAndShelf D.state S.state disk.old disk.new shelf.old shelf.new result }
    ensures unchanged { IsUnchanged result }
    ensures reads { OnlyReadsOn D.state D.may_leave D.left_between disk.old disk.new }
    ensures asked { AsksAtMost D.state (20 * (D.state disk.old).size + 16384) disk.old disk.new }
    ensures unasked { (S.state shelf.new).asked ≡ (S.state shelf.old).asked }
{
    match find_sound(alloc, disk) {
        Ok(layout) => {
            layout.params.are_good();
            salvage_laid(alloc, salvaging.output, disk, layout, shelf)
        }
        Err(OpenError::Refused(why)) => Ok(Answer::Refused(salvaging.input, Refusal::Open(why))),
        Err(OpenError::Memory) => Err(Stop::Memory),
        Err(_) => Err(Stop::Fault),
    }
}

/// Makes a WAVE file, whatever its suffix is, of what is left in a file whose head was never filled in, or is damaged:
/// with the parameters that the first good format states, and the whole frames of all bytes behind the head of the
/// first data behind it. A format is good whose mark, a size of at least 16, and body of that size stand anywhere in the
/// file, and whose first 64 bytes state parameters and a codec that is not ADPCM. No other size is believed. The output
/// is made, or replaced, whole, and without further chunks. Each other file is as before, whatever comes.
///
/// All that is refused is refused before the output is touched, in this order: `SameName` of the output; `MissingFile`,
/// `NoFormat` or `NoData` of the input; and `ContainerFull` of the output where its head has no room for the data.
///
/// `Fault` where a call of the shelf or of a disk failed, and `Memory` where there is none: then the output may stand
/// there in part. No more bytes are asked than twenty times those of the input, and 16384.
pub fn salvage<'a, S: Shelf>(
    alloc: Global,
    salvaging: &Salvaging<'a>,
    shelf: &mut S,
) -> Result<Answer<'a>, Stop>
    requires back { IsAllIn (S.state shelf.old) }
    ensures done { Does S.state (salvaged salvaging.now.input.now salvaging.now.output.now) shelf.old shelf.new result }
    ensures changes { ChangesOne S.Shelf salvaging.now.output.now shelf.old shelf.new }
    ensures faults { CountsStop (S.state shelf.old).faults (S.state shelf.new).faults result }
    ensures unchanged { IsUnchanged result }
    ensures asked { AsksToSalvage S.state salvaging.now.input.now shelf.old shelf.new }
{
    let (input, output) = (salvaging.input, salvaging.output);
    if input == output {
        return Ok(Answer::Refused(output, Refusal::SameName));
    }
    let mut disk = match shelf.take(input, false) {
        Ok(disk) => disk,
        Err(ShelfFault::Missing) => return Ok(Answer::Refused(input, Refusal::MissingFile)),
        Err(ShelfFault::Failed) => return Err(Stop::Fault),
        Err(ShelfFault::Memory) => return Err(Stop::Memory),
    };
    let answer = salvage_disk(alloc, salvaging, &mut disk, shelf);
    shelf.give(input, disk);
    answer
}

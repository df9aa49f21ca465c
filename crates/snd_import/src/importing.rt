//! The tool that makes a sound file of a file of another form.

ghost use Rattle.std.specs.Prelude.{◌≡◌, ◌+◌, false};
ghost use Rattle.snd_disk.specs.Device.{AsksAtMost, OnlyReadsOn};
ghost use Rattle.snd_inputs.specs.Copying.{CountsDiskAndShelf};
ghost use Rattle.snd_output.specs.Ends.{CountsStop, IsUnchanged};
ghost use Rattle.snd_tools.specs.Shelves.{ChangesOne, Does, IsAllIn};
ghost use Rattle.snd_words.specs.Asked.{IsImport};
ghost use Rattle.snd_import.specs.Import.{bytes_in, imported};
ghost use Rattle.snd_import.specs.Making.{AsksOnce, DoesFile, DoesSource};
ghost use Rattle.snd_import.specs.Source.{IsHeld};

use crate::input::take_input;
use crate::making::make_under;
use crate::plan::params_for;
use crate::source::{Source, source_on};
use snd_disk::{Disk, Shelf};
use snd_inputs::is_full;
use snd_layout::Kind;
use snd_lines::Refusal;
use snd_output::Stop;
use snd_tools::Answer;
use snd_words::{Importation, kind_by_suffix};
use std::alloc::Global;

// Judges what a source becomes in a file of a kind, and makes it.
fn import_source<'a, S: Shelf, D: Disk>(
    alloc: Global,
    importation: &Importation<'a>,
    kind: Kind,
    source: &Source,
    from: &mut D,
    shelf: &mut S,
) -> Result<Answer<'a>, Stop>
    requires is_in { (S.state shelf.old).out importation.now.output.now ≡ false }
    requires held { IsHeld (D.state from.old).size source.now }
    ensures done { DoesSource D.state S.state importation.now kind source.now from.old shelf.old shelf.new result }
    ensures changes { ChangesOne S.Shelf importation.now.output.now shelf.old shelf.new }
    ensures faults { CountsDiskAndShelf D.state S.state from.old from.new shelf.old shelf.new result }
    ensures unchanged { IsUnchanged result }
    ensures reads { OnlyReadsOn D.state D.may_leave D.left_between from.old from.new }
    ensures asked { AsksAtMost D.state (bytes_in source.now.coding source.now.params source.now.frames) from.old from.new }
    ensures unasked { (S.state shelf.new).asked ≡ (S.state shelf.old).asked }
{
    let output = importation.output;
    let params = match params_for(kind, source.params) {
        Ok(params) => params,
        Err(why) => return Ok(Answer::Refused(output, Refusal::Open(why))),
    };
    if is_full(kind, params, u128::from(source.frames)) {
        return Ok(Answer::Refused(output, Refusal::ContainerFull));
    }
    match make_under(alloc, from, source, kind, params, output, shelf) {
        Ok(()) => Ok(Answer::Made(source.frames)),
        Err(stop) => Err(stop),
    }
}

// Judges the file on a disk, and makes a file of a kind of it.
fn import_file<'a, S: Shelf, D: Disk>(
    alloc: Global,
    importation: &Importation<'a>,
    kind: Kind,
    from: &mut D,
    shelf: &mut S,
) -> Result<Answer<'a>, Stop>
    requires is_in { (S.state shelf.old).out importation.now.output.now ≡ false }
    requires asked { IsImport importation.now.form }
    ensures done { DoesFile D.state S.state importation.now kind from.old shelf.old shelf.new result }
    ensures changes { ChangesOne S.Shelf importation.now.output.now shelf.old shelf.new }
    ensures faults { CountsDiskAndShelf D.state S.state from.old from.new shelf.old shelf.new result }
    ensures unchanged { IsUnchanged result }
    ensures reads { OnlyReadsOn D.state D.may_leave D.left_between from.old from.new }
    ensures asked { AsksAtMost D.state ((D.state from.old).size + 64) from.old from.new }
    ensures unasked { (S.state shelf.new).asked ≡ (S.state shelf.old).asked }
{
    match source_on(importation.form, from)? {
        Ok(source) => import_source(alloc, importation, kind, &source, from, shelf),
        Err(why) => Ok(Answer::Refused(importation.input, Refusal::Open(why))),
    }
}

/// Makes a sound file of a file without a head, of a PVF file, or of a VOX file: of the kind that the output's suffix
/// stands for, with the input's channels and rate, and with the codec of the same class that `convert` gives it where
/// no option is set. Samples without a head and those of PVF are the whole frames; bytes behind the last are left out.
/// Each byte of VOX is two frames of one channel in 16 bits. The output is made, or replaced, whole, and without
/// further chunks. Each other file is as before, whatever comes.
///
/// All that is refused is refused before the output is touched, in this order: `SameName`, and `UnknownSuffix`, of the
/// output; `MissingFile` of the input; of a file without a head and of VOX `BadChannels` and `BadRate` of the input,
/// by the words; of PVF why `read_head` refuses its head, of the input; `BadRate` and `BadPair` of the output, where
/// its kind does not hold the parameters; and `ContainerFull` of the output where its head has no room for the data.
///
/// `Fault` where a call of the shelf or of a disk failed, and `Memory` where there is none: then the output may stand
/// there in part. No more bytes are asked than the input has, and 64.
pub fn import<'a, S: Shelf>(
    alloc: Global,
    importation: &Importation<'a>,
    shelf: &mut S,
) -> Result<Answer<'a>, Stop>
    requires back { IsAllIn (S.state shelf.old) }
    requires asked { IsImport importation.now.form }
    ensures done { Does S.state (imported importation.now.form importation.now.input.now importation.now.output.now) shelf.old shelf.new result }
    ensures changes { ChangesOne S.Shelf importation.now.output.now shelf.old shelf.new }
    ensures faults { CountsStop (S.state shelf.old).faults (S.state shelf.new).faults result }
    ensures unchanged { IsUnchanged result }
    ensures asked { AsksOnce S.state importation.now.input.now shelf.old shelf.new }
{
    if importation.input == importation.output {
        return Ok(Answer::Refused(importation.output, Refusal::SameName));
    }
    let Some(kind) = kind_by_suffix(importation.output) else {
        return Ok(Answer::Refused(importation.output, Refusal::UnknownSuffix));
    };
    let mut disk = match take_input(importation.input, shelf)? {
        Some(disk) => disk,
        None => return Ok(Answer::Refused(importation.input, Refusal::MissingFile)),
    };
    let answer = import_file(alloc, importation, kind, &mut disk, shelf);
    shelf.give(importation.input, disk);
    answer
}

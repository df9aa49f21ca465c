//! A WAVE file that is made of an open file.

ghost use Rattle.std.specs.Prelude.{◌≡◌, OnOk, false};
ghost use Rattle.snd_disk.specs.Device.{GoesOnFrom};
ghost use Rattle.snd_inputs.specs.Copying.{AsksToCopy, CopiesInto, CountsFileAndDisk, CountsFileAndShelf, OnlyReadsFile};
ghost use Rattle.snd_inputs.specs.Opening.{IsUnread};
ghost use Rattle.snd_inputs.specs.Rooms.{is_full};
ghost use Rattle.snd_layout.specs.Blocks.{is_adpcm};
ghost use Rattle.snd_layout.specs.Fit.{fit_refusal};
ghost use Rattle.snd_layout.specs.declared.kind.Kind.TheVariants.{Wave};
ghost use Rattle.snd_file.specs.Handle.{codec_of, known_of, loan_of};
ghost use Rattle.snd_file.specs.Outcomes.{AsksNothing};
ghost use Rattle.snd_output.specs.Appended.{MayAppend};
ghost use Rattle.snd_output.specs.Ends.{IsUnchanged};
ghost use Rattle.snd_patch.specs.Steps.{StillTells};
ghost use Rattle.snd_tools.specs.Shelves.{ChangesOne};
ghost use Rattle.snd_salvage.specs.Making.{Fills, Makes, MakesUnder};

use snd_disk::{Disk, Shelf};
use snd_edits::{Read, Write};
use snd_file::File;
use snd_inputs::{params_of, take_output};
use snd_layout::Kind;
use snd_output::{Making, Stop, append, finish};
use std::alloc::Global;

/// The numbers that are held at once.
const BLOCK: usize = 16384;

// Puts all frames of an open file into one that was begun.
fn fill<D: Disk, E: Disk>(
    from: &mut File<'_, D, Read>,
    to: &mut File<'_, E, Write>,
) -> Result<(), Stop>
    requires unread { IsUnread (known_of from.old) }
    requires is_fixed { is_adpcm (codec_of from.old) ≡ false }
    requires alike { codec_of from.old ≡ codec_of to.old }
    requires may { MayAppend (known_of from.old) (known_of to.old) }
    ensures fills { OnOk result (Fills D.state E.state from.old to.old to.new) }
    ensures copies { CopiesInto D.Disk E.Disk from.old from.new to.old to.new result }
    ensures unchanged { IsUnchanged result }
    ensures asked { AsksToCopy D.state 0 from.old from.new }
    ensures unasked { AsksNothing E.state to.old to.new }
{
    // a block has places for a frame, which has 256 numbers at most
    params_of(from);
    let mut block = [0; BLOCK];
    append(from, to, &mut block)
}

// Makes the whole file.
fn make<D: Disk, E: Disk>(
    alloc: Global,
    from: &mut File<'_, D, Read>,
    disk: &mut E,
) -> Result<(), Stop>
    requires unread { IsUnread (known_of from.old) }
    requires is_fixed { is_adpcm (codec_of from.old) ≡ false }
    requires fits { fit_refusal Wave (known_of from.old).shape.params ≡ None }
    requires room { is_full Wave (known_of from.old).shape.params (known_of from.old).shape.frames ≡ false }
    ensures loan { loan_of from.new ≡ loan_of from.old }
    ensures made { OnOk result (Makes D.state E.state from.old disk.old disk.new) }
    ensures faults { CountsFileAndDisk D.state E.state from.old from.new disk.old disk.new result }
    ensures unchanged { IsUnchanged result }
    ensures reads { OnlyReadsFile D.Disk from.old from.new }
    ensures tells { StillTells (E.state disk.old) (E.state disk.new) }
    ensures time { GoesOnFrom E.state E.left_between disk.old disk.new }
    ensures asked { AsksToCopy D.state 0 from.old from.new }
    ensures unasked { (E.state disk.new).asked ≡ (E.state disk.old).asked }
{
    let params = params_of(from);
    let mut to = match Write::begin(alloc, disk, Kind::Wave, params) {
        Ok(to) => to,
        Err((stop, back)) => {
            let _ = back;
            return Err(stop);
        }
    };
    let filled = fill(from, &mut to);
    match finish(to) {
        Ok(back) => {
            let _ = back;
            filled
        }
        Err((stop, back)) => {
            let _ = back;
            Err(stop)
        }
    }
}

/// Makes the whole file, of all frames of an open one, under a name.
pub(crate) fn make_under<S: Shelf, D: Disk>(
    alloc: Global,
    output: &str,
    from: &mut File<'_, D, Read>,
    shelf: &mut S,
) -> Result<(), Stop>
    requires is_in { (S.state shelf.old).out output.now ≡ false }
    requires unread { IsUnread (known_of from.old) }
    requires is_fixed { is_adpcm (codec_of from.old) ≡ false }
    requires fits { fit_refusal Wave (known_of from.old).shape.params ≡ None }
    requires room { is_full Wave (known_of from.old).shape.params (known_of from.old).shape.frames ≡ false }
    ensures loan { loan_of from.new ≡ loan_of from.old }
    ensures made { MakesUnder D.state S.state output.now from.old shelf.old shelf.new result }
    ensures changes { ChangesOne S.Shelf output.now shelf.old shelf.new }
    ensures faults { CountsFileAndShelf D.state S.state from.old from.new shelf.old shelf.new result }
    ensures unchanged { IsUnchanged result }
    ensures reads { OnlyReadsFile D.Disk from.old from.new }
    ensures asked { AsksToCopy D.state 0 from.old from.new }
    ensures unasked { (S.state shelf.new).asked ≡ (S.state shelf.old).asked }
{
    let mut disk = take_output(output, shelf)?;
    let made = make(alloc, from, &mut disk);
    shelf.give(output, disk);
    made
}

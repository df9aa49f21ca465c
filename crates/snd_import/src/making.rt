//! A file that is made of what a disk holds.

ghost use Rattle.std.specs.Prelude.{◌≡◌, None, OnOk, false};
ghost use Rattle.snd_disk.specs.Device.{AsksAtMost, GoesOnFrom, OnlyReadsOn};
ghost use Rattle.snd_inputs.specs.Copying.{CountsDiskAndShelf};
ghost use Rattle.snd_inputs.specs.Rooms.{is_full};
ghost use Rattle.snd_layout.specs.Blocks.{is_adpcm};
ghost use Rattle.snd_layout.specs.Fit.{fit_refusal};
ghost use Rattle.snd_output.specs.Ends.{CountsOneOf, IsUnchanged};
ghost use Rattle.snd_patch.specs.Steps.{StillTells};
ghost use Rattle.snd_tools.specs.Shelves.{ChangesOne};
ghost use Rattle.snd_import.specs.Import.{bytes_in};
ghost use Rattle.snd_import.specs.Making.{Makes, MakesUnder};
ghost use Rattle.snd_import.specs.Source.{IsHeld};

use crate::filling::give_all;
use crate::source::Source;
use snd_disk::{Disk, Shelf};
use snd_edits::Write;
use snd_inputs::take_output;
use snd_layout::{Kind, Params};
use snd_output::{Making, Stop, finish};
use std::alloc::Global;

// Makes a file of a kind with these parameters, of all frames of a source.
fn make<D: Disk, E: Disk>(
    alloc: Global,
    from: &mut D,
    source: &Source,
    kind: Kind,
    params: Params,
    disk: &mut E,
) -> Result<(), Stop>
    requires held { IsHeld (D.state from.old).size source.now }
    requires fits { fit_refusal kind params ≡ None }
    requires alike { source.now.params.channels ≡ params.channels }
    requires fixed { is_adpcm params.codec ≡ false }
    requires room { is_full kind params source.now.frames ≡ false }
    ensures made { OnOk result (Makes D.state E.state kind params source.now from.old disk.old disk.new) }
    ensures faults { CountsOneOf (D.state from.old).faults (D.state from.new).faults (E.state disk.old).faults (E.state disk.new).faults result }
    ensures unchanged { IsUnchanged result }
    ensures reads { OnlyReadsOn D.state D.may_leave D.left_between from.old from.new }
    ensures tells { StillTells (E.state disk.old) (E.state disk.new) }
    ensures time { GoesOnFrom E.state E.left_between disk.old disk.new }
    ensures asked { AsksAtMost D.state (bytes_in source.now.coding source.now.params source.now.frames) from.old from.new }
    ensures unasked { (E.state disk.new).asked ≡ (E.state disk.old).asked }
{
    params.are_good();
    let mut to = match Write::begin(alloc, disk, kind, params) {
        Ok(to) => to,
        Err((stop, back)) => {
            let _ = back;
            return Err(stop);
        }
    };
    let given = give_all(from, source, &mut to);
    match finish(to) {
        Ok(back) => {
            let _ = back;
            given
        }
        Err((stop, back)) => {
            let _ = back;
            Err(stop)
        }
    }
}

/// Makes it under a name.
pub(crate) fn make_under<S: Shelf, D: Disk>(
    alloc: Global,
    from: &mut D,
    source: &Source,
    kind: Kind,
    params: Params,
    output: &str,
    shelf: &mut S,
) -> Result<(), Stop>
    requires is_in { (S.state shelf.old).out output.now ≡ false }
    requires held { IsHeld (D.state from.old).size source.now }
    requires fits { fit_refusal kind params ≡ None }
    requires alike { source.now.params.channels ≡ params.channels }
    requires fixed { is_adpcm params.codec ≡ false }
    requires room { is_full kind params source.now.frames ≡ false }
    ensures made { MakesUnder D.state S.state output.now kind params source.now from.old shelf.old shelf.new result }
    ensures changes { ChangesOne S.Shelf output.now shelf.old shelf.new }
    ensures faults { CountsDiskAndShelf D.state S.state from.old from.new shelf.old shelf.new result }
    ensures unchanged { IsUnchanged result }
    ensures reads { OnlyReadsOn D.state D.may_leave D.left_between from.old from.new }
    ensures asked { AsksAtMost D.state (bytes_in source.now.coding source.now.params source.now.frames) from.old from.new }
    ensures unasked { (S.state shelf.new).asked ≡ (S.state shelf.old).asked }
{
    let mut disk = take_output(output, shelf)?;
    let made = make(alloc, from, source, kind, params, &mut disk);
    shelf.give(output, disk);
    made
}

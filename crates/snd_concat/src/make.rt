//! A file that is made of others.

ghost use Rattle.std.specs.Prelude.{◌≡◌, All, None, false};
ghost use Rattle.snd_disk.specs.Device.{GoesOnFrom};
ghost use Rattle.snd_inputs.specs.Asking.{AsksForEach};
ghost use Rattle.snd_inputs.specs.Copying.{CountsDiskAndShelf};
ghost use Rattle.snd_inputs.specs.Looking.{ReadsFiles};
ghost use Rattle.snd_layout.specs.Blocks.{is_adpcm};
ghost use Rattle.snd_layout.specs.Fit.{fit_refusal};
ghost use Rattle.snd_output.specs.Ends.{CountsStop, IsUnchanged};
ghost use Rattle.snd_patch.specs.Steps.{StillTells};
ghost use Rattle.snd_tools.specs.Shelves.{ChangesOne, IsAllIn};
ghost use Rattle.snd_concat.specs.Making.{AllApart, Makes, MakesUnder, StayGood};

use crate::append::append_all;
use snd_disk::{Disk, Shelf};
use snd_edits::{Encode, Write};
use snd_inputs::{bare_room, see, take_output};
use snd_layout::{Kind, Params};
use snd_output::{Making, Stop, finish};
use snd_tools::Answer;
use snd_words::Names;
use std::alloc::Global;

/// The numbers that are held at once.
const BLOCK: usize = 16384;

// Makes a file of a kind with these parameters, of the frames of the files of all names, in a mode of its codec.
fn make_in<'a, S: Shelf, E: Disk, M: Making>(
    alloc: Global,
    names: &Names<'a>,
    kind: Kind,
    params: Params,
    shelf: &mut S,
    disk: &mut E,
) -> Result<Answer<'a>, Stop>
    requires are_in { All (λ n. (S.state shelf.old).out n ≡ false) names.now }
    requires fits { fit_refusal kind params ≡ None }
    requires codec { is_adpcm params.codec ≡ M.ENCODES }
    ensures made { Makes S.state E.state names.now kind params shelf.old disk.old disk.new result }
    ensures changed { StayGood S.state names.now shelf.old result }
    ensures faults { CountsDiskAndShelf E.state S.state disk.old disk.new shelf.old shelf.new result }
    ensures reads { ReadsFiles S.Shelf shelf.old shelf.new }
    ensures tells { StillTells (E.state disk.old) (E.state disk.new) }
    ensures time { GoesOnFrom E.state E.left_between disk.old disk.new }
    ensures asked { AsksForEach 1 16384 S.state names.now shelf.old shelf.new }
    ensures unasked { (E.state disk.new).asked ≡ (E.state disk.old).asked }
{
    params.are_good();
    let room = bare_room(kind, params);
    let mut to = match M::begin(alloc, disk, kind, params) {
        Ok(to) => to,
        Err((stop, back)) => {
            let _ = back;
            return Err(stop);
        }
    };
    let mut block = [0; BLOCK];
    let appended = append_all(alloc, names, shelf, &mut to, room, &mut block);
    match finish(to) {
        Ok(back) => {
            let _ = back;
            appended
        }
        Err((stop, back)) => {
            let _ = back;
            Err(stop)
        }
    }
}

// .. in that of its codec.
fn make<'a, S: Shelf, E: Disk>(
    alloc: Global,
    names: &Names<'a>,
    kind: Kind,
    params: Params,
    shelf: &mut S,
    disk: &mut E,
) -> Result<Answer<'a>, Stop>
    requires are_in { All (λ n. (S.state shelf.old).out n ≡ false) names.now }
    requires fits { fit_refusal kind params ≡ None }
    ensures made { Makes S.state E.state names.now kind params shelf.old disk.old disk.new result }
    ensures changed { StayGood S.state names.now shelf.old result }
    ensures faults { CountsDiskAndShelf E.state S.state disk.old disk.new shelf.old shelf.new result }
    ensures reads { ReadsFiles S.Shelf shelf.old shelf.new }
    ensures tells { StillTells (E.state disk.old) (E.state disk.new) }
    ensures time { GoesOnFrom E.state E.left_between disk.old disk.new }
    ensures asked { AsksForEach 1 16384 S.state names.now shelf.old shelf.new }
    ensures unasked { (E.state disk.new).asked ≡ (E.state disk.old).asked }
{
    if params.codec.is_adpcm() {
        make_in::<S, E, Encode>(alloc, names, kind, params, shelf, disk)
    } else {
        make_in::<S, E, Write>(alloc, names, kind, params, shelf, disk)
    }
}

// Sees that no input is the output under another spelling: a file that is taken out is not handed out again.
fn see_apart<S: Shelf>(names: &Names<'_>, shelf: &mut S) -> Result<(), Stop>
    requires are_in { All (λ n. (S.state shelf.old).out n ≡ false) names.now }
    ensures faults { CountsStop (S.state shelf.old).faults (S.state shelf.new).faults result }
    ensures unchanged { IsUnchanged result }
    ensures reads { ReadsFiles S.Shelf shelf.old shelf.new }
    ensures unasked { (S.state shelf.new).asked ≡ (S.state shelf.old).asked }
{
    for at in 0..names.len() {
        let Some(name) = names.get(at) else {
            unreachable!();
        };
        see(name, shelf)?;
    }
    Ok(())
}

// Makes it where no input is the output.
fn make_apart<'a, S: Shelf, E: Disk>(
    alloc: Global,
    names: &Names<'a>,
    kind: Kind,
    params: Params,
    shelf: &mut S,
    disk: &mut E,
) -> Result<Answer<'a>, Stop>
    requires are_in { All (λ n. (S.state shelf.old).out n ≡ false) names.now }
    requires fits { fit_refusal kind params ≡ None }
    ensures made { Makes S.state E.state names.now kind params shelf.old disk.old disk.new result }
    ensures changed { StayGood S.state names.now shelf.old result }
    ensures faults { CountsDiskAndShelf E.state S.state disk.old disk.new shelf.old shelf.new result }
    ensures reads { ReadsFiles S.Shelf shelf.old shelf.new }
    ensures tells { StillTells (E.state disk.old) (E.state disk.new) }
    ensures time { GoesOnFrom E.state E.left_between disk.old disk.new }
    ensures asked { AsksForEach 1 16384 S.state names.now shelf.old shelf.new }
    ensures unasked { (E.state disk.new).asked ≡ (E.state disk.old).asked }
{
    see_apart(names, shelf)?;
    make(alloc, names, kind, params, shelf, disk)
}

/// Makes it under a name that is none of these.
pub(crate) fn make_under<'a, S: Shelf>(
    alloc: Global,
    names: &Names<'a>,
    output: &str,
    kind: Kind,
    params: Params,
    shelf: &mut S,
) -> Result<Answer<'a>, Stop>
    requires back { IsAllIn (S.state shelf.old) }
    requires apart { AllApart output.now names.now }
    requires fits { fit_refusal kind params ≡ None }
    ensures made { MakesUnder S.state names.now output.now kind params shelf.old shelf.new result }
    ensures changed { StayGood S.state names.now shelf.old result }
    ensures changes { ChangesOne S.Shelf output.now shelf.old shelf.new }
    ensures faults { CountsStop (S.state shelf.old).faults (S.state shelf.new).faults result }
    ensures asked { AsksForEach 1 16384 S.state names.now shelf.old shelf.new }
{
    let mut disk = take_output(output, shelf)?;
    let made = make_apart(alloc, names, kind, params, shelf, &mut disk);
    shelf.give(output, disk);
    made
}

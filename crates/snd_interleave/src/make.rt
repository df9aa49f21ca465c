//! The file that is made of inputs.

ghost use Rattle.std.specs.Prelude.{◌≡◌, None, OnOk, false, length};
ghost use Rattle.snd_disk.specs.Device.{GoesOnFrom};
ghost use Rattle.snd_inputs.specs.Rooms.{is_full};
ghost use Rattle.snd_layout.specs.Blocks.{is_adpcm};
ghost use Rattle.snd_layout.specs.Fit.{fit_refusal};
ghost use Rattle.snd_patch.specs.Steps.{StillTells};
ghost use Rattle.snd_tools.specs.Shelves.{ChangesOne};
ghost use Rattle.snd_interleave.specs.Asking.{AsksOnce};
ghost use Rattle.snd_interleave.specs.Channels.{AreMono, CountsBeside, CountsMaking, Makes, MakesUnder, ReadAll, StayGood, layouts_of, most_frames};

use crate::blocks::add_frames;
use snd_disk::{Disk, Shelf};
use snd_edits::{Encode, Write};
use snd_inputs::{Input, take_output};
use snd_layout::{Kind, Params};
use snd_output::{Making, Stop, finish};
use std::alloc::Global;

// Makes the whole file of so many frames on a disk, in a mode of its codec.
fn make_in<D: Disk, E: Disk, M: Making>(
    alloc: Global,
    inputs: &mut [Input<D>],
    kind: Kind,
    params: Params,
    frames: u64,
    disk: &mut E,
) -> Result<(), Stop>
    requires mono { AreMono inputs.old }
    requires alike { params.channels ≡ length inputs.old }
    requires fits { fit_refusal kind params ≡ None }
    requires codec { is_adpcm params.codec ≡ M.ENCODES }
    requires all { frames ≡ most_frames (layouts_of inputs.old) }
    requires room { is_full kind params frames ≡ false }
    ensures made { OnOk result (Makes D.state E.state kind params inputs.old disk.old disk.new) }
    ensures faults { CountsMaking D.state E.state inputs.old inputs.new disk.old disk.new result }
    ensures changed { StayGood D.state inputs.old result }
    ensures reads { ReadAll D.Disk inputs.old inputs.new }
    ensures tells { StillTells (E.state disk.old) (E.state disk.new) }
    ensures time { GoesOnFrom E.state E.left_between disk.old disk.new }
    ensures asked { AsksOnce D.state inputs.old inputs.new }
    ensures unasked { (E.state disk.new).asked ≡ (E.state disk.old).asked }
{
    params.are_good();
    let mut to = match M::begin(alloc, disk, kind, params) {
        Ok(to) => to,
        Err((stop, back)) => {
            let _ = back;
            return Err(stop);
        }
    };
    let added = add_frames(alloc, inputs, &mut to, frames);
    match finish(to) {
        Ok(back) => {
            let _ = back;
            added
        }
        Err((stop, back)) => {
            let _ = back;
            Err(stop)
        }
    }
}

// .. in that of its codec.
fn make<D: Disk, E: Disk>(
    alloc: Global,
    inputs: &mut [Input<D>],
    kind: Kind,
    params: Params,
    frames: u64,
    disk: &mut E,
) -> Result<(), Stop>
    requires mono { AreMono inputs.old }
    requires alike { params.channels ≡ length inputs.old }
    requires fits { fit_refusal kind params ≡ None }
    requires all { frames ≡ most_frames (layouts_of inputs.old) }
    requires room { is_full kind params frames ≡ false }
    ensures made { OnOk result (Makes D.state E.state kind params inputs.old disk.old disk.new) }
    ensures faults { CountsMaking D.state E.state inputs.old inputs.new disk.old disk.new result }
    ensures changed { StayGood D.state inputs.old result }
    ensures reads { ReadAll D.Disk inputs.old inputs.new }
    ensures tells { StillTells (E.state disk.old) (E.state disk.new) }
    ensures time { GoesOnFrom E.state E.left_between disk.old disk.new }
    ensures asked { AsksOnce D.state inputs.old inputs.new }
    ensures unasked { (E.state disk.new).asked ≡ (E.state disk.old).asked }
{
    if params.codec.is_adpcm() {
        make_in::<D, E, Encode>(alloc, inputs, kind, params, frames, disk)
    } else {
        make_in::<D, E, Write>(alloc, inputs, kind, params, frames, disk)
    }
}

/// Makes it under a name. Its blocks stay out of the stack frames of the openings, one for each input.
#[inline(never)]
pub(crate) fn make_under<S: Shelf, D: Disk>(
    alloc: Global,
    inputs: &mut [Input<D>],
    kind: Kind,
    params: Params,
    frames: u64,
    name: &str,
    shelf: &mut S,
) -> Result<(), Stop>
    requires is_in { (S.state shelf.old).out name.now ≡ false }
    requires mono { AreMono inputs.old }
    requires alike { params.channels ≡ length inputs.old }
    requires fits { fit_refusal kind params ≡ None }
    requires all { frames ≡ most_frames (layouts_of inputs.old) }
    requires room { is_full kind params frames ≡ false }
    ensures made { MakesUnder D.state S.state name.now kind params inputs.old shelf.old shelf.new result }
    ensures changes { ChangesOne S.Shelf name.now shelf.old shelf.new }
    ensures faults { CountsBeside D.state S.state inputs.old inputs.new shelf.old shelf.new result }
    ensures changed { StayGood D.state inputs.old result }
    ensures reads { ReadAll D.Disk inputs.old inputs.new }
    ensures asked { AsksOnce D.state inputs.old inputs.new }
    ensures unasked { (S.state shelf.new).asked ≡ (S.state shelf.old).asked }
{
    let mut disk = take_output(name, shelf)?;
    let made = make(alloc, inputs, kind, params, frames, &mut disk);
    shelf.give(name, disk);
    made
}

//! The file that is made.

ghost use Rattle.std.specs.Prelude.{◌≡◌, ◌≤◌, OnOk, false, is_some};
ghost use Rattle.snd_disk.specs.Device.{GoesOnFrom, OnlyReadsOn};
ghost use Rattle.snd_frames.specs.Caching.{CachesIn};
ghost use Rattle.snd_inputs.specs.Copying.{CountsDiskAndShelf};
ghost use Rattle.snd_layout.specs.Blocks.{is_adpcm};
ghost use Rattle.snd_layout.specs.Shape.{end};
ghost use Rattle.snd_output.specs.Ends.{CountsStop, IsUnchanged};
ghost use Rattle.snd_patch.specs.Steps.{StillTells};
ghost use Rattle.snd_tools.specs.Shelves.{ChangesOne};
ghost use Rattle.snd_export.specs.Coding.{ChangedBad};
ghost use Rattle.snd_export.specs.Export.{has_too_many, is_too_long};
ghost use Rattle.snd_export.specs.Making.{AsksFrames, CountsDisks, IsEmptied, KeepsTold, Makes, MakesUnder};

use crate::blocks::{cache_for, put_behind, put_frames};
use crate::target::{codec_of, head_of, params_of, target_of};
use snd_blocks::BlockCache;
use snd_disk::{Disk, Failed, Shelf};
use snd_frames::keeps_rules;
use snd_inputs::take_output;
use snd_layout::Layout;
use snd_output::Stop;
use snd_words::ExportForm;
use std::alloc::Global;

// Takes all bytes from a disk. `Fault` where its call failed.
fn empty<E: Disk>(to: &mut E) -> Result<(), Stop>
    ensures emptied { OnOk result (IsEmptied E.state to.old to.new) }
    ensures faults { CountsStop (E.state to.old).faults (E.state to.new).faults result }
    ensures unchanged { IsUnchanged result }
    ensures tells { StillTells (E.state to.old) (E.state to.new) }
    ensures time { GoesOnFrom E.state E.left_between to.old to.new }
    ensures unasked { (E.state to.new).asked ≡ (E.state to.old).asked }
{
    match to.cut(0) {
        Ok(()) => Ok(()),
        Err(Failed) => Err(Stop::Fault),
    }
}

// Makes what a disk holds stable. `Fault` where its call failed.
fn settle<E: Disk>(to: &mut E) -> Result<(), Stop>
    ensures same { OnOk result (KeepsTold E.state to.old to.new) }
    ensures faults { CountsStop (E.state to.old).faults (E.state to.new).faults result }
    ensures unchanged { IsUnchanged result }
    ensures tells { StillTells (E.state to.old) (E.state to.new) }
    ensures time { GoesOnFrom E.state E.left_between to.old to.new }
    ensures unasked { (E.state to.new).asked ≡ (E.state to.old).asked }
{
    match to.sync() {
        Ok(()) => Ok(()),
        Err(Failed) => Err(Stop::Fault),
    }
}

// Makes the whole file on a disk.
fn make<D: Disk, E: Disk>(
    form: ExportForm,
    from: &mut D,
    layout: &Layout,
    to: &mut E,
    cache: &mut Option<Box<BlockCache>>,
) -> Result<(), Stop>
    requires blocks { is_some cache.old ≡ is_adpcm layout.now.params.codec }
    requires cached { CachesIn D.state from.old layout.now cache.old }
    requires held { end layout.now layout.now.frames ≤ (D.state from.old).size }
    requires mono { has_too_many form layout.now ≡ false }
    requires short { is_too_long form layout.now ≡ false }
    ensures made { OnOk result (Makes D.state E.state form layout.now from.old to.old to.new) }
    ensures faults { CountsDisks D.state E.state from.old from.new to.old to.new result }
    ensures changed { ChangedBad D.state from.old layout.now result }
    ensures reads { OnlyReadsOn D.state D.may_leave D.left_between from.old from.new }
    ensures tells { StillTells (E.state to.old) (E.state to.new) }
    ensures time { GoesOnFrom E.state E.left_between to.old to.new }
    ensures asked { AsksFrames D.state layout.now from.old from.new }
    ensures unasked { (E.state to.new).asked ≡ (E.state to.old).asked }
{
    keeps_rules(layout);
    let params = params_of(layout);
    let codec = codec_of(layout);
    let head = head_of(form, params);
    let target = target_of(form, codec);
    empty(to)?;
    put_behind(to, 0, &head)?;
    put_frames(from, layout, target, to, head.len() as u64, cache)?;
    settle(to)
}

/// Makes it under a name.
///
/// `Fault` where a call of the shelf or of a disk failed, `Changed` where the file that is read has a bad block, and
/// `Memory` where there is none.
pub(crate) fn make_under<S: Shelf, D: Disk>(
    alloc: Global,
    form: ExportForm,
    from: &mut D,
    layout: &Layout,
    name: &str,
    shelf: &mut S,
) -> Result<(), Stop>
    requires is_in { (S.state shelf.old).out name.now ≡ false }
    requires held { end layout.now layout.now.frames ≤ (D.state from.old).size }
    requires mono { has_too_many form layout.now ≡ false }
    requires short { is_too_long form layout.now ≡ false }
    ensures made { OnOk result (MakesUnder D.state S.state name.now form layout.now from.old shelf.old shelf.new) }
    ensures changes { ChangesOne S.Shelf name.now shelf.old shelf.new }
    ensures faults { CountsDiskAndShelf D.state S.state from.old from.new shelf.old shelf.new result }
    ensures changed { ChangedBad D.state from.old layout.now result }
    ensures reads { OnlyReadsOn D.state D.may_leave D.left_between from.old from.new }
    ensures asked { AsksFrames D.state layout.now from.old from.new }
    ensures unasked { (S.state shelf.new).asked ≡ (S.state shelf.old).asked }
{
    let codec = codec_of(layout);
    let mut cache = cache_for(alloc, codec)?;
    let mut disk = take_output(name, shelf)?;
    let made = make(form, from, layout, &mut disk, &mut cache);
    shelf.give(name, disk);
    made
}

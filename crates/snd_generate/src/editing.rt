//! The file as it is edited in place, with its head kept up to it.

ghost use Rattle.std.specs.Prelude.{◌≡◌, ◌<◌, ◌≤◌, None, OnOk, false, true};
ghost use Rattle.snd_disk.specs.Device.{GoesOnFrom};
ghost use Rattle.snd_edits.specs.Edits.{automatic_to, moved_write_to, truncated_to};
ghost use Rattle.snd_file.specs.Handle.{StandsAfter, known_of, loan_of};
ghost use Rattle.snd_output.specs.Ends.{CountsStop};
ghost use Rattle.snd_patch.specs.Steps.{StillTells};
ghost use Rattle.snd_generate.specs.Generating.{Edits};
ghost use Rattle.snd_generate.specs.Steps.{Calls, EditsFile, Overwrites};

use crate::writing::{CHANGED, stop_of, write};
use snd_disk::Disk;
use snd_edits::{AutoError, SeekError, ShrinkError, Update};
use snd_file::File;
use snd_opening::open_update;
use snd_output::Stop;
use std::alloc::Global;

// From now on each write brings the head up to the frames.
fn keep_up<E: Disk>(file: &mut File<'_, E, Update>) -> Result<(), Stop>
    requires working { (known_of file.old).broken ≡ None }
    ensures loan { loan_of file.new ≡ loan_of file.old }
    ensures stands { OnOk result (StandsAfter E.state file.old file.new (automatic_to true)) }
    ensures calls { Calls E.state E.left_between file.old file.new result }
{
    match file.set_auto(true) {
        Ok(_) => Ok(()),
        Err(AutoError::DiskFault(_)) => Err(Stop::Fault),
        Err(AutoError::Broken(_)) => unreachable!(),
        Err(AutoError::Straddle) => Err(CHANGED),
    }
}

// Makes a frame the one to write next.
fn seek<E: Disk>(file: &mut File<'_, E, Update>, place: u64) -> Result<(), Stop>
    requires working { (known_of file.old).broken ≡ None }
    ensures loan { loan_of file.new ≡ loan_of file.old }
    ensures within { OnOk result (place ≤ (known_of file.old).shape.frames) }
    ensures stands { OnOk result (StandsAfter E.state file.old file.new (moved_write_to place)) }
    ensures calls { Calls E.state E.left_between file.old file.new result }
{
    match file.seek_write(place) {
        Ok(()) => Ok(()),
        Err(SeekError::Broken(_)) => unreachable!(),
        Err(_) => Err(CHANGED),
    }
}

// Overwrites the first frame of the quarter i with (i, -i).
fn overwrite<E: Disk>(file: &mut File<'_, E, Update>, i: u8, frames: u64) -> Result<(), Stop>
    requires working { (known_of file.old).broken ≡ None }
    requires quarter { i < 4 }
    requires few { frames ≤ 10000000 }
    ensures loan { loan_of file.new ≡ loan_of file.old }
    ensures becomes { OnOk result (Overwrites E.state frames i file.old file.new) }
    ensures calls { Calls E.state E.left_between file.old file.new result }
{
    seek(file, u64::from(i) * frames / 4)?;
    let number = i32::from(i);
    write(file, &[number, -number])
}

// Cuts off the last eighth.
fn cut<E: Disk>(file: &mut File<'_, E, Update>, to: u64) -> Result<(), Stop>
    requires working { (known_of file.old).broken ≡ None }
    ensures loan { loan_of file.new ≡ loan_of file.old }
    ensures within { OnOk result (to ≤ (known_of file.old).shape.frames) }
    ensures stands { OnOk result (StandsAfter E.state file.old file.new (truncated_to to)) }
    ensures calls { Calls E.state E.left_between file.old file.new result }
{
    match file.truncate(to) {
        Ok(()) => Ok(()),
        Err(ShrinkError::DiskFault(_)) => Err(Stop::Fault),
        Err(ShrinkError::Broken(_)) => unreachable!(),
        Err(_) => Err(CHANGED),
    }
}

// Edits an open file of so many frames.
fn edit_file<E: Disk>(file: &mut File<'_, E, Update>, frames: u64) -> Result<(), Stop>
    requires working { (known_of file.old).broken ≡ None }
    requires few { frames ≤ 10000000 }
    ensures loan { loan_of file.new ≡ loan_of file.old }
    ensures becomes { OnOk result (EditsFile E.state frames file.old file.new) }
    ensures calls { Calls E.state E.left_between file.old file.new result }
{
    keep_up(file)?;
    for i in 0..4 {
        overwrite(file, i, frames)?;
    }
    cut(file, frames - frames / 8)
}

/// Edits the file of so many frames that stands on a disk.
pub(crate) fn edit<E: Disk>(alloc: Global, disk: &mut E, frames: u64) -> Result<(), Stop>
    requires few { frames ≤ 10000000 }
    ensures edited { OnOk result (Edits E.state frames disk.old disk.new) }
    ensures faults { CountsStop (E.state disk.old).faults (E.state disk.new).faults result }
    ensures tells { StillTells (E.state disk.old) (E.state disk.new) }
    ensures time { GoesOnFrom E.state E.left_between disk.old disk.new }
{
    let mut file = match open_update(alloc, disk) {
        Ok(file) => file,
        Err((error, back)) => {
            let _ = back;
            return Err(stop_of(error));
        }
    };
    let edited = edit_file(&mut file, frames);
    match file.close() {
        Ok(back) => {
            let _ = back;
            edited
        }
        Err((_, back)) => {
            let _ = back;
            Err(Stop::Fault)
        }
    }
}

//! Whether the blocks of files are good.

ghost use Rattle.std.specs.Prelude.{◌≡◌, ◌+◌, ◌≤◌, ◌^◌, ◌∷◌, [], All, None, OnOk, false};
ghost use Rattle.snd_disk.specs.Device.{AsksAtMost, IfOkTold, OnlyReadsOn};
ghost use Rattle.snd_layout.specs.Opened.{EndsIn};
ghost use Rattle.snd_layout.specs.Shape.{end, room};
ghost use Rattle.snd_edits.specs.Editing.{first_editing};
ghost use Rattle.snd_file.specs.Handle.{IfOkStanding, StandsAfter, known_of, loan_of};
ghost use Rattle.snd_output.specs.Ends.{CountsStop, IsUnchanged};
ghost use Rattle.snd_tools.specs.Shelves.{IsAllIn};
ghost use Rattle.snd_inputs.specs.Asking.{AsksForEach};
ghost use Rattle.snd_inputs.specs.Copying.{AsksToCheck, CountsFile, OnlyReadsFile, bytes_checked};
ghost use Rattle.snd_inputs.specs.Inputs.{is_bad};
ghost use Rattle.snd_inputs.specs.Looking.{FindsFirstBad, ReadsFiles, SeesBad};

use crate::input::Input;
use crate::opening::{close_read, open_input};
use snd_container::fixed_form;
use snd_disk::{Disk, Shelf};
use snd_edits::{Read, ReadError};
use snd_file::File;
use snd_layout::Layout;
use snd_opening::open_laid;
use snd_output::Stop;
use snd_words::Names;
use std::alloc::Global;

/// Whether a block of a file that is read is bad, which is so in ADPCM alone. It reads all of its blocks, and
/// nothing of a file of another codec; the frame to read next stays. It takes no memory.
///
/// The answer is `Fault` where a call of the disk failed.
pub fn has_bad_block<D: Disk>(file: &mut File<'_, D, Read>) -> Result<bool, Stop>
    requires { (known_of file.old).broken ≡ None }
    ensures loan { loan_of file.new ≡ loan_of file.old }
    ensures same { OnOk result (known_of file.new ≡ known_of file.old) }
    ensures found { IfOkStanding D.state file.old result (λ e bad. bad ≡ is_bad e) }
    ensures stands { StandsAfter D.state file.old file.new (λ e. e) }
    ensures faults { CountsFile D.state file.old file.new result }
    ensures unchanged { IsUnchanged result }
    ensures reads { OnlyReadsFile D.Disk file.old file.new }
    ensures asked { AsksToCheck D.state file.old file.new }
{
    let params = file.params();
    params.are_good();
    if fixed_form(params.codec).is_some() {
        return Ok(false);
    }
    match file.check_blocks() {
        Ok(()) => Ok(false),
        Err(ReadError::BadBlock) => Ok(true),
        Err(ReadError::DiskFault(_)) => Err(Stop::Fault),
        Err(_) => unreachable!(),
    }
}

/// Whether the file on a disk has one, by its layout, by which `open_laid` opens it.
pub fn check_laid<D: Disk>(alloc: Global, disk: &mut D, layout: Layout) -> Result<bool, Stop>
    requires held { end layout layout.frames ≤ (D.state disk.old).size }
    requires room_ends { layout.start + room layout + 8 ≤ 2 ^ 63 }
    requires pieces_held { All (EndsIn (D.state disk.old).size) layout.pieces }
    ensures found { IfOkTold D.state disk.old result (λ b bad. bad ≡ is_bad (first_editing b layout)) }
    ensures faults { CountsStop (D.state disk.old).faults (D.state disk.new).faults result }
    ensures unchanged { IsUnchanged result }
    ensures reads { OnlyReadsOn D.state D.may_leave D.left_between disk.old disk.new }
    ensures asked { AsksAtMost D.state (bytes_checked layout) disk.old disk.new }
{
    let mut file = match open_laid(alloc, disk, layout) {
        Ok(file) => file,
        Err((_, back)) => {
            let _ = back;
            return Err(Stop::Memory);
        }
    };
    let bad = has_bad_block(&mut file);
    let back = close_read(file);
    let _ = back;
    bad
}

// .. of the file of a name: not where it is not opened.
fn check_input<S: Shelf>(alloc: Global, name: &str, shelf: &mut S) -> Result<bool, Stop>
    requires { (S.state shelf.old).out name.now ≡ false }
    ensures found { SeesBad S.state name.now shelf.old result }
    ensures faults { CountsStop (S.state shelf.old).faults (S.state shelf.new).faults result }
    ensures unchanged { IsUnchanged result }
    ensures reads { ReadsFiles S.Shelf shelf.old shelf.new }
    ensures asked { AsksForEach 1 16384 S.state (name.now ∷ []) shelf.old shelf.new }
{
    let input = match open_input(alloc, name, shelf)? {
        Ok(input) => input,
        Err(_) => return Ok(false),
    };
    let Input { mut disk, layout } = input;
    let bad = check_laid(alloc, &mut disk, layout);
    shelf.give(name, disk);
    bad
}

/// The place of the first name whose file has a bad block. Each is opened anew, and of those of ADPCM all
/// blocks are read. The shelf has them back, as they were.
///
/// `Fault` where a call of the shelf or of a disk failed, and `Memory` where there is none.
pub fn first_bad<S: Shelf>(
    alloc: Global,
    names: &Names<'_>,
    shelf: &mut S,
) -> Result<Option<usize>, Stop>
    requires { IsAllIn (S.state shelf.old) }
    ensures found { FindsFirstBad S.state names.now shelf.old result }
    ensures faults { CountsStop (S.state shelf.old).faults (S.state shelf.new).faults result }
    ensures unchanged { IsUnchanged result }
    ensures reads { ReadsFiles S.Shelf shelf.old shelf.new }
    ensures asked { AsksForEach 1 16384 S.state names.now shelf.old shelf.new }
{
    for at in 0..names.len() {
        let Some(name) = names.get(at) else {
            unreachable!();
        };
        let bad = check_input(alloc, name, shelf)?;
        if bad {
            return Ok(Some(at));
        }
    }
    Ok(None)
}

//! How a file is opened to be read, and closed.

ghost use Rattle.std.specs.Prelude.{◌≡◌, false, is_none, true};
ghost use Rattle.snd_container.specs.Sound.{fixed_of};
ghost use Rattle.snd_disk.specs.Device.{AsksAtMost, OnlyReadsOn};
ghost use Rattle.snd_layout.specs.Params.{AreParams};
ghost use Rattle.snd_file.specs.Handle.{disk_of, known_of, loan_of};
ghost use Rattle.snd_output.specs.Ends.{CountsStop, IsUnchanged};
ghost use Rattle.snd_inputs.specs.Looking.{SeenReadable};
ghost use Rattle.snd_inputs.specs.Opening.{OpensInput};
ghost use Rattle.snd_inputs.specs.Seeing.{SeesDisk, SeesWithin};

use crate::input::Input;
use snd_container::open_layout;
use snd_disk::{Disk, Shelf, ShelfFault};
use snd_edits::{Mode, Read};
use snd_file::File;
use snd_layout::{Layout, OpenError, Params};
use snd_lines::Refusal;
use snd_output::Stop;
use std::alloc::Global;

// The layout of the file on a disk, as it is opened to be read, or why it is not.
fn layout_on<D: Disk>(alloc: Global, disk: &mut D) -> Result<Result<Layout, Refusal>, Stop>
    ensures seen { SeesDisk D.state disk.old result }
    ensures readable { SeenReadable result }
    ensures within { SeesWithin D.state disk.old result }
    ensures faults { CountsStop (D.state disk.old).faults (D.state disk.new).faults result }
    ensures unchanged { IsUnchanged result }
    ensures reads { OnlyReadsOn D.state D.may_leave D.left_between disk.old disk.new }
    ensures asked { AsksAtMost D.state 16384 disk.old disk.new }
{
    let layout = match open_layout(alloc, disk) {
        Ok(layout) => layout,
        Err(OpenError::Refused(why)) => return Ok(Err(Refusal::Open(why))),
        Err(OpenError::Memory) => return Err(Stop::Memory),
        Err(_) => return Err(Stop::Fault),
    };
    layout.keeps_rule();
    layout.params.are_good();
    Ok(Ok(layout))
}

/// Takes the file of a name out, and opens it to be read; or says why a tool refuses it, which is
/// `MissingFile` or why it is not opened. It asks at most 16384 bytes of it. Where it is not opened, the shelf
/// has it back, as it was.
///
/// `Fault` where a call of the shelf or of the disk failed, and `Memory` where there is none.
pub fn open_input<S: Shelf>(
    alloc: Global,
    name: &str,
    shelf: &mut S,
) -> Result<Result<Input<S::Disk>, Refusal>, Stop>
    requires { (S.state shelf.old).out name.now ≡ false }
    ensures opened { OpensInput S.Shelf S.Disk.Disk name.now shelf.old shelf.new result }
    ensures faults { CountsStop (S.state shelf.old).faults (S.state shelf.new).faults result }
    ensures unchanged { IsUnchanged result }
{
    let mut disk = match shelf.take(name, false) {
        Ok(disk) => disk,
        Err(ShelfFault::Missing) => return Ok(Err(Refusal::MissingFile)),
        Err(ShelfFault::Failed) => return Err(Stop::Fault),
        Err(ShelfFault::Memory) => return Err(Stop::Memory),
    };
    match layout_on(alloc, &mut disk) {
        Ok(Ok(layout)) => Ok(Ok(Input { disk, layout })),
        Ok(Err(why)) => {
            shelf.give(name, disk);
            Ok(Err(why))
        }
        Err(stop) => {
            shelf.give(name, disk);
            Err(stop)
        }
    }
}

/// The parameters of a file that is open: where it is written their codec is not ADPCM.
pub fn params_of<D: Disk, M: Mode>(file: &File<'_, D, M>) -> Params
    ensures params { result ≡ (known_of file.now).shape.params }
    ensures good { AreParams result }
    ensures linear { M.PLACES ≡ true → is_none (fixed_of result.codec) ≡ false }
{
    let params = file.params();
    params.are_good();
    params
}

/// Gives the disk back of a file that was read.
pub fn close_read<'d, D: Disk>(file: File<'d, D, Read>) -> &'d mut D
    ensures lends { result.ghost_name ≡ loan_of file.entry }
    ensures same_disk { result.now ≡ disk_of file.entry }
{
    match file.close() {
        Ok(disk) => disk,
        Err((_, disk)) => disk,
    }
}

//! The file that a tool makes.

ghost use Rattle.std.specs.Prelude.{◌≡◌, IfOk, OnErr, false, true};
ghost use Rattle.snd_disk.specs.Shelf.{KeepsBytes};
ghost use Rattle.snd_output.specs.Ends.{CountsStop, IsUnchanged};
ghost use Rattle.snd_tools.specs.Shelves.{ChangesOne};
ghost use Rattle.snd_inputs.specs.Opening.{IsHandedOut};

use snd_disk::{Shelf, ShelfFault};
use snd_output::Stop;

/// Takes the file of a name out to be made anew: an empty one where it was missing.
///
/// `Fault` where a call of the shelf failed, and `Memory` where there is none.
pub fn take_output<S: Shelf>(name: &str, shelf: &mut S) -> Result<S::Disk, Stop>
    requires { (S.state shelf.old).out name.now ≡ false }
    ensures out { IfOk result (IsHandedOut S.Shelf S.Disk.Disk name.now true shelf.old shelf.new) }
    ensures changes { OnErr result (ChangesOne S.Shelf name.now shelf.old shelf.new) }
    ensures faults { CountsStop (S.state shelf.old).faults (S.state shelf.new).faults result }
    ensures unchanged { IsUnchanged result }
    ensures bytes { KeepsBytes (S.state shelf.old) (S.state shelf.new) }
{
    match shelf.take(name, true) {
        Ok(disk) => Ok(disk),
        Err(ShelfFault::Failed) => Err(Stop::Fault),
        Err(ShelfFault::Memory) => Err(Stop::Memory),
        Err(ShelfFault::Missing) => unreachable!(),
    }
}

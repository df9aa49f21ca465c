//! The file that is imported.

ghost use Rattle.std.specs.Prelude.{◌≡◌, false};
ghost use Rattle.snd_disk.specs.Shelf.{KeepsBytes};
ghost use Rattle.snd_output.specs.Ends.{CountsStop, IsUnchanged};
ghost use Rattle.snd_import.specs.Making.{TakesInput};

use snd_disk::{Shelf, ShelfFault};
use snd_output::Stop;

/// Takes the file of a name out to be read, if it is there.
///
/// `Fault` where a call of the shelf failed, and `Memory` where there is none.
pub(crate) fn take_input<S: Shelf>(name: &str, shelf: &mut S) -> Result<Option<S::Disk>, Stop>
    requires { (S.state shelf.old).out name.now ≡ false }
    ensures taken { TakesInput S.Shelf S.Disk.Disk name.now shelf.old shelf.new result }
    ensures faults { CountsStop (S.state shelf.old).faults (S.state shelf.new).faults result }
    ensures unchanged { IsUnchanged result }
    ensures bytes { KeepsBytes (S.state shelf.old) (S.state shelf.new) }
{
    match shelf.take(name, false) {
        Ok(disk) => Ok(Some(disk)),
        Err(ShelfFault::Missing) => Ok(None),
        Err(ShelfFault::Failed) => Err(Stop::Fault),
        Err(ShelfFault::Memory) => Err(Stop::Memory),
    }
}

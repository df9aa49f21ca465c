//! The tool that makes and edits a large file.

ghost use Rattle.std.specs.Prelude.{◌≡◌, IfOk};
ghost use Rattle.snd_disk.specs.Device.{GoesOnFrom};
ghost use Rattle.snd_output.specs.Ends.{CountsStop};
ghost use Rattle.snd_patch.specs.Steps.{StillTells};
ghost use Rattle.snd_tools.specs.Shelves.{ChangesOne, IsAllIn};
ghost use Rattle.snd_generate.specs.Generating.{Generates, GeneratesOn, IsAsked};

use crate::editing::edit;
use crate::making::make;
use crate::summing::sum_up;
use snd_disk::{Disk, Shelf};
use snd_inputs::take_output;
use snd_output::Stop;
use snd_words::Generation;
use std::alloc::Global;

/// What is said of the file that was made.
#[derive(Clone, Copy, Debug, PartialEq, Eq)]
pub struct Summary {
    /// How many frames it has.
    pub frames: u64,
    /// The greatest magnitude of its samples.
    pub peak: u128,
    /// The sum of the squares of its samples.
    pub energy: u128,
}

// Makes and edits the file on a disk, and sums it up.
fn generate_on<E: Disk>(
    alloc: Global,
    generation: &Generation<'_>,
    disk: &mut E,
) -> Result<Summary, Stop>
    requires asked { IsAsked generation.now }
    ensures done { IfOk result (GeneratesOn E.state generation.now disk.old disk.new) }
    ensures faults { CountsStop (E.state disk.old).faults (E.state disk.new).faults result }
    ensures tells { StillTells (E.state disk.old) (E.state disk.new) }
    ensures time { GoesOnFrom E.state E.left_between disk.old disk.new }
{
    make(alloc, generation, disk)?;
    edit(alloc, disk, generation.frames)?;
    sum_up(alloc, disk)
}

/// Makes a WAVE file of 16 bits, two channels and 44100 frames a second, the same for each seed, whatever
/// stood under its name, and edits it in place with automatic updates. It is opened to be updated, its
/// frames i * N / 4, for i from 0 to 3 in this order, are overwritten with (i, -i), and of its N frames the
/// last N / 8 are cut off; both are rounded down. Then it is read whole, and the answer sums it up. Each
/// other file is as before, whatever comes. Nothing is refused.
///
/// `Fault` where a call of the shelf or of a disk failed, and `Memory` where there is none; then the file
/// may stand there in part. The answer is `Memory` too where the file that was made is not the one that is
/// opened again, since something else has changed it meanwhile: a shelf that tells its files keeps them.
pub fn generate<S: Shelf>(
    alloc: Global,
    generation: &Generation<'_>,
    shelf: &mut S,
) -> Result<Summary, Stop>
    requires back { IsAllIn (S.state shelf.old) }
    requires asked { IsAsked generation.now }
    ensures done { Generates S.state generation.now shelf.old shelf.new result }
    ensures changes { ChangesOne S.Shelf generation.now.name.now shelf.old shelf.new }
    ensures faults { CountsStop (S.state shelf.old).faults (S.state shelf.new).faults result }
{
    let mut disk = take_output(generation.name, shelf)?;
    let summary = generate_on(alloc, generation, &mut disk);
    shelf.give(generation.name, disk);
    summary
}

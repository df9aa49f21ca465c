//! The file as it is made.

ghost use Rattle.std.specs.Prelude.{◌≡◌, ◌<◌, ◌^◌, IfOk, None, OnOk, length};
ghost use Rattle.snd_disk.specs.Device.{GoesOnFrom};
ghost use Rattle.snd_file.specs.Handle.{known_of, loan_of};
ghost use Rattle.snd_output.specs.Ends.{CountsStop};
ghost use Rattle.snd_patch.specs.Steps.{StillTells};
ghost use Rattle.snd_generate.specs.Edited.{params};
ghost use Rattle.snd_generate.specs.Generating.{IsAsked, Makes, numbers_of};
ghost use Rattle.snd_generate.specs.Numbers.{state_after};
ghost use Rattle.snd_generate.specs.Steps.{Calls, Lengthens, LengthensBy};

use crate::numbers::fill;
use crate::writing::write;
use snd_disk::Disk;
use snd_edits::Write;
use snd_fields::Order;
use snd_file::File;
use snd_layout::{Codec, Kind, Params};
use snd_output::{Making, Stop, finish};
use snd_words::Generation;
use std::alloc::Global;

/// The numbers that are held at once.
pub(crate) const BLOCK: usize = 16384;

fn params() -> Params
    ensures { result ≡ params }
{
    Params {
        channels: 2,
        rate: 44_100,
        codec: Codec::S16(Order::Little),
    }
}

// Fills a block with the numbers behind a state, and writes them. The answer is the state of the last one.
fn write_block<E: Disk>(
    file: &mut File<'_, E, Write>,
    block: &mut [i32],
    state: u64,
) -> Result<u64, Stop>
    requires working { (known_of file.old).broken ≡ None }
    requires small { state < 2 ^ 32 }
    ensures loan { loan_of file.new ≡ loan_of file.old }
    ensures state { IfOk result (λ s. (s ≡ state_after (length block.old) state) × (s < 2 ^ 32)) }
    ensures lengthens { OnOk result (LengthensBy E.state (length block.old) state file.old file.new) }
    ensures calls { Calls E.state E.left_between file.old file.new result }
{
    let last = fill(block, state);
    write(file, block)?;
    Ok(last)
}

// Writes the numbers of all frames, a block at a time.
fn write_numbers<E: Disk>(
    file: &mut File<'_, E, Write>,
    generation: &Generation<'_>,
) -> Result<(), Stop>
    requires working { (known_of file.old).broken ≡ None }
    requires asked { IsAsked generation.now }
    ensures loan { loan_of file.new ≡ loan_of file.old }
    ensures lengthens { OnOk result (Lengthens E.state (numbers_of generation.now) file.old file.new) }
    ensures calls { Calls E.state E.left_between file.old file.new result }
{
    let mut block = [0; BLOCK];
    let mut state = generation.seed;
    let mut left = 2 * generation.frames as usize;
    while left > 0 {
        let count = left.min(BLOCK);
        state = write_block(file, &mut block[..count], state)?;
        left -= count;
    }
    Ok(())
}

/// Makes the file of the numbers behind a seed, whatever the disk held.
pub(crate) fn make<E: Disk>(
    alloc: Global,
    generation: &Generation<'_>,
    disk: &mut E,
) -> Result<(), Stop>
    requires asked { IsAsked generation.now }
    ensures made { OnOk result (Makes E.state generation.now disk.old disk.new) }
    ensures faults { CountsStop (E.state disk.old).faults (E.state disk.new).faults result }
    ensures tells { StillTells (E.state disk.old) (E.state disk.new) }
    ensures time { GoesOnFrom E.state E.left_between disk.old disk.new }
{
    let mut file = match Write::begin(alloc, disk, Kind::Wave, params()) {
        Ok(file) => file,
        Err((stop, back)) => {
            let _ = back;
            return Err(stop);
        }
    };
    let written = write_numbers(&mut file, generation);
    match finish(file) {
        Ok(back) => {
            let _ = back;
            written
        }
        Err((stop, back)) => {
            let _ = back;
            Err(stop)
        }
    }
}

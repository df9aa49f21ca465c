//! A file that is made of one channel of another.

ghost use Rattle.std.specs.Prelude.{◌≡◌, ◌<◌, None, OnOk};
ghost use Rattle.snd_disk.specs.Device.{GoesOnFrom};
ghost use Rattle.snd_inputs.specs.Copying.{AsksToCopy, CopiesInto, CountsFileAndDisk, OnlyReadsFile};
ghost use Rattle.snd_inputs.specs.Opening.{IsUnread};
ghost use Rattle.snd_layout.specs.Blocks.{is_adpcm};
ghost use Rattle.snd_edits.specs.Editing.{moved_to};
ghost use Rattle.snd_file.specs.Handle.{StandsAfter, channels_of, disk_of, known_of, loan_of};
ghost use Rattle.snd_file.specs.Outcomes.{AsksNothing};
ghost use Rattle.snd_output.specs.Appended.{FindsChanged};
ghost use Rattle.snd_patch.specs.Steps.{StillTells};
ghost use Rattle.snd_deinterleave.specs.Making.{IsRewound, Makes, MaySplit, known_at_first};
ghost use Rattle.snd_deinterleave.specs.Passing.{MayPut, TakesAll};

use crate::channel::append_left;
use snd_disk::Disk;
use snd_edits::{Encode, Read, Write};
use snd_file::File;
use snd_layout::{Kind, Params};
use snd_output::{Making, Stop, finish, numbers_of};
use std::alloc::Global;

// The numbers that are read at once.
const BLOCK: usize = 16384;

// Goes back to the first frame of a file that is read.
fn rewind<D: Disk>(from: &mut File<'_, D, Read>)
    requires { (known_of from.old).broken ≡ None }
    ensures loan { loan_of from.new ≡ loan_of from.old }
    ensures same_disk { disk_of from.new ≡ disk_of from.old }
    ensures known { known_of from.new ≡ known_at_first (known_of from.old) }
    ensures stands { StandsAfter D.state from.old from.new (moved_to 0) }
{
    match from.seek_read(0) {
        Ok(()) => {}
        Err(_) => unreachable!(),
    }
}

// Puts a channel of all frames there, and goes back to the first.
fn fill<D: Disk, E: Disk, M: Making>(
    from: &mut File<'_, D, Read>,
    to: &mut File<'_, E, M>,
    which: usize,
) -> Result<(), Stop>
    requires unread { IsUnread (known_of from.old) }
    requires may { MayPut which (known_of from.old) (known_of to.old) }
    ensures fills { OnOk result (TakesAll D.state E.state which from.old to.old to.new) }
    ensures rewound { OnOk result (IsRewound D.state from.old from.new) }
    ensures copies { CopiesInto D.Disk E.Disk from.old from.new to.old to.new result }
    ensures changed { FindsChanged D.state (λ e. e.frames) from.old result }
    ensures asked { AsksToCopy D.state 0 from.old from.new }
    ensures unasked { AsksNothing E.state to.old to.new }
{
    // the block has places for a frame, which has 256 numbers at most
    let params = from.params();
    params.are_good();
    let mut block = [0i32; BLOCK];
    let mut picked = [0i32; BLOCK];
    match append_left(from, to, which, &mut block, &mut picked) {
        Ok(()) => {
            rewind(from);
            Ok(())
        }
        Err(stop) => Err(stop),
    }
}

// Makes the whole file, in a mode of its codec.
fn make_in<D: Disk, E: Disk, M: Making>(
    alloc: Global,
    from: &mut File<'_, D, Read>,
    which: usize,
    kind: Kind,
    params: Params,
    disk: &mut E,
) -> Result<(), Stop>
    requires unread { IsUnread (known_of from.old) }
    requires within { which < channels_of from.old }
    requires split { MaySplit kind params (known_of from.old) }
    requires codec { is_adpcm params.codec ≡ M.ENCODES }
    ensures loan { loan_of from.new ≡ loan_of from.old }
    ensures made { OnOk result (Makes D.state E.state which kind params from.old disk.old disk.new) }
    ensures rewound { OnOk result (IsRewound D.state from.old from.new) }
    ensures faults { CountsFileAndDisk D.state E.state from.old from.new disk.old disk.new result }
    ensures reads { OnlyReadsFile D.Disk from.old from.new }
    ensures tells { StillTells (E.state disk.old) (E.state disk.new) }
    ensures time { GoesOnFrom E.state E.left_between disk.old disk.new }
    ensures changed { FindsChanged D.state (λ e. e.frames) from.old result }
    ensures asked { AsksToCopy D.state 0 from.old from.new }
    ensures unasked { (E.state disk.new).asked ≡ (E.state disk.old).asked }
{
    params.are_good();
    let mut to = match M::begin(alloc, disk, kind, params) {
        Ok(to) => to,
        Err((stop, back)) => {
            let _ = back;
            return Err(stop);
        }
    };
    numbers_of(&to);
    let filled = fill(from, &mut to, which);
    match finish(to) {
        Ok(back) => {
            let _ = back;
            filled
        }
        Err((stop, back)) => {
            let _ = back;
            Err(stop)
        }
    }
}

/// Makes the whole file of one channel, and goes back to the first frame of the one that is read. Its blocks stay out of
/// the stack frames of those who hold further outputs.
#[inline(never)]
pub(crate) fn make<D: Disk, E: Disk>(
    alloc: Global,
    from: &mut File<'_, D, Read>,
    which: usize,
    kind: Kind,
    params: Params,
    disk: &mut E,
) -> Result<(), Stop>
    requires unread { IsUnread (known_of from.old) }
    requires within { which < channels_of from.old }
    requires split { MaySplit kind params (known_of from.old) }
    ensures loan { loan_of from.new ≡ loan_of from.old }
    ensures made { OnOk result (Makes D.state E.state which kind params from.old disk.old disk.new) }
    ensures rewound { OnOk result (IsRewound D.state from.old from.new) }
    ensures faults { CountsFileAndDisk D.state E.state from.old from.new disk.old disk.new result }
    ensures reads { OnlyReadsFile D.Disk from.old from.new }
    ensures tells { StillTells (E.state disk.old) (E.state disk.new) }
    ensures time { GoesOnFrom E.state E.left_between disk.old disk.new }
    ensures changed { FindsChanged D.state (λ e. e.frames) from.old result }
    ensures asked { AsksToCopy D.state 0 from.old from.new }
    ensures unasked { (E.state disk.new).asked ≡ (E.state disk.old).asked }
{
    if params.codec.is_adpcm() {
        make_in::<D, E, Encode>(alloc, from, which, kind, params, disk)
    } else {
        make_in::<D, E, Write>(alloc, from, which, kind, params, disk)
    }
}

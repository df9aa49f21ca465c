//! The file as it is read and summed up.

ghost use Rattle.std.specs.Prelude.{◌≡◌, ◌≤◌, ◌%◌, IfOk, None, length};
ghost use Rattle.snd_disk.specs.Device.{OnlyReadsOn};
ghost use Rattle.snd_inputs.specs.Copying.{CountsFile, OnlyReadsFile};
ghost use Rattle.snd_edits.specs.Editing.{moved_by};
ghost use Rattle.snd_file.specs.Handle.{StandsAfter, channels_of, known_of, loan_of};
ghost use Rattle.snd_output.specs.Ends.{CountsStop};
ghost use Rattle.snd_pcm.specs.Groups.{groups};
ghost use Rattle.snd_generate.specs.Generating.{SumsUp};
ghost use Rattle.snd_generate.specs.Steps.{FedOn, FeedsNext, IsBrokenBy, IsReadBy, SumsFrames};

use crate::generating::Summary;
use crate::making::BLOCK;
use crate::writing::{CHANGED, stop_of};
use snd_disk::Disk;
use snd_edits::{Read, ReadError};
use snd_file::File;
use snd_opening::open_read;
use snd_output::Stop;
use snd_taps::{Energy, Peak, Tap, feed_all_of};
use std::alloc::Global;

/// What sums up the frames that are read.
#[derive(Drop)]
struct Meters {
    peak: Peak,
    energy: Energy,
}

impl Meters {
    // Takes frames into account.
    fn feed(&mut self, channels: usize, numbers: &[i32])
        ensures { FedOn (groups channels numbers.now) self.old self.new }
    {
        feed_all_of(&mut self.peak, channels, numbers);
        feed_all_of(&mut self.energy, channels, numbers);
    }
}

// Reads as many frames as a block has places for, fewer only at the end, and feeds them. The answer is how
// many.
fn feed_block<E: Disk>(
    file: &mut File<'_, E, Read>,
    block: &mut [i32],
    meters: &mut Meters,
) -> Result<usize, Stop>
    requires working { (known_of file.old).broken ≡ None }
    requires whole { length block.old % channels_of file.old ≡ 0 }
    ensures loan { loan_of file.new ≡ loan_of file.old }
    ensures left { IfOk result (IsReadBy (length block.old) (known_of file.old) (known_of file.new)) }
    ensures stands { IfOk result (λ k. StandsAfter E.state file.old file.new (moved_by k)) }
    ensures fed { IfOk result (λ k. FeedsNext E.state k file.old meters.old meters.new) }
    ensures broken { IsBrokenBy result (known_of file.new).broken }
    ensures faults { CountsFile E.state file.old file.new result }
    ensures reads { OnlyReadsFile E.Disk file.old file.new }
{
    let params = file.params();
    params.are_good();
    let channels = usize::from(params.channels);
    match file.read_frames(block) {
        Ok(count) => {
            meters.feed(channels, &block[..count * channels]);
            Ok(count)
        }
        Err(ReadError::DiskFault(_)) => Err(Stop::Fault),
        Err(ReadError::BadBlock) => Err(CHANGED),
        Err(ReadError::Broken(_) | ReadError::PartFrame) => unreachable!(),
    }
}

// Sums up all frames of a file, a block at a time.
fn sum_frames<E: Disk>(file: &mut File<'_, E, Read>) -> Result<Summary, Stop>
    requires working { (known_of file.old).broken ≡ None }
    requires first { (known_of file.old).place ≡ 0 }
    ensures loan { loan_of file.new ≡ loan_of file.old }
    ensures sums { IfOk result (SumsFrames E.state file.old) }
    ensures broken { IsBrokenBy result (known_of file.new).broken }
    ensures faults { CountsFile E.state file.old file.new result }
    ensures reads { OnlyReadsFile E.Disk file.old file.new }
{
    let params = file.params();
    params.are_good();
    let mut block = [0; BLOCK];
    let places = BLOCK - BLOCK % usize::from(params.channels);
    let mut meters = Meters {
        peak: Peak::new(),
        energy: Energy::new(),
    };
    let mut count = 1;
    while count > 0 {
        count = feed_block(file, &mut block[..places], &mut meters)?;
    }
    Ok(Summary {
        frames: file.frames(),
        peak: meters.peak.report().value,
        energy: meters.energy.report().value,
    })
}

/// Sums up the file that stands on a disk.
pub(crate) fn sum_up<E: Disk>(alloc: Global, disk: &mut E) -> Result<Summary, Stop>
    ensures sums { IfOk result (SumsUp E.state disk.old) }
    ensures faults { CountsStop (E.state disk.old).faults (E.state disk.new).faults result }
    ensures reads { OnlyReadsOn E.state E.may_leave E.left_between disk.old disk.new }
{
    let mut file = match open_read(alloc, disk) {
        Ok(file) => file,
        Err((error, back)) => {
            let _ = back;
            return Err(stop_of(error));
        }
    };
    let summary = sum_frames(&mut file);
    match file.close() {
        Ok(back) => {
            let _ = back;
            summary
        }
        Err((_, back)) => {
            let _ = back;
            Err(Stop::Fault)
        }
    }
}

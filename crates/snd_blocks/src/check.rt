//! All blocks of a file, read to see whether one is bad.

ghost use Rattle.std.specs.Prelude.{◌≡◌, ◌+◌, ◌-◌, ◌*◌, ◌/◌, ◌<◌, ◌≤◌, List, false, true, ℕ};
ghost use Rattle.std.specs.Result.{IsErrOf};
ghost use Rattle.snd_disk.specs.Device.{AsksAtMost, IfOkTold, OnlyReadsOn, Tells};
ghost use Rattle.snd_layout.specs.Blocks.{block_align, block_frames, is_adpcm};
ghost use Rattle.snd_layout.specs.Params.{data_bytes};
ghost use Rattle.snd_layout.specs.Shape.{end};
ghost use Rattle.snd_blocks.specs.Calls.{CountsFaultOn};
ghost use Rattle.snd_blocks.specs.Frames.{frames_in_blocks, has_bad};

use crate::block::{check_block, frames_of, keeps_blocks};
use crate::buffer::MOST_BYTES;
use crate::error::BlockError;
use snd_disk::Disk;
use snd_layout::Layout;

// How many blocks have counted frames.
pub(crate) fn block_count(layout: &Layout) -> u64
    requires { is_adpcm layout.now.params.codec ≡ true }
    ensures { result ≡ (layout.now.frames + block_frames layout.now.params.codec - 1) / block_frames layout.now.params.codec }
{
    keeps_blocks(layout);
    layout.frames.div_ceil(u64::from(frames_of(layout)))
}

/// Reads all blocks of an ADPCM file that have counted frames, to see whether one is bad. None is decoded.
///
/// The answer is `BadBlock` where one of them has a bad head, and `DiskFault` where a call of the disk
/// failed first.
pub fn check_blocks<D: Disk>(disk: &mut D, layout: &Layout) -> Result<(), BlockError>
    requires blocks { is_adpcm layout.now.params.codec ≡ true }
    requires held { end layout.now layout.now.frames ≤ (D.state disk.old).size }
    ensures good { IfOkTold D.state disk.old result (λ b _. has_bad (frames_in_blocks b layout.now) ≡ false) }
    ensures bad { IsErrOf result BlockError.BadBlock → (b : List ℕ) → Tells D.state disk.old b → has_bad (frames_in_blocks b layout.now) ≡ true }
    ensures faults { CountsFaultOn D.state disk.old disk.new result }
    ensures reads { OnlyReadsOn D.state D.may_leave D.left_between disk.old disk.new }
    ensures asked { AsksAtMost D.state (data_bytes layout.now.params layout.now.frames) disk.old disk.new }
{
    keeps_blocks(layout);
    let mut block = [0; MOST_BYTES];
    for number in 0..block_count(layout) {
        check_block(disk, layout, number, &mut block)?;
    }
    Ok(())
}

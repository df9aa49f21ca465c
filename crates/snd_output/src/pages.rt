//! How a file is given frames so that its pages are written whole.

ghost use Rattle.std.specs.Prelude.{◌≡◌, ◌≤◌, false};
ghost use Rattle.snd_layout.specs.Blocks.{is_adpcm};
ghost use Rattle.snd_file.specs.Handle.{codec_of, known_of};
ghost use Rattle.snd_output.specs.Pages.{frames_first};

use snd_disk::Disk;
use snd_edits::Mode;
use snd_file::File;

/// The bytes of a page, by which systems keep files in memory: one that two calls write a part of each costs more.
const PAGE: u64 = 4096;

/// How many of at most so many frames are best put behind those of a file first: fewer by the frames that its data
/// go into a page. Then this write and later ones of the most end where a page does, or less than a frame before
/// it, where the most frames are whole pages.
pub fn frames_first<D: Disk, M: Mode>(to: &File<'_, D, M>, most: usize) -> usize
    requires some { 1 ≤ most }
    requires fixed { is_adpcm (codec_of to.now) ≡ false }
    ensures { result ≡ frames_first (known_of to.now).shape most }
{
    let params = to.params();
    params.are_good();
    let align = u64::from(params.block_align());
    let begun = (to.data_end() % PAGE).div_ceil(align);
    most.saturating_sub(begun as usize).max(1)
}

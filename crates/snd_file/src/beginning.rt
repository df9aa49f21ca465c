//! A handle at its first frame.

ghost use Rattle.std.specs.Prelude.{◌≡◌, ◌+◌, ◌≤◌, ◌^◌, List, ℕ, All, false, is_none, is_some, true};
ghost use Rattle.snd_disk.specs.Device.{Tells};
ghost use Rattle.snd_layout.specs.Opened.{EndsIn};
ghost use Rattle.snd_layout.specs.Shape.{end, room};
ghost use Rattle.snd_container.specs.Sound.{fixed_of};
ghost use Rattle.snd_layout.specs.Blocks.{is_adpcm};
ghost use Rattle.snd_frames.specs.Caching.{IsEmpty};
ghost use Rattle.snd_edits.specs.Editing.{first_editing};
ghost use Rattle.snd_edits.specs.Known.{IsFresh};
ghost use Rattle.snd_edits.specs.Pacing.{BeginsIn};
ghost use Rattle.snd_file.specs.Handle.{Stands, disk_of, known_of, loan_of};
ghost use Rattle.snd_file.specs.Heads.{HasHead};

use crate::handle::File;
use snd_block_writer::BlockWriter;
use snd_blocks::BlockCache;
use snd_disk::Disk;
use snd_edits::Mode;
use snd_frames::{BLOCK_BYTES, keeps_rules};
use snd_layout::Layout;
use std::marker::PhantomData;

/// A handle of a file that was opened or made, at its first frame: of a disk that holds the data of the frames that its layout
/// counts. Files of ADPCM come with what reads their blocks, empty, or with what makes them.
pub fn at_first_frame<'d, D: Disk, M: Mode>(
    disk: &'d mut D,
    layout: Layout,
    cache: Option<Box<BlockCache>>,
    writer: Option<Box<BlockWriter>>,
) -> File<'d, D, M>
    requires held { end layout layout.frames ≤ (D.state disk.old).size }
    requires linear { M.PLACES ≡ true → is_none (fixed_of layout.params.codec) ≡ false }
    requires blocks { M.ENCODES ≡ false → is_some cache ≡ is_adpcm layout.params.codec }
    requires empty { IsEmpty cache }
    requires encodes { is_some writer ≡ M.ENCODES }
    requires begins { M.ENCODES ≡ true → BeginsIn layout writer }
    requires room_ends { layout.start + room layout + 8 ≤ 2 ^ 63 }
    requires sized { M.WRITES ≡ true → layout.unknown_length ≡ false }
    requires headed { M.MAKES ≡ true → HasHead (D.state disk.old) layout }
    requires pieces_held { M.WRITES ≡ false → All (EndsIn (D.state disk.old).size) layout.pieces }
    ensures lends { loan_of result ≡ disk.entry.ghost_name }
    ensures same_disk { disk_of result ≡ disk.old }
    ensures fresh { IsFresh (known_of result) }
    ensures shape { (known_of result).shape ≡ layout }
    ensures stands { (b : List ℕ) → Tells D.state disk.old b → Stands D.state result (first_editing b layout) }
{
    keeps_rules(&layout);
    File {
        disk,
        layout,
        read_place: 0,
        write_place: 0,
        automatic: false,
        written: false,
        broken: None,
        block: [0; BLOCK_BYTES],
        cache,
        writer,
        mode: PhantomData,
    }
}

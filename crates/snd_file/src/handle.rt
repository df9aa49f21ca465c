//! The handle of one open file.

ghost use Rattle.std.specs.Prelude.{◌≡◌, ◌≢◌, ◌+◌, ◌≤◌, ◌^◌, None, All, false, true, is_none, is_some};
ghost use Rattle.snd_container.specs.Sound.{fixed_of};
ghost use Rattle.snd_layout.specs.Blocks.{is_adpcm};
ghost use Rattle.snd_layout.specs.Opened.{EndsIn};
ghost use Rattle.snd_layout.specs.Params.{data_bytes};
ghost use Rattle.snd_layout.specs.Shape.{end, room};
ghost use Rattle.snd_layout.specs.declared.kind.Kind.TheVariants.{Voc};
ghost use Rattle.snd_container.specs.Values.{closed_end};
ghost use Rattle.snd_frames.specs.Caching.{CachesIn};
ghost use Rattle.snd_edits.specs.Pacing.{HasPlaceFor, PacesIn};
ghost use Rattle.snd_file.specs.Heads.{HasHead};

use snd_block_writer::BlockWriter;
use snd_blocks::BlockCache;
use snd_disk::{Disk, Step};
use snd_edits::Mode;
use snd_frames::BLOCK_BYTES;
use snd_layout::Layout;
use std::marker::PhantomData;

/// An open file, in the mode `M`. It holds its disk, and is closed to give it back. The frames to read
/// and to write next are at most the number of frames; in a file of ADPCM that is made the next frame
/// stands behind all that were written, also behind those that wait for their block. Until a call of the disk fails, the data of the
/// frames lie within the disk, and so do the further chunks of a file that is only read; and while the file
/// is updated automatically, its head says how many bytes they have, and what closes them is there. Until
/// a frame is written, the disk of a file that is made holds nothing but its head.
pub struct File<'d, D: Disk, M: Mode> {
    pub(crate) disk: &'d mut D,
    pub(crate) layout: Layout,
    pub(crate) read_place: u64,
    pub(crate) write_place: u64,
    pub(crate) automatic: bool,
    pub(crate) written: bool,
    pub(crate) broken: Option<Step>,
    // where samples are made as they are tested, and read: here, since it is cleared where it is made
    pub(crate) block: [u8; BLOCK_BYTES],
    // of a file of ADPCM, which is read by blocks, those that were read last
    pub(crate) cache: Option<Box<BlockCache>>,
    // of a file of ADPCM that is made, what makes its blocks
    pub(crate) writer: Option<Box<BlockWriter>>,
    pub(crate) mode: PhantomData<M>,
    ghost stands: { broken ≡ None → end layout layout.frames ≤ (D.state disk.now).size },
    ghost placed: { read_place ≤ layout.frames },
    ghost write_placed: { M.PLACES ≡ true → write_place ≤ layout.frames },
    ghost linear: { M.PLACES ≡ true → is_none (fixed_of layout.params.codec) ≡ false },
    ghost blocks: { M.ENCODES ≡ false → is_some cache ≡ is_adpcm layout.params.codec },
    ghost encodes: { is_some writer ≡ M.ENCODES },
    ghost paced: { M.ENCODES ≡ true → broken ≡ None → PacesIn layout write_place writer },
    ghost roomy: { M.ENCODES ≡ true → HasPlaceFor layout write_place },
    ghost unwritten: { M.ENCODES ≡ true → written ≡ false → write_place ≡ 0 },
    ghost cached: { M.WRITES ≡ false → CachesIn D.state disk.now layout cache },
    ghost room_ends: { layout.start + room layout + 8 ≤ 2 ^ 63 },
    ghost sized: { M.WRITES ≡ true → layout.unknown_length ≡ false },
    ghost pieces_held: { M.WRITES ≡ false → broken ≡ None → All (EndsIn (D.state disk.now).size) layout.pieces },
    ghost headed: { M.MAKES ≡ true → written ≡ false → broken ≡ None → HasHead (D.state disk.now) layout },
    ghost counted: { automatic ≡ true → broken ≡ None → layout.trailing ≡ false → layout.kind ≢ Voc → layout.declared ≡ data_bytes layout.params layout.frames },
    ghost closed: { automatic ≡ true → broken ≡ None → layout.trailing ≡ false → closed_end layout layout.frames ≤ (D.state disk.now).size },
}

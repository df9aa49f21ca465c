//! What is left of a sound on a disk.

ghost use Rattle.std.specs.Prelude.{◌≡◌, ◌+◌, ◌*◌, ◌^◌, ◌≤◌, All, None, IfOk, false};
ghost use Rattle.snd_disk.specs.Device.{AsksAtMost, OnlyReadsOn};
ghost use Rattle.snd_layout.specs.Blocks.{is_adpcm};
ghost use Rattle.snd_layout.specs.Fit.{fit_refusal};
ghost use Rattle.snd_layout.specs.Opened.{CountsOpening, EndsIn};
ghost use Rattle.snd_layout.specs.Shape.{end, room};
ghost use Rattle.snd_layout.specs.declared.kind.Kind.TheVariants.{Wave};
ghost use Rattle.snd_search.specs.Sought.{OpensSought, shape_at, sought_to};

use crate::data::find_data;
use crate::format::find_format;
use snd_disk::{Disk, Step};
use snd_layout::{Field, Kind, LAST_PLACE, Layout, OpenError, OpenRefusal, Params, PieceList};
use std::alloc::Global;

/// The size of a whole WAVE file, and how many bytes the size of its data has.
const WHOLE_SIZE: Field = Field { at: 4, size: 4 };

const DATA_SIZE: u8 = 4;

// The layout of a sound whose data run from a place to the end of so many bytes.
fn layout_at(alloc: Global, params: Params, start: u64, size: u64) -> Layout
    requires fits { fit_refusal Wave params ≡ None }
    requires is_fixed { is_adpcm params.codec ≡ false }
    requires behind { 32 ≤ start }
    requires within { start ≤ size }
    requires size { size + 8 ≤ 2 ^ 63 }
    ensures { result ≡ shape_at params start size }
{
    params.are_good();
    Layout {
        kind: Kind::Wave,
        params,
        start,
        frames: (size - start) / u64::from(params.block_align()),
        declared: 0,
        inner: Field {
            at: start - u64::from(DATA_SIZE),
            size: DATA_SIZE,
        },
        outer: Some(WHOLE_SIZE),
        side: None,
        trailing: false,
        unknown_length: true,
        reserve: None,
        pieces: PieceList::new(alloc),
    }
}

/// The layout that a WAVE file would have whose head is the first good format on a disk and the head of the first data
/// behind it, and leaves the length open. Of each byte up to the data at most 20 are asked, of each behind them 2, and
/// a block. It takes no memory.
///
/// `Refused` with `NoFormat` where there is no good format, and with `NoData` where there are no data behind it;
/// `DiskFault` where a call of the disk failed.
pub fn find_sound<D: Disk>(alloc: Global, disk: &mut D) -> Result<Layout, OpenError>
    ensures opened { OpensSought D.state disk.old result }
    ensures is_wave { IfOk result (λ h. h.kind ≡ Wave) }
    ensures is_fixed { IfOk result (λ h. is_adpcm h.params.codec ≡ false) }
    ensures held { IfOk result (λ h. end h h.frames ≤ (D.state disk.old).size) }
    ensures room_ends { IfOk result (λ h. h.start + room h + 8 ≤ 2 ^ 63) }
    ensures pieces_held { IfOk result (λ h. All (EndsIn (D.state disk.old).size) h.pieces) }
    ensures faults { CountsOpening D.state disk.old disk.new result }
    ensures reads { OnlyReadsOn D.state D.may_leave D.left_between disk.old disk.new }
    ensures asked { AsksAtMost D.state (18 * sought_to (D.state disk.old).size result + 2 * (D.state disk.old).size + 16384) disk.old disk.new }
{
    let Ok(len) = disk.len() else {
        return Err(OpenError::DiskFault(Step::Len));
    };
    let size = len.min(LAST_PLACE);
    let Some(stated) = find_format(disk, size)? else {
        return Err(OpenError::Refused(OpenRefusal::NoFormat));
    };
    let Some(start) = find_data(disk, stated.behind, size)? else {
        return Err(OpenError::Refused(OpenRefusal::NoData));
    };
    Ok(layout_at(alloc, stated.params, start, size))
}

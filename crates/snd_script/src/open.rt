//! A file on a disk that is opened, in whichever mode.

ghost use Rattle.std.specs.Prelude.{◌≡◌, IfOk, None};
ghost use Rattle.snd_disk.specs.Device.{AsksAtMost, GoesOnFrom, WritesAtMost};
ghost use Rattle.snd_layout.specs.Blocks.{is_adpcm};
ghost use Rattle.snd_opening.specs.Opening.{answer_of};
ghost use Rattle.snd_patch.specs.Steps.{StillTells};
ghost use Rattle.snd_rules.specs.Edit.{Opening, mode_for, mode_made};
ghost use Rattle.snd_session.specs.Handled.{IsSmall, handle_known, mode_of};
ghost use Rattle.snd_script.specs.Opened.{CountsOpen, IsMakeable, OnlyOpens, OpensHandle, OpensToRest, disk_of_open, loan_of_open, most_made, opening_by};
ghost use Rattle.snd_script.specs.Used.{most_asked};

use snd_block_writer::are_blocks;
use snd_disk::Disk;
use snd_layout::{Codec, Kind, OpenError, Params};
use snd_opening::{create, create_blocks, open_read, open_update};
use snd_session::Handle;
use std::alloc::Global;

/// How a file is opened.
#[derive(Clone, Copy, Debug, PartialEq, Eq)]
pub enum OpenAs {
    /// To be read.
    Read,
    /// To be read and updated in place.
    Update,
    /// Made anew, of a kind and with parameters that it holds.
    Make(Kind, Params),
}

// Whether samples of a codec stand in blocks.
fn is_adpcm(codec: Codec) -> bool
    ensures { result ≡ is_adpcm codec }
{
    matches!(codec, Codec::Ima { .. } | Codec::Ms { .. })
}

// Makes a disk a file of a kind, which is open in the mode of its codec.
#[tactic(auto, using(snd_rules::proofs::Public::in_numbers, snd_rules::proofs::Public::few_channels))]
fn make_disk<'d, D: Disk>(
    alloc: Global,
    disk: &'d mut D,
    kind: Kind,
    params: Params,
) -> Result<Handle<'d, D>, (OpenError, &'d mut D)>
    requires { IsMakeable (OpenAs.Make kind params) }
    ensures lends { loan_of_open result ≡ disk.entry.ghost_name }
    ensures opened { OpensHandle D.state (Opening.for_making kind params) disk.old (answer_of result) }
    ensures mode { IfOk result (λ h. mode_of h ≡ mode_made (is_adpcm params.codec)) }
    ensures fresh { IfOk result (λ h. (handle_known h).broken ≡ None) }
    ensures small { IfOk result (λ h. IsSmall h) }
    ensures faults { CountsOpen D.state disk.old (disk_of_open result) (answer_of result) }
    ensures tells { StillTells (D.state disk.old) (D.state (disk_of_open result)) }
    ensures time { GoesOnFrom D.state D.left_between disk.old (disk_of_open result) }
    ensures asked { AsksAtMost D.state 0 disk.old (disk_of_open result) }
    ensures written { WritesAtMost D.state 2048 disk.old (disk_of_open result) }
{
    if is_adpcm(params.codec) {
        are_blocks(&params);
        return match create_blocks(alloc, disk, kind, params) {
            Ok(file) => Ok(Handle::B(file)),
            Err(error) => Err(error),
        };
    }
    match create(alloc, disk, kind, params) {
        Ok(file) => Ok(Handle::W(file)),
        Err(error) => Err(error),
    }
}

/// Opens the file on a disk. The disk comes back where it is not opened.
pub fn open_disk<'d, D: Disk>(
    alloc: Global,
    disk: &'d mut D,
    how: &OpenAs,
) -> Result<Handle<'d, D>, (OpenError, &'d mut D)>
    requires { IsMakeable how.now }
    ensures lends { loan_of_open result ≡ disk.entry.ghost_name }
    ensures opened { OpensHandle D.state (opening_by how.now) disk.old (answer_of result) }
    ensures mode { IfOk result (λ h. mode_of h ≡ mode_for (opening_by how.now)) }
    ensures fresh { IfOk result (λ h. (handle_known h).broken ≡ None) }
    ensures small { IfOk result (λ h. IsSmall h) }
    ensures faults { CountsOpen D.state disk.old (disk_of_open result) (answer_of result) }
    ensures tells { StillTells (D.state disk.old) (D.state (disk_of_open result)) }
    ensures time { GoesOnFrom D.state D.left_between disk.old (disk_of_open result) }
    ensures reads { OnlyOpens D.Disk how.now disk.old (disk_of_open result) }
    ensures rests { IfOk result (OpensToRest D.Disk how.now disk.old) }
    ensures asked { AsksAtMost D.state (most_asked how.now) disk.old (disk_of_open result) }
    ensures written { WritesAtMost D.state (most_made how.now) disk.old (disk_of_open result) }
{
    match how {
        OpenAs::Read => match open_read(alloc, disk) {
            Ok(file) => Ok(Handle::R(file)),
            Err(error) => Err(error),
        },
        OpenAs::Update => match open_update(alloc, disk) {
            Ok(file) => Ok(Handle::U(file)),
            Err(error) => Err(error),
        },
        OpenAs::Make(kind, params) => make_disk(alloc, disk, *kind, *params),
    }
}

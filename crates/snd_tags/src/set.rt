//! What is set in a file that is made, before its first frame.

ghost use Rattle.std.specs.Prelude.{◌≡◌, ◌≢◌, ◌↔◌, ◌<◌, ◌^◌, All, IsErrOf, codes, length};
ghost use Rattle.snd_disk.specs.Device.{AsksAtMost, GoesOnFrom, WritesAtMost};
ghost use Rattle.snd_meta.specs.Broadcast.{field_size};
ghost use Rattle.snd_meta.specs.Cue.{cue_body, named};
ghost use Rattle.snd_file.specs.Handle.{disk_of, known_of, loan_of};
ghost use Rattle.snd_file.specs.Outcomes.{TellsOn};
ghost use Rattle.snd_tags.specs.Drafts.{CountsSetting, OnlyPuts, SetsBody, SetsSome};
ghost use Rattle.snd_edits.specs.TagDrafts.{bext_timed, bext_with, info_with};

use crate::bodies::{bext_timed, bext_with, cue_body, info_with};
use crate::error::SetError;
use crate::steps::{body_held, put_body};
use snd_disk::Disk;
use snd_edits::CanMake;
use snd_fields::Id4;
use snd_file::File;
use snd_layout::PieceError;
use snd_meta::{BextKey, InfoKey};
use std::alloc::Global;

/// The most bytes of a text of an INFO list.
const MOST_TEXT: usize = 1024;

const LIST: Id4 = Id4(*b"LIST");

const BEXT: Id4 = Id4(*b"bext");

const CUE: Id4 = Id4(*b"cue ");

/// Sets a text of the INFO list of a file that is made: the list that its first `LIST` chunk holds is put
/// anew with the text, or a list of this text alone. The text has no 0. It writes at most 16777216 bytes,
/// and reads at most so many.
///
/// `TextTooLong` exactly where the text has more than 1024 bytes; then the answers of `File::put_meta`, of
/// which `Broken`, `DiskFault` and `Memory` may also come as the list is read, before the others.
pub fn set_text<'d, D: Disk, M: CanMake>(
    file: &mut File<'d, D, M>,
    alloc: Global,
    key: InfoKey,
    text: &[u8],
) -> Result<(), SetError>
    requires { All (λ b. b ≢ 0) text.now }
    ensures loan { loan_of file.new ≡ loan_of file.old }
    ensures too_long { IsErrOf result SetError.TextTooLong ↔ (1024 < length text.now) }
    ensures left { SetsSome (codes "LIST") (known_of file.old) (known_of file.new) result }
    ensures sets { SetsBody D.state (codes "LIST") (info_with key text.now) file.old file.new result }
    ensures puts { OnlyPuts D.Disk file.old file.new result }
    ensures tells { TellsOn D.state file.old file.new }
    ensures time { GoesOnFrom D.state D.left_between (disk_of file.old) (disk_of file.new) }
    ensures faults { CountsSetting D.state file.old file.new result }
    ensures written { WritesAtMost D.state 16777216 (disk_of file.old) (disk_of file.new) }
    ensures asked { AsksAtMost D.state 16777216 (disk_of file.old) (disk_of file.new) }
{
    if text.len() > MOST_TEXT {
        return Err(SetError::TextTooLong);
    }
    let held = body_held(file, alloc, LIST)?;
    let body = info_with(alloc, held, key, text)?;
    put_body(file, LIST, &body)
}

/// Sets a text of the broadcast extension in the same way: that of the first `bext` chunk, or a new one of
/// version 1. The key is not the time reference, which is a number.
///
/// `TextTooLong` exactly where the text exceeds its field, or a coding history 1024 bytes; then the answers
/// of `File::put_meta`.
pub fn set_field<'d, D: Disk, M: CanMake>(
    file: &mut File<'d, D, M>,
    alloc: Global,
    key: BextKey,
    text: &[u8],
) -> Result<(), SetError>
    requires is_text { key ≢ BextKey.TimeRef }
    requires no_zero { All (λ b. b ≢ 0) text.now }
    ensures loan { loan_of file.new ≡ loan_of file.old }
    ensures too_long { IsErrOf result SetError.TextTooLong ↔ (field_size key < length text.now) }
    ensures left { SetsSome (codes "bext") (known_of file.old) (known_of file.new) result }
    ensures sets { SetsBody D.state (codes "bext") (bext_with key text.now) file.old file.new result }
    ensures puts { OnlyPuts D.Disk file.old file.new result }
    ensures tells { TellsOn D.state file.old file.new }
    ensures time { GoesOnFrom D.state D.left_between (disk_of file.old) (disk_of file.new) }
    ensures faults { CountsSetting D.state file.old file.new result }
    ensures written { WritesAtMost D.state 16777216 (disk_of file.old) (disk_of file.new) }
    ensures asked { AsksAtMost D.state 16777216 (disk_of file.old) (disk_of file.new) }
{
    if text.len() > key.size() {
        return Err(SetError::TextTooLong);
    }
    let held = body_held(file, alloc, BEXT)?;
    let body = bext_with(alloc, held, key, text)?;
    put_body(file, BEXT, &body)
}

/// Sets the time reference of the broadcast extension in the same way: the first sample's place since
/// midnight, in samples. `TextTooLong` never comes.
pub fn set_time<'d, D: Disk, M: CanMake>(
    file: &mut File<'d, D, M>,
    alloc: Global,
    time: u64,
) -> Result<(), SetError>
    ensures loan { loan_of file.new ≡ loan_of file.old }
    ensures fits { IsErrOf result SetError.TextTooLong → ⊥ }
    ensures left { SetsSome (codes "bext") (known_of file.old) (known_of file.new) result }
    ensures sets { SetsBody D.state (codes "bext") (bext_timed time) file.old file.new result }
    ensures puts { OnlyPuts D.Disk file.old file.new result }
    ensures tells { TellsOn D.state file.old file.new }
    ensures time { GoesOnFrom D.state D.left_between (disk_of file.old) (disk_of file.new) }
    ensures faults { CountsSetting D.state file.old file.new result }
    ensures written { WritesAtMost D.state 16777216 (disk_of file.old) (disk_of file.new) }
    ensures asked { AsksAtMost D.state 16777216 (disk_of file.old) (disk_of file.new) }
{
    let held = body_held(file, alloc, BEXT)?;
    let body = bext_timed(alloc, held, time)?;
    put_body(file, BEXT, &body)
}

/// Sets the cue points of a file: one at each place, a frame, with the names 1, 2, 3 and so on. It writes at
/// most 16777216 bytes, and reads at most so many. `TextTooLong` never comes.
pub fn set_points<'d, D: Disk, M: CanMake>(
    file: &mut File<'d, D, M>,
    alloc: Global,
    places: &[u32],
) -> Result<(), SetError>
    requires { length places.now < 2 ^ 32 }
    ensures loan { loan_of file.new ≡ loan_of file.old }
    ensures fits { IsErrOf result SetError.TextTooLong → ⊥ }
    ensures left { SetsSome (codes "cue ") (known_of file.old) (known_of file.new) result }
    ensures sets { SetsBody D.state (codes "cue ") (λ _. cue_body (named 1 places.now)) file.old file.new result }
    ensures puts { OnlyPuts D.Disk file.old file.new result }
    ensures tells { TellsOn D.state file.old file.new }
    ensures time { GoesOnFrom D.state D.left_between (disk_of file.old) (disk_of file.new) }
    ensures faults { CountsSetting D.state file.old file.new result }
    ensures written { WritesAtMost D.state 16777216 (disk_of file.old) (disk_of file.new) }
    ensures asked { AsksAtMost D.state 16777216 (disk_of file.old) (disk_of file.new) }
{
    let Ok(body) = cue_body(alloc, places) else {
        // A file that is broken answers that, also where there is no memory.
        body_held(file, alloc, CUE)?;
        return Err(SetError::Put(PieceError::Memory));
    };
    put_body(file, CUE, &body)
}

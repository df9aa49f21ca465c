//! What is set in the head of a file that is made, and the reply.

ghost use Rattle.std.specs.Prelude.{◌≡◌, ◌≢◌, IfErr, None, true};
ghost use Rattle.snd_file.specs.Handle.{known_of};
ghost use Rattle.snd_session.specs.Answered.{IsPutWhole, Puts, put_refused};
ghost use Rattle.snd_rules.specs.Rules.{reserve_rule, set_bext_rule, set_chunk_rule, set_cue_rule, set_string_rule, set_time_rule};
ghost use Rattle.snd_session.specs.Follows.{Follows};
ghost use Rattle.snd_rules.specs.Work.{setting_rule};

use arrayvec::ArrayVec;
use snd_command::{MOST_CUES, is_text};
use snd_disk::{Disk, Sink};
use snd_edits::CanMake;
use snd_fields::{Id4, decimal};
use snd_file::File;
use snd_layout::{OpenRefusal, PieceError};
use snd_lines::Refusal;
use snd_meta::{BextKey, InfoKey};
use snd_reservations::ReserveError;
use snd_rules::{Reply, Setting, StepFault, bytes_of_hex, refuse, say_text};
use snd_tags::{SetError, set_field, set_points, set_text, set_time};
use std::alloc::Global;

/// Sets something in the head of a file.
pub fn set<'d, D: Disk, M: CanMake, O: Sink>(
    file: &mut File<'d, D, M>,
    alloc: Global,
    setting: Setting<'_>,
    out: &mut O,
) -> Result<Reply, StepFault>
    requires { (known_of file.old).broken ≡ None }
    ensures { Follows D.Disk O.Sink (setting_rule setting.entry) result file.old out.old file.new out.new }
{
    match setting {
        Setting::Chunk(id, hex) => put_chunk(file, alloc, id, hex, out),
        Setting::Text(key, text) => put_text(file, alloc, key, text, out),
        Setting::Field(BextKey::TimeRef, text) => put_time(file, alloc, decimal(text), out),
        Setting::Field(key, text) => put_field(file, alloc, key, text, out),
        Setting::Points(places) => put_points(file, alloc, places, out),
        Setting::Reservation => reserve(file, out),
    }
}

// Why a chunk is not put, in a script's words.
fn put_refused(error: PieceError) -> Refusal
    ensures { result ≡ put_refused error }
{
    match error {
        PieceError::FramesWritten => Refusal::FramesWritten,
        PieceError::AutoOn => Refusal::AutoOn,
        PieceError::ReservedChunk => Refusal::ReservedChunk,
        PieceError::NoChunks => Refusal::NoChunks,
        PieceError::ChunkTooLarge => Refusal::ChunkTooLarge,
        PieceError::ContainerFull => Refusal::ContainerFull,
        PieceError::TooManyChunks
        | PieceError::Broken(_)
        | PieceError::DiskFault(_)
        | PieceError::Memory => Refusal::Open(OpenRefusal::TooManyChunks),
    }
}

// Says how a call ended that puts a chunk.
fn say_put<O: Sink>(put: Result<(), SetError>, out: &mut O) -> Result<Reply, StepFault>
    requires { IfErr put (λ error. IsPutWhole error ≡ true) }
    ensures { Puts O.Sink put result out.old out.new }
{
    match put {
        Ok(()) => say_text(out, b"ok\n"),
        Err(SetError::TextTooLong) => refuse(out, Refusal::TextTooLong),
        Err(SetError::Put(PieceError::DiskFault(_))) => Err(StepFault::Disk),
        Err(SetError::Put(PieceError::Memory)) => Err(StepFault::Memory),
        Err(SetError::Put(PieceError::Broken(_))) => unreachable!(),
        Err(SetError::Put(error)) => refuse(out, put_refused(error)),
    }
}

// Puts a further chunk behind the others.
fn put_chunk<'d, D: Disk, M: CanMake, O: Sink>(
    file: &mut File<'d, D, M>,
    alloc: Global,
    id: Id4,
    hex: &[u8],
    out: &mut O,
) -> Result<Reply, StepFault>
    requires { (known_of file.old).broken ≡ None }
    ensures { Follows D.Disk O.Sink (set_chunk_rule id.0 hex.now) result file.old out.old file.new out.new }
{
    let Ok(body) = bytes_of_hex(alloc, hex) else {
        return Err(StepFault::Memory);
    };
    match file.add_piece(id, &body) {
        Ok(()) => say_put(Ok(()), out),
        Err(error) => say_put(Err(SetError::Put(error)), out),
    }
}

// Sets a text of the INFO list.
fn put_text<'d, D: Disk, M: CanMake, O: Sink>(
    file: &mut File<'d, D, M>,
    alloc: Global,
    key: InfoKey,
    text: &[u8],
    out: &mut O,
) -> Result<Reply, StepFault>
    requires { (known_of file.old).broken ≡ None }
    ensures { Follows D.Disk O.Sink (set_string_rule key text.now) result file.old out.old file.new out.new }
{
    if !is_text(text) {
        return refuse(out, Refusal::BadCommand);
    }
    say_put(set_text(file, alloc, key, text), out)
}

// Sets a text of the broadcast extension.
fn put_field<'d, D: Disk, M: CanMake, O: Sink>(
    file: &mut File<'d, D, M>,
    alloc: Global,
    key: BextKey,
    text: &[u8],
    out: &mut O,
) -> Result<Reply, StepFault>
    requires working { (known_of file.old).broken ≡ None }
    requires is_text { key ≢ BextKey.TimeRef }
    ensures { Follows D.Disk O.Sink (set_bext_rule key text.now) result file.old out.old file.new out.new }
{
    if !is_text(text) {
        return refuse(out, Refusal::BadCommand);
    }
    say_put(set_field(file, alloc, key, text), out)
}

// Sets the time reference of the broadcast extension, where a number is given.
fn put_time<'d, D: Disk, M: CanMake, O: Sink>(
    file: &mut File<'d, D, M>,
    alloc: Global,
    time: Option<u64>,
    out: &mut O,
) -> Result<Reply, StepFault>
    requires { (known_of file.old).broken ≡ None }
    ensures { Follows D.Disk O.Sink (set_time_rule time) result file.old out.old file.new out.new }
{
    match time {
        None => refuse(out, Refusal::BadCommand),
        Some(time) => say_put(set_time(file, alloc, time), out),
    }
}

// Sets the cue points.
fn put_points<'d, D: Disk, M: CanMake, O: Sink>(
    file: &mut File<'d, D, M>,
    alloc: Global,
    places: &ArrayVec<u32, MOST_CUES>,
    out: &mut O,
) -> Result<Reply, StepFault>
    requires { (known_of file.old).broken ≡ None }
    ensures { Follows D.Disk O.Sink (set_cue_rule places.now.items) result file.old out.old file.new out.new }
{
    say_put(set_points(file, alloc, places), out)
}

// Reserves a chunk for 64-bit sizes.
fn reserve<'d, D: Disk, M: CanMake, O: Sink>(
    file: &mut File<'d, D, M>,
    out: &mut O,
) -> Result<Reply, StepFault>
    requires { (known_of file.old).broken ≡ None }
    ensures { Follows D.Disk O.Sink reserve_rule result file.old out.old file.new out.new }
{
    match file.reserve() {
        Ok(()) => say_text(out, b"ok\n"),
        Err(ReserveError::FramesWritten) => refuse(out, Refusal::FramesWritten),
        Err(ReserveError::AutoOn) => refuse(out, Refusal::AutoOn),
        Err(ReserveError::NoRoom) => refuse(out, Refusal::NoRoom),
        Err(ReserveError::DiskFault(_)) => Err(StepFault::Disk),
        Err(ReserveError::Broken(_)) => unreachable!(),
    }
}

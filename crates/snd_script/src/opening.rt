//! A file that is opened, served and closed.

ghost use Rattle.std.specs.Prelude.{◌≡◌, ◌≤◌, List, ℕ, None, OnOk};
ghost use Rattle.snd_disk.specs.Device.{GoesOnFrom};
ghost use Rattle.snd_file.specs.Handle.{known_of};
ghost use Rattle.snd_patch.specs.Steps.{StillTells};
ghost use Rattle.snd_session.specs.Handled.{IsSmall, LeavesDisk, LeavesHandle, handle_known, handle_loan};
ghost use Rattle.snd_script.specs.Kept.{LeavesLines};
ghost use Rattle.snd_script.specs.Opened.{IsMakeable, OnlyServes, most_made};
ghost use Rattle.snd_rules.specs.Script.{asked_by, written_by};
ghost use Rattle.snd_script.specs.Tapped.{taps_of};
ghost use Rattle.snd_script.specs.Used.{UsesClosed, UsesOn, UsesOpen, most_asked};
ghost use Rattle.snd_script.specs.Serving.{AnswersClose, AnswersError, AnswersFile, CountsClosed, CountsDisk, CountsHandle, IsSinkCounted, IsWhole, ServesDisk, ServesHandle, ServesToClose, TakesLines};

use crate::open::{OpenAs, open_disk};
use crate::opened::serve_open;
use crate::run::Run;
use crate::stop::Stop;
use snd_disk::{Disk, Sink, Source};
use snd_edits::Mode;
use snd_file::File;
use snd_layout::OpenError;
use snd_lines::Refusal;
use snd_rules::{put_file_line, put_ok};
use snd_session::Handle;
use snd_taps::Tap;
use std::alloc::Global;

// Tells of a file that was opened.
fn tell_file<'d, D: Disk, M: Mode, O: Sink>(file: &File<'d, D, M>, out: &mut O) -> Result<(), Stop>
    ensures answered { AnswersFile O.told (known_of file.now).shape result out.old out.new }
    ensures faults { IsSinkCounted result (O.faults out.old) (O.faults out.new) }
{
    match put_file_line(out, file.frames(), file.params(), file.kind()) {
        Ok(()) => Ok(()),
        Err(_) => Err(Stop::Sink),
    }
}

/// Answers that a file was opened.
pub fn reply_opened<'d, D: Disk, O: Sink>(handle: &Handle<'d, D>, out: &mut O) -> Result<(), Stop>
    ensures answered { AnswersFile O.told (handle_known handle.now).shape result out.old out.new }
    ensures faults { IsSinkCounted result (O.faults out.old) (O.faults out.new) }
{
    match handle {
        Handle::R(file) => tell_file(file, out),
        Handle::W(file) => tell_file(file, out),
        Handle::B(file) => tell_file(file, out),
        Handle::U(file) => tell_file(file, out),
    }
}

// Answers that a file was opened, and carries out lines up to one that closes it.
fn serve_opened<'d, D: Disk, R: Source, O: Sink>(
    handle: &mut Handle<'d, D>,
    script: &mut R,
    out: &mut O,
    run: &mut Run,
) -> Result<(), Stop>
    requires working { (handle_known handle.old).broken ≡ None }
    requires small { IsSmall handle.old }
    ensures served { (name : List ℕ) → ServesToClose (λ b. meter b) D.state R.left O.told name result handle.old run.old script.old out.old handle.new run.new script.new out.new }
    ensures fewer { OnOk result (run.new.lines.room ≤ run.old.lines.room) }
    ensures given { TakesLines R.given run.old script.old run.new script.new }
    ensures whole { IsWhole result (handle_known handle.new).broken }
    ensures counted { CountsHandle D.state R.faults O.faults result handle.old script.old out.old handle.new script.new out.new }
    ensures leaves { LeavesHandle D.state D.may_leave D.left_between handle.old handle.new }
    ensures asked { UsesOpen (λ d. (D.state d).asked) R.left result asked_by handle.old run.old script.old handle.new run.new script.new }
    ensures written { UsesOpen (λ d. (D.state d).written) R.left result written_by handle.old run.old script.old handle.new run.new script.new }
    ensures tail { LeavesLines R.left result run.old script.old run.new script.new }
{
    match reply_opened(handle, out) {
        Ok(()) => serve_open(handle, false, script, out, run),
        Err(stop) => Err(stop),
    }
}

// Answers that a file was closed.
fn reply_closed<O: Sink>(frames: u64, out: &mut O) -> Result<(), Stop>
    ensures answered { AnswersClose O.told frames result out.old out.new }
    ensures faults { IsSinkCounted result (O.faults out.old) (O.faults out.new) }
{
    match put_ok(out, frames) {
        Ok(()) => Ok(()),
        Err(_) => Err(Stop::Sink),
    }
}

// Serves a file that was opened, and closes it in every case. Where that fails, the run stops there.
fn serve_handle<'d, D: Disk, R: Source, O: Sink>(
    handle: Handle<'d, D>,
    script: &mut R,
    out: &mut O,
    run: &mut Run,
) -> (Result<(), Stop>, &'d mut D)
    requires working { (handle_known handle).broken ≡ None }
    requires small { IsSmall handle }
    ensures lends { result.1.ghost_name ≡ handle_loan handle.entry }
    ensures served { (name : List ℕ) → ServesHandle (λ b. meter b) D.state R.left O.told name result.0 handle.entry run.old script.old out.old result.1.now run.new script.new out.new }
    ensures fewer { OnOk result.0 (run.new.lines.room ≤ run.old.lines.room) }
    ensures given { TakesLines R.given run.old script.old run.new script.new }
    ensures counted { CountsClosed D.state R.faults O.faults result.0 handle.entry script.old out.old result.1.now script.new out.new }
    ensures leaves { LeavesDisk D.state D.may_leave D.left_between handle.entry result.1.now }
    ensures asked { UsesClosed (λ d. (D.state d).asked) R.left result.0 asked_by handle.entry run.old script.old result.1.now run.new script.new }
    ensures written { UsesClosed (λ d. (D.state d).written) R.left result.0 written_by handle.entry run.old script.old result.1.now run.new script.new }
    ensures tail { LeavesLines R.left result.0 run.old script.old run.new script.new }
{
    let mut handle = handle;
    match serve_opened(&mut handle, script, out, run) {
        Ok(()) => match run.session.finish(handle) {
            Ok((frames, disk)) => (reply_closed(frames, out), disk),
            Err((_, disk)) => (Err(Stop::File), disk),
        },
        Err(stop) => match run.session.finish(handle) {
            Ok((_, disk)) => (Err(stop), disk),
            Err((_, disk)) => (Err(Stop::File), disk),
        },
    }
}

/// Answers that a file was not opened.
pub fn not_opened<O: Sink>(error: OpenError, out: &mut O, run: &mut Run) -> Result<(), Stop>
    ensures answered { AnswersError O.told O.faults error result run.old out.old run.new out.new }
    ensures lines { run.new.lines ≡ run.old.lines }
    ensures taps { taps_of (λ b. meter b) run.new ≡ taps_of (λ b. meter b) run.old }
{
    match error {
        OpenError::Refused(refusal) => run.refuse(Refusal::Open(refusal), out),
        OpenError::AdpcmUpdate => run.refuse(Refusal::AdpcmUpdate, out),
        OpenError::UnknownLength => run.refuse(Refusal::UnknownLength, out),
        OpenError::DiskFault(_) => Err(Stop::File),
        OpenError::Memory => Err(Stop::Memory),
    }
}

/// Opens the file on a disk and answers that. Then it carries out lines up to one that closes the file,
/// or to where the run stops. The file is closed in every case.
pub fn serve_disk<D: Disk, R: Source, O: Sink>(
    alloc: Global,
    disk: &mut D,
    how: &OpenAs,
    script: &mut R,
    out: &mut O,
    run: &mut Run,
) -> Result<(), Stop>
    requires { IsMakeable how.now }
    ensures served { (name : List ℕ) → ServesDisk (λ b. meter b) D.state R.left O.told how.now name result disk.old run.old script.old out.old disk.new run.new script.new out.new }
    ensures fewer { OnOk result (run.new.lines.room ≤ run.old.lines.room) }
    ensures given { TakesLines R.given run.old script.old run.new script.new }
    ensures counted { CountsDisk D.state R.faults O.faults result disk.old script.old out.old disk.new script.new out.new }
    ensures tells { StillTells (D.state disk.old) (D.state disk.new) }
    ensures time { GoesOnFrom D.state D.left_between disk.old disk.new }
    ensures reads { OnlyServes D.Disk how.now disk.old disk.new }
    ensures asked { UsesOn (λ d. (D.state d).asked) R.left result asked_by (most_asked how.now) disk.old run.old script.old disk.new run.new script.new }
    ensures written { UsesOn (λ d. (D.state d).written) R.left result written_by (most_made how.now) disk.old run.old script.old disk.new run.new script.new }
    ensures tail { LeavesLines R.left result run.old script.old run.new script.new }
{
    match open_disk(alloc, disk, how) {
        Ok(handle) => {
            let (served, back) = serve_handle(handle, script, out, run);
            let _ = back;
            served
        }
        Err((error, back)) => {
            let _ = back;
            not_opened(error, out, run)
        }
    }
}

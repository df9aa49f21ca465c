//! A file that is updated automatically, and stays open to the end of the script.

ghost use Rattle.std.specs.Prelude.{◌≡◌, ◌+◌, List, ℕ, None, Some, false};
ghost use Rattle.std.specs.Str.{bytes_eq};
ghost use Rattle.snd_disk.specs.Device.{GoesOnFrom};
ghost use Rattle.snd_patch.specs.Steps.{StillTells};
ghost use Rattle.snd_rules.specs.Desk.{updating};
ghost use Rattle.snd_session.specs.Handled.{LeavesDisk, LeavesHandle, handle_known, handle_loan, mode_of};
ghost use Rattle.snd_script.specs.Kept.{KeepsUnless};
ghost use Rattle.snd_script.specs.PinnedRun.{ClosedAsks, ClosedWrites, OpenAsks, OpenWrites, PinnedAsks, PinnedWrites, ShelfAsks, ShelfWrites, StopsClosed, StopsDisk, StopsOpen, StopsPinned, UnreadDisk, UnreadOpen, UnreadPinned, stopped};
ghost use Rattle.snd_script.specs.Served.{LeavesShelf};
ghost use Rattle.snd_script.specs.Trail.{TrailsClosed, TrailsDisk, TrailsPinned, TrailsPinnedFile};
ghost use Rattle.snd_script.specs.Serving.{CountsClosed, CountsDisk, CountsHandle, CountsStop, IsWhole, TakesLines};

use crate::open::{OpenAs, open_disk};
use crate::opened::serve_open;
use crate::opening::{not_opened, reply_opened};
use crate::run::Run;
use crate::stop::Stop;
use snd_command::Command;
use snd_disk::{Disk, Shelf, ShelfFault, Sink, Source};
use snd_lines::Refusal;
use snd_session::Handle;
use snd_taps::Tap;
use std::alloc::Global;

// Answers that a file was opened, and that it is updated automatically. Then it carries out lines up to
// where the run stops; none, where the second was refused.
fn serve_pinned_open<'d, D: Disk, R: Source, O: Sink>(
    handle: &mut Handle<'d, D>,
    script: &mut R,
    out: &mut O,
    run: &mut Run,
) -> Stop
    requires working { (handle_known handle.old).broken ≡ None }
    requires updated { mode_of handle.old ≡ updating }
    requires fresh { run.old.refused ≡ false }
    ensures served { (name : List ℕ) → StopsOpen (λ b. meter b) D.state R.left O.told name result handle.old run.old script.old out.old handle.new run.new script.new out.new }
    ensures unread { UnreadOpen D.state handle.old script.old script.new }
    ensures given { TakesLines R.given run.old script.old run.new script.new }
    ensures whole { IsWhole (stopped result) (handle_known handle.new).broken }
    ensures counted { CountsHandle D.state R.faults O.faults (stopped result) handle.old script.old out.old handle.new script.new out.new }
    ensures leaves { LeavesHandle D.state D.may_leave D.left_between handle.old handle.new }
    ensures trail { TrailsPinned (λ b. meter b) D.Disk R.Source O.Sink handle.old run.old script.old out.old handle.new out.new }
    ensures asked { OpenAsks D.Disk R.Source 0 handle.old run.old script.old handle.new }
    ensures written { OpenWrites D.Disk R.Source 64 handle.old run.old script.old handle.new }
{
    if let Err(stop) = reply_opened(handle, out) {
        return stop;
    }
    if let Err(stop) = run.step(handle, Command::Auto(true), out) {
        return stop;
    }
    if run.refused {
        return Stop::Ended;
    }
    match serve_open(handle, true, script, out, run) {
        Ok(()) => unreachable!(),
        Err(stop) => stop,
    }
}

// Serves a file that was opened, and closes it where the run stops.
fn serve_pinned_handle<'d, D: Disk, R: Source, O: Sink>(
    handle: Handle<'d, D>,
    script: &mut R,
    out: &mut O,
    run: &mut Run,
) -> (Stop, &'d mut D)
    requires working { (handle_known handle).broken ≡ None }
    requires updated { mode_of handle ≡ updating }
    requires fresh { run.old.refused ≡ false }
    ensures lends { result.1.ghost_name ≡ handle_loan handle.entry }
    ensures served { (name : List ℕ) → StopsClosed (λ b. meter b) D.state R.left O.told name result.0 handle.entry run.old script.old out.old result.1.now run.new script.new out.new }
    ensures unread { UnreadOpen D.state handle.entry script.old script.new }
    ensures given { TakesLines R.given run.old script.old run.new script.new }
    ensures counted { CountsClosed D.state R.faults O.faults (stopped result.0) handle.entry script.old out.old result.1.now script.new out.new }
    ensures leaves { LeavesDisk D.state D.may_leave D.left_between handle.entry result.1.now }
    ensures trail { TrailsClosed (λ b. meter b) D.Disk R.Source O.Sink handle.entry run.old script.old out.old result.1.now out.new }
    ensures asked { ClosedAsks D.Disk R.Source 0 handle.entry run.old script.old result.1.now }
    ensures written { ClosedWrites D.Disk R.Source 128 handle.entry run.old script.old result.1.now }
{
    let mut handle = handle;
    let stop = serve_pinned_open(&mut handle, script, out, run);
    match run.session.finish(handle) {
        Ok((_, disk)) => (stop, disk),
        Err((_, disk)) => (Stop::File, disk),
    }
}

// Opens the file on a disk, and serves it.
fn serve_pinned_disk<D: Disk, R: Source, O: Sink>(
    alloc: Global,
    disk: &mut D,
    script: &mut R,
    out: &mut O,
    run: &mut Run,
) -> Stop
    requires { run.old.refused ≡ false }
    ensures served { (name : List ℕ) → StopsDisk (λ b. meter b) D.state R.left O.told name result disk.old run.old script.old out.old disk.new run.new script.new out.new }
    ensures unread { UnreadDisk D.state disk.old script.old script.new }
    ensures given { TakesLines R.given run.old script.old run.new script.new }
    ensures counted { CountsDisk D.state R.faults O.faults (stopped result) disk.old script.old out.old disk.new script.new out.new }
    ensures tells { StillTells (D.state disk.old) (D.state disk.new) }
    ensures time { GoesOnFrom D.state D.left_between disk.old disk.new }
    ensures trail { TrailsDisk (λ b. meter b) D.Disk R.Source O.Sink disk.old run.old script.old out.old disk.new out.new }
    ensures asked { PinnedAsks D.Disk R.Source 16384 disk.old run.old script.old disk.new }
    ensures written { PinnedWrites D.Disk R.Source 128 disk.old run.old script.old disk.new }
{
    match open_disk(alloc, disk, &OpenAs::Update) {
        Ok(handle) => {
            let (stop, back) = serve_pinned_handle(handle, script, out, run);
            let _ = back;
            stop
        }
        Err((error, back)) => {
            let _ = back;
            match not_opened(error, out, run) {
                Ok(()) => Stop::Ended,
                Err(stop) => stop,
            }
        }
    }
}

/// Opens the file of a name to be updated, makes its updates automatic, and carries out the lines of a
/// script up to where the run stops. The answers of these two come first; where one is a refusal, no byte
/// of the script is taken. The file is closed at the end, and the shelf has it back in every case.
pub fn serve_pinned<S: Shelf, R: Source, O: Sink>(
    alloc: Global,
    name: &str,
    shelf: &mut S,
    script: &mut R,
    out: &mut O,
    run: &mut Run,
) -> Stop
    requires back { (S.state shelf.old).out name.now ≡ false }
    requires fresh { run.old.refused ≡ false }
    ensures served { StopsPinned (λ b. meter b) S.state R.left O.told name.now result shelf.old run.old script.old out.old shelf.new run.new script.new out.new }
    ensures unread { UnreadPinned S.state name.now shelf.old script.old script.new }
    ensures given { TakesLines R.given run.old script.old run.new script.new }
    ensures counted { CountsStop S.state R.faults O.faults result shelf.old script.old out.old shelf.new script.new out.new }
    ensures shelf { LeavesShelf S.state S.left_between shelf.old shelf.new }
    ensures asked { ShelfAsks S.Shelf R.Source 16384 shelf.old run.old script.old shelf.new }
    ensures written { ShelfWrites S.Shelf R.Source 128 shelf.old run.old script.old shelf.new }
    ensures trail { TrailsPinnedFile (λ b. meter b) S.Shelf R.Source O.Sink name.now shelf.old run.old script.old out.old shelf.new out.new }
    ensures images { KeepsUnless S.Shelf (λ n. bytes_eq n name.now) shelf.old shelf.new }
{
    let mut disk = match shelf.take(name, false) {
        Ok(disk) => disk,
        Err(ShelfFault::Missing) => {
            return match run.refuse(Refusal::MissingFile, out) {
                Ok(()) => Stop::Ended,
                Err(stop) => stop,
            };
        }
        Err(ShelfFault::Failed) => return Stop::File,
        Err(ShelfFault::Memory) => return Stop::Memory,
    };
    let stop = serve_pinned_disk(alloc, &mut disk, script, out, run);
    shelf.give(name, disk);
    stop
}

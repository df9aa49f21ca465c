//! A whole script.

ghost use Rattle.std.specs.Prelude.{◌≡◌, ◌+◌, ◌<◌, ◌≤◌, List, ℕ, OnOk, false, map};
ghost use Rattle.snd_script.specs.Kept.{KeepsByLines, LeavesLines};
ghost use Rattle.snd_script.specs.Trail.{TrailsRun, TrailsScript};
ghost use Rattle.snd_script.specs.Serving.{ServesLines, ServesAll, CountsRun, CountsStop, TakesLines};
ghost use Rattle.snd_script.specs.Served.{BoundsScript, KeepsUnnamed, LeavesScript, LeavesShelf, ServesScript, RisesAtFault, end_at};
ghost use Rattle.snd_script.specs.PinnedRun.{BoundsRun, KeepsInRun, StopsRun, named};
ghost use Rattle.snd_rules.specs.Script.{asked_by, written_by};
ghost use Rattle.snd_script.specs.Used.{BoundsLines, UsesOn};

use crate::closed::closed_line;
use crate::pinned::serve_pinned;
use crate::reader::{Line, ScriptLines};
use crate::run::Run;
use crate::stop::Stop;
use snd_disk::{Shelf, Sink, Source};
use snd_session::Session;
use snd_taps::Tap;
use std::alloc::Global;

/// How serving a script ends.
#[derive(Clone, Copy, Debug, PartialEq, Eq)]
pub enum ScriptEnd {
    /// At its end.
    Done {
        /// Whether one of its lines was refused.
        refused: bool,
    },
    /// It has more than 16777216 bytes. The whole lines among these were carried out.
    TooLong,
    /// The shelf, a disk, the script or the sink failed.
    Fault,
    /// There was no memory.
    Memory,
}

// Carries out the next line, while no file is open.
fn serve_line<S: Shelf, R: Source, O: Sink>(
    alloc: Global,
    line: &mut Line,
    shelf: &mut S,
    script: &mut R,
    out: &mut O,
    run: &mut Run,
) -> Result<(), Stop>
    requires { (n : List ℕ) → (S.state shelf.old).out n ≡ false }
    ensures served { ServesLines (λ b. meter b) S.state R.left O.told result shelf.old run.old script.old out.old shelf.new run.new script.new out.new }
    ensures fewer { OnOk result (run.new.lines.room < run.old.lines.room) }
    ensures given { TakesLines R.given run.old script.old run.new script.new }
    ensures counted { CountsRun S.state R.faults O.faults result shelf.old script.old out.old shelf.new script.new out.new }
    ensures shelf { LeavesShelf S.state S.left_between shelf.old shelf.new }
    ensures asked { UsesOn (λ s. (S.state s).asked) R.left result asked_by 0 shelf.old run.old script.old shelf.new run.new script.new }
    ensures written { UsesOn (λ s. (S.state s).written) R.left result written_by 0 shelf.old run.old script.old shelf.new run.new script.new }
    ensures tail { LeavesLines R.left result run.old script.old run.new script.new }
    ensures images { KeepsByLines S.Shelf R.Source shelf.old run.old script.old shelf.new }
{
    match run.next(script, line) {
        Ok(()) => closed_line(alloc, line, shelf, script, out, run),
        Err(stop) => Err(stop),
    }
}

// Carries out the lines of a script up to where the run stops.
fn serve_lines<S: Shelf, R: Source, O: Sink>(
    alloc: Global,
    shelf: &mut S,
    script: &mut R,
    out: &mut O,
    run: &mut Run,
) -> Stop
    requires { (n : List ℕ) → (S.state shelf.old).out n ≡ false }
    ensures served { ServesAll (λ b. meter b) S.state R.left O.told result shelf.old run.old script.old out.old shelf.new run.new script.new out.new }
    ensures given { TakesLines R.given run.old script.old run.new script.new }
    ensures counted { CountsStop S.state R.faults O.faults result shelf.old script.old out.old shelf.new script.new out.new }
    ensures shelf { LeavesShelf S.state S.left_between shelf.old shelf.new }
    ensures bounds { BoundsLines S.Shelf R.Source shelf.old run.old script.old shelf.new }
    ensures images { KeepsByLines S.Shelf R.Source shelf.old run.old script.old shelf.new }
{
    let mut line = Line::new();
    loop {
        match serve_line(alloc, &mut line, shelf, script, out, run) {
            Ok(()) => {}
            Err(stop) => return stop,
        }
    }
}

// Carries out the lines of a script up to where the run stops; behind the opening of the file of a name,
// which stays open, where there is one.
fn serve_run<S: Shelf, R: Source, O: Sink>(
    alloc: Global,
    shelf: &mut S,
    script: &mut R,
    out: &mut O,
    run: &mut Run,
    pinned: Option<&str>,
) -> Stop
    requires back { (n : List ℕ) → (S.state shelf.old).out n ≡ false }
    requires fresh { run.old.refused ≡ false }
    ensures served { StopsRun (λ b. meter b) S.state R.left O.told (named pinned.entry) result shelf.old run.old script.old out.old shelf.new run.new script.new out.new }
    ensures unread { LeavesScript S.state (named pinned.entry) shelf.old script.old script.new }
    ensures given { TakesLines R.given run.old script.old run.new script.new }
    ensures counted { CountsStop S.state R.faults O.faults result shelf.old script.old out.old shelf.new script.new out.new }
    ensures shelf { LeavesShelf S.state S.left_between shelf.old shelf.new }
    ensures bounds { BoundsRun S.Shelf R.Source (named pinned.entry) shelf.old run.old script.old shelf.new }
    ensures trail { TrailsRun (λ b. meter b) S.Shelf R.Source O.Sink (named pinned.entry) shelf.old run.old script.old out.old shelf.new out.new }
    ensures images { KeepsInRun S.Shelf R.Source (named pinned.entry) shelf.old run.old script.old shelf.new }
{
    match pinned {
        Some(name) => serve_pinned(alloc, name, shelf, script, out, run),
        None => serve_lines(alloc, shelf, script, out, run),
    }
}

// How a script ends whose run stops so.
fn end_at(stop: Stop, refused: bool) -> ScriptEnd
    ensures { result ≡ end_at refused stop }
{
    match stop {
        Stop::Ended => ScriptEnd::Done { refused },
        Stop::TooLong => ScriptEnd::TooLong,
        Stop::Script | Stop::Sink | Stop::File => ScriptEnd::Fault,
        Stop::Memory => ScriptEnd::Memory,
    }
}

/// Carries out a script and appends its replies, each line as soon as it has come. A file that is open
/// at the end is closed, and every file that was taken is given back, also after a fault.
///
/// The taps are handed in, and all of them wait at first. Each frame that a `read` replies is fed to those that
/// are on. Where a file is closed, they wait again; they are dropped at the end.
///
/// A fault ends the run at once. Where the script failed, what came before is done; where the sink failed
/// in a reply, its command is carried out too. The open file is closed then, as at any end. Where a file
/// failed, it is left as the failing call left it, and all others are as before.
///
/// The lines bound how many bytes are asked of the files, and written: a line that opens a file asks at
/// most 16384, one that makes a file writes at most 2048, and one that closes it at most 2112, as blocks of
/// ADPCM that a script makes have at most 2048; a file that is open at the end is closed with as many more. A
/// write of v numbers writes at most `4 v + 2120`. Other commands ask and write as much as `Session::step` says.
///
/// Where there is a name to be pinned, `open u` of it and `auto on` come before the script and are answered
/// like its commands. The file stays open to the end: commands that would open or close a file, or say
/// whether it is updated automatically, are refused as `Pinned` and ask and write nothing. Where one of the
/// two is refused, no byte of the script is taken. Beside the lines the file asks at most 16384 bytes, and
/// writes at most 128. Where a crash leaves its bytes alone at the start, and these are fit for it, what a
/// crash leaves at any moment since then opens, with the frames of one of two states of the script that
/// follow each other; the states come in their order, and the replies so far tell how far they came.
pub fn serve<S: Shelf, R: Source, O: Sink>(
    alloc: Global,
    shelf: &mut S,
    script: &mut R,
    out: &mut O,
    taps: Vec<Box<dyn Tap>>,
    pinned: Option<&str>,
) -> ScriptEnd
    requires { (n : List ℕ) → (S.state shelf.old).out n ≡ false }
    ensures served { ServesScript S.state R.left R.faults O.told O.faults (map (λ b. (meter b).kind) taps.items) (named pinned.entry) result shelf.old script.old out.old shelf.new script.new out.new }
    ensures fault { RisesAtFault S.state R.faults O.faults result shelf.old script.old out.old shelf.new script.new out.new }
    ensures unread { LeavesScript S.state (named pinned.entry) shelf.old script.old script.new }
    ensures taken { R.given script.new ≤ R.given script.old + 16777217 }
    ensures leaves { LeavesShelf S.state S.left_between shelf.old shelf.new }
    ensures bounds { BoundsScript S.state R.left (named pinned.entry) shelf.old script.old shelf.new }
    ensures trail { TrailsScript S.Shelf R.Source O.Sink (map (λ b. (meter b).kind) taps.items) (named pinned.entry) shelf.old script.old out.old shelf.new out.new }
    ensures images { KeepsUnnamed S.state S.may_leave S.left_between R.left (named pinned.entry) shelf.old script.old shelf.new }
{
    let Ok(session) = Session::new(alloc, taps) else {
        return ScriptEnd::Memory;
    };
    let mut run = Run {
        lines: ScriptLines::new(),
        session,
        refused: false,
    };
    let stop = serve_run(alloc, shelf, script, out, &mut run, pinned);
    end_at(stop, run.refused)
}

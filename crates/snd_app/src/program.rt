//! What the program does with its words.

ghost use Rattle.std.specs.Prelude.{◌≡◌, ◌≤◌, ◌+◌, List, ℕ, IfOk, None, Some, [], false, length, map, true};
ghost use Rattle.snd_disk.specs.Shelf.{KeepsFiles};
ghost use Rattle.snd_script.specs.Served.{BoundsScript, KeepsUnnamed, LeavesScript, LeavesShelf};
ghost use Rattle.snd_script.specs.PinnedRun.{named};
ghost use Rattle.snd_script.specs.Trail.{TrailsScript};
ghost use Rattle.snd_app.specs.Look.{OnlyLooks};
ghost use Rattle.snd_app.specs.Tools.{AsksForWork};
ghost use Rattle.snd_words.specs.Asked.{Asked, Work};
ghost use Rattle.snd_words.specs.Grammar.{asked};
ghost use Rattle.snd_deinterleave.specs.Among.{ChangesAmong};
ghost use Rattle.snd_tools.specs.Shelves.{IsAllIn};
ghost use Rattle.snd_app.specs.Outcome.{files_after, looks_for, names_for, outcome, outcome_of_info, outcome_of_infos, outputs_for, pinned_for, runs_script, text_of};
ghost use Rattle.snd_app.specs.Printed.{bad_words};
ghost use Rattle.snd_app.specs.Run.{DescribesAs, DescribingFaultRises, DoneAtStream, EndsAs, FaultRises, IsCalm, KeepsAllImages, RunsAs, RunsScript, StopsAs};

use crate::help::{usage, usage_of, version};
use crate::info::{describe, refuse};
use crate::look::{Found, look};
use crate::put::{FAULT, NO_MEMORY, put_text};
use crate::tools::run_tool;
use snd_disk::{Shelf, Sink, Source};
use snd_fields::Words;
use snd_lines::Refusal;
use snd_output::Stop;
use snd_rack::Stage;
use snd_script::{ScriptEnd, serve};
use snd_taps::Tap;
use snd_words::{Names, Request, request_of};
use std::alloc::{AllocError, Global};

/// What is printed of what was found.
fn text_for(alloc: Global, name: &str, found: &Found) -> Result<Vec<u8>, AllocError>
    ensures { IfOk result (λ text. text.items ≡ text_of name.now found.now) }
{
    match found {
        Found::Missing => refuse(alloc, name, Refusal::MissingFile),
        Found::Refused(refusal) => refuse(alloc, name, Refusal::Open(*refusal)),
        Found::Sound(layout, texts) => describe(alloc, name, layout, texts),
    }
}

/// Describes the file of a name on `out`, or says on `err` why not.
fn run_info<S: Shelf, O: Sink, E: Sink>(
    alloc: Global,
    name: &str,
    shelf: &mut S,
    out: &mut O,
    err: &mut E,
) -> u8
    requires { IsAllIn (S.state shelf.old) }
    ensures outcome { DescribesAs S.Shelf O.Sink E.Sink (outcome_of_info name.now)
        shelf.old out.old err.old shelf.new out.new err.new result }
    ensures fault { result ≡ 3 →
        DescribingFaultRises S.Shelf O.Sink E.Sink shelf.old out.old err.old shelf.new out.new err.new }
    ensures calm { (result ≡ 3 → ⊥) →
        IsCalm S.Shelf O.Sink E.Sink shelf.old out.old err.old shelf.new out.new err.new }
    ensures back { IsAllIn (S.state shelf.new) }
    ensures files { KeepsFiles (S.state shelf.old) (S.state shelf.new) }
    ensures images { KeepsAllImages S.Shelf shelf.old shelf.new }
    ensures looks { OnlyLooks 1 (S.state shelf.old) (S.state shelf.new) }
{
    let found = match look(alloc, shelf, name) {
        Ok(found) => found,
        Err(Stop::Fault) => return FAULT,
        Err(Stop::Memory) => return NO_MEMORY,
        Err(Stop::Changed) => return NO_MEMORY,
    };
    let Ok(text) = text_for(alloc, name, &found) else {
        return NO_MEMORY;
    };
    if found.is_refused() {
        put_text(err, &text, 1)
    } else {
        put_text(out, &text, 0)
    }
}

/// Describes the files of names, one after the other, and answers the greatest status; a fault or want of
/// memory ends it.
fn run_infos<S: Shelf, O: Sink, E: Sink>(
    alloc: Global,
    names: &Names<'_>,
    shelf: &mut S,
    out: &mut O,
    err: &mut E,
) -> u8
    requires { IsAllIn (S.state shelf.old) }
    ensures outcome { DescribesAs S.Shelf O.Sink E.Sink (outcome_of_infos names.now)
        shelf.old out.old err.old shelf.new out.new err.new result }
    ensures fault { result ≡ 3 →
        DescribingFaultRises S.Shelf O.Sink E.Sink shelf.old out.old err.old shelf.new out.new err.new }
    ensures back { IsAllIn (S.state shelf.new) }
    ensures files { KeepsFiles (S.state shelf.old) (S.state shelf.new) }
    ensures images { KeepsAllImages S.Shelf shelf.old shelf.new }
    ensures looks { OnlyLooks (length names.now) (S.state shelf.old) (S.state shelf.new) }
{
    let mut status = 0;
    for at in 0..names.len() {
        let Some(name) = names.get(at) else {
            unreachable!();
        };
        let one = run_info(alloc, name, shelf, out, err);
        let stops = FAULT <= one;
        if stops {
            return one;
        }
        status = one.max(status);
    }
    status
}

/// Carries out a script, with its replies on `out`, and with the file of a name pinned where there is one.
fn run_script<S: Shelf, R: Source, O: Sink, E: Sink>(
    alloc: Global,
    pinned: Option<&str>,
    shelf: &mut S,
    script: &mut R,
    out: &mut O,
    err: &mut E,
    taps: Vec<Box<dyn Tap>>,
) -> u8
    requires { IsAllIn (S.state shelf.old) }
    ensures outcome { RunsScript S.Shelf R.Source O.Sink E.Sink (map (λ b. (meter b).kind) taps.items) (named pinned.entry)
        shelf.old script.old out.old err.old shelf.new script.new out.new err.new result }
    ensures stops { StopsAs S.Shelf R.Source O.Sink E.Sink (map (λ b. (meter b).kind) taps.items) (named pinned.entry)
        shelf.old script.old out.old err.old shelf.new script.new out.new err.new result }
    ensures fault { result ≡ 3 → FaultRises S.Shelf R.Source O.Sink E.Sink
        shelf.old script.old out.old err.old shelf.new script.new out.new err.new }
    ensures unread { LeavesScript S.state (named pinned.entry) shelf.old script.old script.new }
    ensures taken { R.given script.new ≤ R.given script.old + 16777217 }
    ensures bounds { BoundsScript S.state R.left (named pinned.entry) shelf.old script.old shelf.new }
    ensures crash { TrailsScript S.Shelf R.Source O.Sink (map (λ b. (meter b).kind) taps.items) (named pinned.entry)
        shelf.old script.old out.old shelf.new out.new }
    ensures leaves { LeavesShelf S.state S.left_between shelf.old shelf.new }
    ensures unnamed { KeepsUnnamed S.state S.may_leave S.left_between R.left (named pinned.entry) shelf.old script.old shelf.new }
{
    match serve(alloc, shelf, script, out, taps, pinned) {
        ScriptEnd::Done { refused } => u8::from(refused),
        ScriptEnd::TooLong => put_text(err, b"snd: script too long\n", 2),
        ScriptEnd::Fault => FAULT,
        ScriptEnd::Memory => NO_MEMORY,
    }
}

/// Carries out the words of a command line, and answers the status that the program ends with.
///
/// The words `info NAME..` describe 1 to 64 files, and `script` carries out the commands that come from
/// `script`, one a line; with `script --auto NAME` the file of the name is open in all of them, and updated
/// automatically. The boxes of `taps` wait in their order for a script's `tap`. `convert OPTION.. IN OUT` copies
/// a file into another container or codec; with `-rack=SPEC` its frames pass boxes of `stages` on the way, of which
/// the first unused one of its kind serves each item. Every other box is dropped as it came. `import` and `export`
/// take samples without a head, PVF and VOX in and out. `salvage` makes a WAVE file of what is left in a file.
/// `deinterleave` makes a file of each channel of one. `--help`, `COMMAND --help` and `--version` print a text on
/// `out`. Any other words are refused. Beside the statuses 0, 1 and 2 that the outcome has, 3 says that the shelf, the
/// script or a sink failed, and 4 that memory ran out.
pub fn run<S: Shelf, R: Source, O: Sink, E: Sink>(
    alloc: Global,
    words: &Words,
    shelf: &mut S,
    script: &mut R,
    out: &mut O,
    err: &mut E,
    taps: Vec<Box<dyn Tap>>,
    stages: Vec<Box<dyn Stage>>,
) -> u8
    requires { IsAllIn (S.state shelf.old) }

    // The headline: over files and a script that are told, the run is the outcome of the words, the
    // files and the script, and it leaves the files that these give.
    ensures headline { RunsAs S.Shelf R.Source O.Sink E.Sink
        (outcome words.now (map (λ b. (meter b).kind) taps.items) (map (λ b. (stage b).kind) stages.items))
        (files_after words.now (map (λ b. (meter b).kind) taps.items) (map (λ b. (stage b).kind) stages.items))
        shelf.old script.old out.old err.old shelf.new script.new out.new err.new result }

    // Its other half: over a shelf, a script and `out` that are told, whatever a crash leaves at any moment
    // of the file that is pinned, where that is synced and fit at the start, opens with its parameters and its
    // further chunks, with the frames of one of two states of the script that follow each other, and with
    // every frame that is not written between these; the states come in their order, as far as `out` shows.
    ensures crash { TrailsScript S.Shelf R.Source O.Sink (map (λ b. (meter b).kind) taps.items) (pinned_for words.now)
        shelf.old script.old out.old shelf.new out.new }

    // Where a script was not carried out whole: which replies there are, and which files.
    ensures stops { runs_script words.now ≡ true → StopsAs S.Shelf R.Source O.Sink E.Sink
        (map (λ b. (meter b).kind) taps.items) (pinned_for words.now)
        shelf.old script.old out.old err.old shelf.new script.new out.new err.new result }

    // Words that are refused need no file and no script.
    ensures bad_words { asked words.now ≡ Asked.nothing → EndsAs S.Shelf R.Source O.Sink E.Sink bad_words
        shelf.old script.old out.old err.old shelf.new script.new out.new err.new result }

    // Also over files and scripts that are not told.
    ensures fault { result ≡ 3 → FaultRises S.Shelf R.Source O.Sink E.Sink
        shelf.old script.old out.old err.old shelf.new script.new out.new err.new }

    // A script that never ends is no exception. Nothing is taken of it where the pinned file is refused.
    ensures taken { R.given script.new ≤ R.given script.old + 16777217 }
    ensures unread { LeavesScript S.state (pinned_for words.now) shelf.old script.old script.new }

    // Every file that was taken is given back, none is gone, and time has gone on for each. Without a
    // script and a tool no file changes, nor what a crash may leave of one, and few bytes are asked of one.
    ensures leaves { LeavesShelf S.state S.left_between shelf.old shelf.new }
    ensures files { looks_for words.now ≡ true → KeepsFiles (S.state shelf.old) (S.state shelf.new) }
    ensures images { looks_for words.now ≡ true → KeepsAllImages S.Shelf shelf.old shelf.new }
    ensures looks { looks_for words.now ≡ true →
        OnlyLooks (length (names_for words.now)) (S.state shelf.old) (S.state shelf.new) }

    // With a tool, so does each file but those that it makes; where a stream failed and no file did, these
    // are made, or one was refused, as the outcome says; and where it has inputs, no more bytes are asked than it
    // takes to read them twice, of a file that is salvaged twenty times, of one that is split once for each file
    // that is made, and a fixed number for each.
    ensures others { (names : List (List ℕ)) → outputs_for words.now ≡ Some names → ChangesAmong S.Shelf names shelf.old shelf.new }
    ensures done { (names : List (List ℕ)) → outputs_for words.now ≡ Some names →
        DoneAtStream S.state (λ files. files_after words.now (map (λ b. (meter b).kind) taps.items) (map (λ b. (stage b).kind) stages.items) files [])
        shelf.old shelf.new result }
    ensures asks { (work : Work) → asked words.now ≡ Asked.tool work → AsksForWork S.state work shelf.old shelf.new }

    // With a script, so does a file that no line opens to be written, and that is not pinned; and no more bytes
    // are asked of the files and written than the lines may.
    ensures unnamed { outputs_for words.now ≡ None →
        KeepsUnnamed S.state S.may_leave S.left_between R.left (pinned_for words.now) shelf.old script.old shelf.new }
    ensures bounds { runs_script words.now ≡ true → BoundsScript S.state R.left (pinned_for words.now) shelf.old script.old shelf.new }
{
    match request_of(words) {
        Some(Request::Info(names)) => run_infos(alloc, &names, shelf, out, err),
        Some(Request::Script(pinned)) => run_script(alloc, pinned, shelf, script, out, err, taps),
        Some(Request::Help) => put_text(out, usage().as_bytes(), 0),
        Some(Request::HelpOn(topic)) => put_text(out, usage_of(topic).as_bytes(), 0),
        Some(Request::Version) => put_text(out, version().as_bytes(), 0),
        Some(Request::Tool(tool)) => run_tool(alloc, &tool, shelf, out, err, stages),
        None => put_text(err, b"snd: bad words\n", 2),
    }
}

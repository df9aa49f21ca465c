//! The lines of a script while no file is open.

ghost use Rattle.std.specs.Prelude.{◌≡◌, ◌≤◌, List, ℕ, Some, false, true, OnOk};
ghost use Rattle.snd_command.specs.Forms.{is_name};
ghost use Rattle.snd_command.specs.Line.{command_of};
ghost use Rattle.snd_command.specs.Said.{said_of};
ghost use Rattle.snd_layout.specs.Params.{params_of};
ghost use Rattle.snd_rules.specs.Desk.{closed_desk};
ghost use Rattle.snd_rules.specs.Edit.{edit_closed, edit_line};
ghost use Rattle.snd_rules.specs.SmallBlocks.{HasSmallBlocks};
ghost use Rattle.snd_script.specs.Kept.{KeepsUnless, LeavesLines, how_writes};
ghost use Rattle.snd_script.specs.Opened.{IsMakeable, is_making, MakesOf, most_made, opens_edit};
ghost use Rattle.snd_rules.specs.Script.{asked_by, by_command, by_writing, writes_name, written_by};
ghost use Rattle.snd_script.specs.Used.{UsesOn, most_asked};
ghost use Rattle.snd_script.specs.Served.{LeavesShelf};
ghost use Rattle.snd_script.specs.Serving.{CountsRun, ServesLine, TakesLines};
ghost use Rattle.snd_rules.specs.Work.{name_of};

use crate::open::OpenAs;
use crate::opening::serve_disk;
use crate::reader::Line;
use crate::run::Run;
use crate::stop::Stop;
use snd_command::Command;
use snd_container::fit;
use snd_disk::{Shelf, ShelfFault, Sink, Source};
use snd_layout::{Codec, Kind, OpenRefusal, Params};
use snd_lines::Refusal;
use snd_rules::{Work, line_refusal, work_of};
use snd_taps::Tap;
use std::alloc::Global;
use std::str;

// A name as text.
fn name_text(name: &[u8]) -> &str
    requires { is_name name.now ≡ true }
    ensures { result.now ≡ name.now }
{
    match str::from_utf8(name) {
        Ok(text) => text,
        Err(_) => unreachable!(),
    }
}

fn is_making(how: &OpenAs) -> bool
    ensures { result ≡ is_making how.now }
{
    matches!(how, OpenAs::Make(..))
}

// Opens the file of a name and serves it. The shelf has it back in every case.
fn serve_name<S: Shelf, R: Source, O: Sink>(
    alloc: Global,
    name: &[u8],
    how: &OpenAs,
    shelf: &mut S,
    script: &mut R,
    out: &mut O,
    run: &mut Run,
) -> Result<(), Stop>
    requires back { (S.state shelf.old).out name.now ≡ false }
    requires named { is_name name.now ≡ true }
    requires makeable { IsMakeable how.now }
    ensures served { ServesLine (λ b. meter b) S.state R.left O.told (λ store. opens_edit store name.now how.now) result shelf.old run.old script.old out.old shelf.new run.new script.new out.new }
    ensures fewer { OnOk result (run.new.lines.room ≤ run.old.lines.room) }
    ensures given { TakesLines R.given run.old script.old run.new script.new }
    ensures counted { CountsRun S.state R.faults O.faults result shelf.old script.old out.old shelf.new script.new out.new }
    ensures shelf { LeavesShelf S.state S.left_between shelf.old shelf.new }
    ensures asked { UsesOn (λ s. (S.state s).asked) R.left result asked_by (most_asked how.now) shelf.old run.old script.old shelf.new run.new script.new }
    ensures written { UsesOn (λ s. (S.state s).written) R.left result written_by (most_made how.now) shelf.old run.old script.old shelf.new run.new script.new }
    ensures tail { LeavesLines R.left result run.old script.old run.new script.new }
    ensures images { KeepsUnless S.Shelf (how_writes how.now name.now) shelf.old shelf.new }
{
    let text = name_text(name);
    let mut disk = match shelf.take(text, is_making(how)) {
        Ok(disk) => disk,
        Err(ShelfFault::Missing) => return run.refuse(Refusal::MissingFile, out),
        Err(ShelfFault::Failed) => return Err(Stop::File),
        Err(ShelfFault::Memory) => return Err(Stop::Memory),
    };
    let served = serve_disk(alloc, &mut disk, how, script, out, run);
    shelf.give(text, disk);
    served
}

// The parameters of a file that is to be made, where its kind holds them.
fn params_for(kind: Kind, codec: Codec, channels: u64, rate: u64) -> Result<Params, OpenRefusal>
    requires small { HasSmallBlocks channels codec }
    ensures made { MakesOf kind (params_of channels rate codec) result }
{
    let params = Params::new(channels, rate, codec)?;
    fit(kind, params)?;
    Ok(params)
}

// One command while no file is open. A file that it opens is served up to its close.
fn closed_command<S: Shelf, R: Source, O: Sink>(
    alloc: Global,
    said: Command<'_>,
    shelf: &mut S,
    script: &mut R,
    out: &mut O,
    run: &mut Run,
) -> Result<(), Stop>
    requires back { (n : List ℕ) → (S.state shelf.old).out n ≡ false }
    requires named { (name : List ℕ) → name_of (said_of said) ≡ Some name → is_name name ≡ true }
    ensures served { ServesLine (λ b. meter b) S.state R.left O.told (λ store. edit_closed store (said_of said.entry)) result shelf.old run.old script.old out.old shelf.new run.new script.new out.new }
    ensures fewer { OnOk result (run.new.lines.room ≤ run.old.lines.room) }
    ensures given { TakesLines R.given run.old script.old run.new script.new }
    ensures counted { CountsRun S.state R.faults O.faults result shelf.old script.old out.old shelf.new script.new out.new }
    ensures shelf { LeavesShelf S.state S.left_between shelf.old shelf.new }
    ensures asked { UsesOn (λ s. (S.state s).asked) R.left result asked_by (asked_by (said_of said.entry)) shelf.old run.old script.old shelf.new run.new script.new }
    ensures written { UsesOn (λ s. (S.state s).written) R.left result written_by (written_by (said_of said.entry)) shelf.old run.old script.old shelf.new run.new script.new }
    ensures tail { LeavesLines R.left result run.old script.old run.new script.new }
    ensures images { KeepsUnless S.Shelf (writes_name (said_of said.entry)) shelf.old shelf.new }
{
    match work_of(said) {
        Work::Open(name) => serve_name(alloc, name, &OpenAs::Read, shelf, script, out, run),
        Work::Update(name) => serve_name(alloc, name, &OpenAs::Update, shelf, script, out, run),
        Work::Make(kind, codec, channels, rate, name) => {
            match params_for(kind, codec, channels, rate) {
                Ok(params) => {
                    let how = OpenAs::Make(kind, params);
                    serve_name(alloc, name, &how, shelf, script, out, run)
                }
                Err(refusal) => run.refuse(Refusal::Open(refusal), out),
            }
        }
        Work::Close
        | Work::Tell
        | Work::SeekRead(_)
        | Work::SeekWrite(_)
        | Work::SeekBoth(_)
        | Work::Read(_)
        | Work::Write(_)
        | Work::Truncate(_)
        | Work::Trim
        | Work::BringUp
        | Work::Auto(_)
        | Work::Set(_)
        | Work::Ask(_)
        | Work::Tap(_)
        | Work::Untap(_)
        | Work::Promote => run.refuse(Refusal::NotOpen, out),
    }
}

/// One line while no file is open. A file that it opens is served up to its close, or to where the
/// run stops, and the shelf has it back in every case.
pub fn closed_line<S: Shelf, R: Source, O: Sink>(
    alloc: Global,
    line: &mut Line,
    shelf: &mut S,
    script: &mut R,
    out: &mut O,
    run: &mut Run,
) -> Result<(), Stop>
    requires { (n : List ℕ) → (S.state shelf.old).out n ≡ false }
    ensures served { ServesLine (λ b. meter b) S.state R.left O.told (λ store. edit_line (closed_desk store) line.old) result shelf.old run.old script.old out.old shelf.new run.new script.new out.new }
    ensures fewer { OnOk result (run.new.lines.room ≤ run.old.lines.room) }
    ensures given { TakesLines R.given run.old script.old run.new script.new }
    ensures counted { CountsRun S.state R.faults O.faults result shelf.old script.old out.old shelf.new script.new out.new }
    ensures shelf { LeavesShelf S.state S.left_between shelf.old shelf.new }
    ensures asked { UsesOn (λ s. (S.state s).asked) R.left result asked_by (by_command asked_by (command_of line.old)) shelf.old run.old script.old shelf.new run.new script.new }
    ensures written { UsesOn (λ s. (S.state s).written) R.left result written_by (by_command written_by (command_of line.old)) shelf.old run.old script.old shelf.new run.new script.new }
    ensures tail { LeavesLines R.left result run.old script.old run.new script.new }
    ensures images { KeepsUnless S.Shelf (by_writing (command_of line.old)) shelf.old shelf.new }
{
    match line.says() {
        Ok(None) => Ok(()),
        Ok(Some(said)) => closed_command(alloc, said, shelf, script, out, run),
        Err(refusal) => run.refuse(line_refusal(refusal), out),
    }
}

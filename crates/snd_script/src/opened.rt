//! The lines of a script while a file is open.

ghost use Rattle.std.specs.Prelude.{◌≡◌, ◌≤◌, List, ℕ, None, Ok, OnOk, false, true};
ghost use Rattle.snd_command.specs.Line.{command_of};
ghost use Rattle.snd_command.specs.Said.{said_of};
ghost use Rattle.snd_rules.specs.Desk.{updating};
ghost use Rattle.snd_session.specs.Handled.{handle_known, IsSmall, LeavesHandle, mode_of};
ghost use Rattle.snd_script.specs.Kept.{LeavesLines};
ghost use Rattle.snd_rules.specs.Script.{asked_by, most_in, written_in};
ghost use Rattle.snd_rules.specs.Rules.{is_close};
ghost use Rattle.snd_script.specs.declared.stop.Next.TheVariants as next;
ghost use Rattle.snd_script.specs.Used.{CommandAsks, CommandWrites, LineAsks, LineWrites, UsesOpen};
ghost use Rattle.snd_script.specs.Tapped.{taps_of};
ghost use Rattle.snd_script.specs.Trail.{CommandMoves, IsIdle, LineMoves, TrailsOpen};
ghost use Rattle.snd_script.specs.Serving.{AnswersOpen, CountsHandle, CountsLine, IsWhole, ServesOpen, TakesLines, edit_open_line, edit_open_said};

use crate::reader::Line;
use crate::run::Run;
use crate::stop::{Next, Stop};
use snd_command::Command;
use snd_disk::{Disk, Sink, Source};
use snd_rules::{held_refusal, line_refusal};
use snd_session::Handle;
use snd_taps::Tap;

// One command on an open file. Closing is left to the caller.
fn open_command<'d, D: Disk, O: Sink>(
    said: Command<'_>,
    handle: &mut Handle<'d, D>,
    stays: bool,
    out: &mut O,
    run: &mut Run,
) -> Result<Next, Stop>
    requires working { (handle_known handle.old).broken ≡ None }
    requires updated { stays ≡ true → mode_of handle.old ≡ updating }
    requires small { IsSmall handle.old }
    ensures answered { (name : List ℕ) → AnswersOpen (λ b. meter b) D.state O.told name stays (edit_open_said (said_of said.entry)) result handle.old run.old out.old handle.new run.new out.new }
    ensures lines { run.new.lines ≡ run.old.lines }
    ensures whole { IsWhole result (handle_known handle.new).broken }
    ensures counted { CountsLine D.state O.faults result handle.old out.old handle.new out.new }
    ensures leaves { LeavesHandle D.state D.may_leave D.left_between handle.old handle.new }
    ensures moves { CommandMoves D.Disk (taps_of (λ b. meter b) run.old) stays (said_of said.entry) result handle.old handle.new }
    ensures asked { CommandAsks D.Disk stays result (said_of said.entry) handle.old handle.new }
    ensures written { CommandWrites D.Disk stays result (said_of said.entry) handle.old handle.new }
    ensures closes { result ≡ Ok next.Close → stays ≡ false }
{
    if let Some(refusal) = held_refusal(stays, said) {
        run.refuse(refusal, out)?;
        return Ok(Next::Open);
    }
    if is_close(said) {
        return Ok(Next::Close);
    }
    run.step(handle, said, out)?;
    Ok(Next::Open)
}

// One line while a file is open. Closing is left to the caller.
fn open_line<'d, D: Disk, O: Sink>(
    line: &mut Line,
    handle: &mut Handle<'d, D>,
    stays: bool,
    out: &mut O,
    run: &mut Run,
) -> Result<Next, Stop>
    requires working { (handle_known handle.old).broken ≡ None }
    requires updated { stays ≡ true → mode_of handle.old ≡ updating }
    requires small { IsSmall handle.old }
    ensures answered { (name : List ℕ) → AnswersOpen (λ b. meter b) D.state O.told name stays (edit_open_line line.old) result handle.old run.old out.old handle.new run.new out.new }
    ensures lines { run.new.lines ≡ run.old.lines }
    ensures whole { IsWhole result (handle_known handle.new).broken }
    ensures counted { CountsLine D.state O.faults result handle.old out.old handle.new out.new }
    ensures leaves { LeavesHandle D.state D.may_leave D.left_between handle.old handle.new }
    ensures moves { LineMoves D.Disk (taps_of (λ b. meter b) run.old) stays line.old result handle.old handle.new }
    ensures idle { IsIdle line.old result handle.old handle.new }
    ensures asked { LineAsks D.Disk stays result (command_of line.old) handle.old handle.new }
    ensures written { LineWrites D.Disk stays result (command_of line.old) handle.old handle.new }
    ensures closes { result ≡ Ok next.Close → stays ≡ false }
{
    match line.says() {
        Ok(None) => Ok(Next::Open),
        Ok(Some(said)) => open_command(said, handle, stays, out, run),
        Err(refusal) => {
            run.refuse(line_refusal(refusal), out)?;
            Ok(Next::Open)
        }
    }
}

/// Carries out lines on an open file up to one that closes it, which is left to the caller, or to
/// where the run stops. A file that is to stay open is not closed by a line.
pub fn serve_open<'d, D: Disk, R: Source, O: Sink>(
    handle: &mut Handle<'d, D>,
    stays: bool,
    script: &mut R,
    out: &mut O,
    run: &mut Run,
) -> Result<(), Stop>
    requires working { (handle_known handle.old).broken ≡ None }
    requires updated { stays ≡ true → mode_of handle.old ≡ updating }
    requires small { IsSmall handle.old }
    ensures served { (name : List ℕ) → ServesOpen (λ b. meter b) D.state R.left O.told name stays result handle.old run.old script.old out.old handle.new run.new script.new out.new }
    ensures fewer { OnOk result (run.new.lines.room ≤ run.old.lines.room) }
    ensures given { TakesLines R.given run.old script.old run.new script.new }
    ensures whole { IsWhole result (handle_known handle.new).broken }
    ensures counted { CountsHandle D.state R.faults O.faults result handle.old script.old out.old handle.new script.new out.new }
    ensures leaves { LeavesHandle D.state D.may_leave D.left_between handle.old handle.new }
    ensures trail { TrailsOpen (λ b. meter b) D.Disk R.Source O.Sink stays handle.old run.old script.old out.old handle.new out.new }
    ensures asked { UsesOpen (λ d. (D.state d).asked) R.left result (most_in stays asked_by) handle.old run.old script.old handle.new run.new script.new }
    ensures written { UsesOpen (λ d. (D.state d).written) R.left result (written_in stays) handle.old run.old script.old handle.new run.new script.new }
    ensures tail { LeavesLines R.left result run.old script.old run.new script.new }
    ensures closes { OnOk result (stays ≡ false) }
{
    let mut line = Line::new();
    loop {
        run.next(script, &mut line)?;
        match open_line(&mut line, handle, stays, out, run)? {
            Next::Open => {}
            Next::Close => return Ok(()),
        }
    }
}

// Whether a command closes the file.
fn is_close(said: Command<'_>) -> bool
    ensures { result ≡ is_close (said_of said.entry) }
{
    matches!(said, Command::Close)
}

//! A run over a script, and what it does for one line.

ghost use Rattle.std.specs.Prelude.{◌≡◌, ◌<◌, ◌≤◌, Bool, List, ℕ, false, None, OnOk};
ghost use Rattle.snd_rules.specs.Rules.{is_close, most_on};
ghost use Rattle.snd_command.specs.Said.{said_of};
ghost use Rattle.snd_session.specs.Handled.{handle_known, mode_of, HandleAsks, HandleWrites, IsSmall, LeavesHandle};
ghost use Rattle.snd_rules.specs.Replies.{refuses};
ghost use Rattle.snd_rules.specs.Script.{asked_by, written_on};
ghost use Rattle.snd_script.specs.Tapped.{taps_of};
ghost use Rattle.snd_script.specs.Trail.{StepMoves};
ghost use Rattle.snd_script.specs.Serving.{IsScriptCounted, IsSinkCounted, IsWhole, Answers, CountsLine, TakesLines, BringsLine, AnswersStep};

use crate::reader::{Line, NextLine, ScriptLines};
use crate::stop::Stop;
use snd_command::Command;
use snd_disk::{Disk, Sink, Source};
use snd_lines::Refusal;
use snd_rules::{Reply, StepFault, put_refusal};
use snd_session::{Handle, Session};
use snd_taps::Tap;

/// A run over a script: its lines, what is used again from command to command, and whether a line was
/// refused so far.
#[derive(Drop)]
pub struct Run {
    pub(crate) lines: ScriptLines,
    pub(crate) session: Session,
    pub(crate) refused: bool,
}

impl Run {
    /// Reads on to the next line, of which at most the first 4097 bytes are kept.
    pub fn next<R: Source>(&mut self, script: &mut R, line: &mut Line) -> Result<(), Stop>
        ensures brought { BringsLine R.left result line.new self.old script.old self.new script.new }
        ensures fewer { OnOk result (self.new.lines.room < self.old.lines.room) }
        ensures given { TakesLines R.given self.old script.old self.new script.new }
        ensures noted { self.new.refused ≡ self.old.refused }
        ensures taps { taps_of (λ b. meter b) self.new ≡ taps_of (λ b. meter b) self.old }
        ensures faults { IsScriptCounted result (R.faults script.old) (R.faults script.new) }
    {
        match self.lines.next_line(script, line) {
            Ok(NextLine::Line) => Ok(()),
            Ok(NextLine::End) => Err(Stop::Ended),
            Ok(NextLine::TooLong) => Err(Stop::TooLong),
            Err(_) => Err(Stop::Script),
        }
    }

    /// Answers a line with a refusal.
    pub fn refuse<O: Sink>(&mut self, refusal: Refusal, out: &mut O) -> Result<(), Stop>
        ensures answered { Answers O.told (refuses refusal) result self.old out.old self.new out.new }
        ensures lines { self.new.lines ≡ self.old.lines }
        ensures taps { taps_of (λ b. meter b) self.new ≡ taps_of (λ b. meter b) self.old }
        ensures faults { IsSinkCounted result (O.faults out.old) (O.faults out.new) }
    {
        self.refused = true;
        match put_refusal(out, refusal) {
            Ok(()) => Ok(()),
            Err(_) => Err(Stop::Sink),
        }
    }

    /// Carries out a command on an open file, and answers it.
    pub fn step<'d, D: Disk, O: Sink>(
        &mut self,
        handle: &mut Handle<'d, D>,
        said: Command<'_>,
        out: &mut O,
    ) -> Result<(), Stop>
        requires whole { (handle_known handle.old).broken ≡ None }
        requires step { is_close (said_of said) ≡ false }
        requires small { IsSmall handle.old }
        ensures answered { (name : List ℕ) (stays : Bool) → AnswersStep (λ b. meter b) D.state O.told name stays (said_of said.entry) result handle.old self.old out.old handle.new self.new out.new }
        ensures lines { self.new.lines ≡ self.old.lines }
        ensures whole { IsWhole result (handle_known handle.new).broken }
        ensures counted { CountsLine D.state O.faults result handle.old out.old handle.new out.new }
        ensures leaves { LeavesHandle D.state D.may_leave D.left_between handle.old handle.new }
        ensures moves { StepMoves D.Disk (taps_of (λ b. meter b) self.old) (said_of said.entry) result handle.old handle.new }
        ensures asked { HandleAsks D.state (most_on (mode_of handle.old) asked_by (said_of said.entry)) handle.old handle.new }
        ensures written { HandleWrites D.state (written_on (mode_of handle.old) (said_of said.entry)) handle.old handle.new }
    {
        match self.session.carry_out(handle, said, out) {
            Ok(Reply::Ok) => Ok(()),
            Ok(Reply::Refused(_)) => {
                self.refused = true;
                Ok(())
            }
            Err(StepFault::Disk) => Err(Stop::File),
            Err(StepFault::Out) => Err(Stop::Sink),
            Err(StepFault::Memory) => Err(Stop::Memory),
        }
    }
}

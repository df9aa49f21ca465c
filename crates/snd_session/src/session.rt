//! Commands on an open file.

ghost use Rattle.std.specs.Prelude.{◌≡◌, false, None, IfErr, IfOk, map};
ghost use Rattle.snd_command.specs.Said.{said_of};
ghost use Rattle.snd_meters.specs.Gauge.{waiting};
ghost use Rattle.snd_meters.specs.Gauges.{after_rest};
ghost use Rattle.snd_file.specs.Handle.{loan_of};
ghost use Rattle.snd_rules.specs.Desk.{writes};
ghost use Rattle.snd_session.specs.Handled.{AsksByRule, BeginsAtRest, CountsStep, FeedsTaps, FinishesAs, FinishesSafely, IsFinishCause, KnowsAfter, LacksMemory, LeavesDisk, LeavesHandle, LeavesOpen, OnlyChanges, RepliesKnown, SaysReply, Steps, StepsSafely, StepsToRest, WritesByRule, back_of, handle_disk, handle_known, handle_loan, mode_of, most_finished};
ghost use Rattle.snd_rules.specs.Stepped.{IsSilent};
ghost use Rattle.snd_rules.specs.Rules.{is_close};
ghost use Rattle.snd_session.specs.Tapped.{meter_taps, session_taps};
ghost use Rattle.snd_session.specs.Follows.{ClosesAs};
ghost use Rattle.snd_disk.specs.Device.{WritesAtMost};

use crate::handle::Handle;
use crate::room::Room;
use crate::step::{step_blocks, step_made, step_read, step_update};
use arrayvec::ArrayVec;
use snd_command::Command;
use snd_disk::{Disk, Sink, Step};
use snd_edits::Mode;
use snd_file::File;
use snd_meters::Meters;
use snd_rules::{Reply, StepFault, work_of};
use snd_taps::Tap;
use std::alloc::{AllocError, Global};

/// What is used again from command to command: room for samples, and for the text of a reply; and the taps,
/// which see each frame that is read.
#[derive(Drop)]
pub struct Session {
    room: Room,
    meters: Meters,
}

impl Session {
    /// A session for any number of files, one after the other. All of its taps wait. Where there is no
    /// memory for their list, they are dropped.
    pub fn new(alloc: Global, taps: Vec<Box<dyn Tap>>) -> Result<Session, AllocError>
        ensures { IfOk result (λ s. session_taps (λ b. (⟦<dyn Tap as Tap>⟧ b.0).meter b.1) s ≡ map (λ b. waiting (meter b).kind) taps.items) }
    {
        let meters = wait_all(alloc, taps)?;
        Ok(Session {
            room: Room {
                alloc,
                samples: Vec::new(alloc),
                page: ArrayVec::new(),
            },
            meters,
        })
    }

    /// Carries out one command on an open file, and appends its reply to the sink: `ok` lines, or the
    /// line of a refusal, whose number is the answer. The handle may not be broken, and the command may
    /// not close the file. A refused command leaves what the handle knows, the disk, and the taps.
    ///
    /// A `tap` starts the first tap of its kind that waits, and an `untap` drops the one that is on. Each frame
    /// that a `read` replies is fed to every tap that is on, in order; a read that is refused, or that fails
    /// for the disk or for want of memory, feeds none.
    ///
    /// The reply of a command that asks nothing of the disk, or that is refused by what the handle knows,
    /// follows from that alone, also over a disk that tells nothing.
    ///
    /// `Disk` where a call of the disk failed: then nothing was appended, and the handle is broken.
    /// `Out` where the sink failed: then the command was carried out or refused, and a front of its reply
    /// was appended. `Memory` where there was none for the samples of a read, for the text of a `get`, or
    /// for a chunk that is set: then nothing was appended, and all is as before. Other commands take none.
    ///
    /// Where updates are automatic and the file is at rest, a crash at any moment leaves a file that opens,
    /// with as many frames as before or as the command leads to, and with every frame that the command does
    /// not write. Unless the disk fails, the file is then at rest again. An accepted `auto on` brings a file
    /// to rest, also one that was made, or one of which a crash could leave anything before.
    ///
    /// A read asks at most 1024 bytes of the disk for each frame that is wanted, and 16384 more. A write of
    /// v numbers writes at most `4 v + 72` bytes, or in ADPCM the blocks that their frames fill, one more and 64
    /// bytes; `trim` writes 80, `truncate` 72, `update` and `auto` 64, `reserve` 2048, and `promote` 116. A
    /// `get` asks at most 81920, but for `get chunks`; a `set` writes at most 16777216 and asks at most so many.
    /// Other commands ask and write nothing.
    pub fn step<'d, D: Disk, O: Sink>(
        &mut self,
        handle: &mut Handle<'d, D>,
        command: &Command<'_>,
        out: &mut O,
    ) -> Result<Reply, StepFault>
        requires whole { (handle_known handle.old).broken ≡ None }
        requires step { is_close (said_of command.now) ≡ false }
        ensures stands { LeavesOpen D.state (session_taps (λ b. meter b) self.old) result (said_of command.now) handle.old handle.new }
        ensures said { SaysReply D.state O.told (session_taps (λ b. meter b) self.old) result (said_of command.now) handle.old out.old out.new }
        ensures replies { RepliesKnown O.told (session_taps (λ b. meter b) self.old) result (said_of command.now) handle.old out.old out.new }
        ensures silent { IfErr result (λ fault. IsSilent fault (O.told out.old) (O.told out.new)) }
        ensures cause { CountsStep D.state O.faults result handle.old out.old handle.new out.new }
        ensures memory { LacksMemory (session_taps (λ b. meter b) self.old) result (said_of command.now) handle.old }
        ensures knows { KnowsAfter (session_taps (λ b. meter b) self.old) result (said_of command.now) handle.old handle.new }
        ensures taps { FeedsTaps D.state result (said_of command.now) handle.old (session_taps (λ b. meter b) self.old) (session_taps (λ b. meter b) self.new) }
        ensures leaves { LeavesHandle D.state D.may_leave D.left_between handle.old handle.new }
        ensures reads { OnlyChanges D.Disk (session_taps (λ b. meter b) self.old) (said_of command.now) handle.old handle.new }
        ensures safe { StepsSafely D.Disk (session_taps (λ b. meter b) self.old) (said_of command.now) handle.old handle.new }
        ensures rests { StepsToRest D.Disk (session_taps (λ b. meter b) self.old) result (said_of command.now) handle.old handle.new }
        ensures begins { BeginsAtRest D.Disk (session_taps (λ b. meter b) self.old) result (said_of command.now) handle.old handle.new }
        ensures asked { AsksByRule D.Disk (session_taps (λ b. meter b) self.old) (said_of command.now) handle.old handle.new }
        ensures written { WritesByRule D.Disk (session_taps (λ b. meter b) self.old) (said_of command.now) handle.old handle.new }
    {
        self.carry_out(handle, *command, out)
    }

    /// The same for what a line says.
    pub fn carry_out<'d, D: Disk, O: Sink>(
        &mut self,
        handle: &mut Handle<'d, D>,
        said: Command<'_>,
        out: &mut O,
    ) -> Result<Reply, StepFault>
        requires whole { (handle_known handle.old).broken ≡ None }
        requires step { is_close (said_of said) ≡ false }
        ensures steps { Steps D.Disk O.Sink (session_taps (λ b. meter b) self.old) (said_of said.entry) result handle.old out.old handle.new out.new }
        ensures taps { FeedsTaps D.state result (said_of said.entry) handle.old (session_taps (λ b. meter b) self.old) (session_taps (λ b. meter b) self.new) }
    {
        let work = work_of(said);
        let meters = &mut self.meters;
        match handle {
            Handle::R(file) => step_read(file, work, &mut self.room, meters, out),
            Handle::W(file) => step_made(file, work, self.room.alloc, meters, out),
            Handle::B(file) => step_blocks(file, work, self.room.alloc, meters, out),
            Handle::U(file) => step_update(file, work, &mut self.room, meters, out),
        }
    }

    /// Closes a file and gives its disk back, with the number of its frames, or with the step at which
    /// the disk failed, where it did. In a mode that writes the file is sealed first, with at most 64 bytes; in
    /// ADPCM the frames that wait are made a block before that.
    /// Where it is at rest, a crash at any moment leaves a file that opens, with all its frames. The taps
    /// that are on wait again, at their old places, and nothing is said of them.
    pub fn finish<'d, D: Disk>(
        &mut self,
        handle: Handle<'d, D>,
    ) -> Result<(u64, &'d mut D), (Step, &'d mut D)>
        ensures taps { session_taps (λ b. meter b) self.new ≡ after_rest (session_taps (λ b. meter b) self.old) }
        ensures lends { (back_of result).ghost_name ≡ handle_loan handle.entry }
        ensures back { FinishesAs (writes (mode_of handle.entry)) D.state D.may_leave handle.entry result }
        ensures cause { IsFinishCause D.state handle.entry result }
        ensures leaves { LeavesDisk D.state D.may_leave D.left_between handle.entry (back_of result).now }
        ensures safe { FinishesSafely D.Disk handle.entry (back_of result).now }
        ensures written { WritesAtMost D.state (most_finished handle.entry) (handle_disk handle.entry) (back_of result).now }
        ensures asked { (D.state (back_of result).now).asked ≡ (D.state (handle_disk handle.entry)).asked }
    {
        rest_all(&mut self.meters);
        match handle {
            Handle::R(file) => close_file(file.frames(), file),
            Handle::W(file) => close_file(file.frames(), file),
            Handle::B(file) => close_file(file.frames_given(), file),
            Handle::U(file) => close_file(file.frames(), file),
        }
    }
}

// Taps that wait. The `requires` holds of itself: with one the check sees that no box is made here.
fn wait_all(alloc: Global, taps: Vec<Box<dyn Tap>>) -> Result<Meters, AllocError>
    requires { Unit {0} }
    ensures { IfOk result (λ m. meter_taps (λ b. (⟦<dyn Tap as Tap>⟧ b.0).meter b.1) m ≡ map (λ b. waiting (meter b).kind) taps.items) }
{
    Meters::new(alloc, taps)
}

// Those that are on wait again. The `requires` is there as above.
fn rest_all(meters: &mut Meters)
    requires { Unit {0} }
    ensures { meter_taps (λ b. meter b) meters.new ≡ after_rest (meter_taps (λ b. meter b) meters.old) }
{
    meters.rest();
}

// Closes a file of so many frames, in any mode.
fn close_file<'d, D: Disk, M: Mode>(
    frames: u64,
    file: File<'d, D, M>,
) -> Result<(u64, &'d mut D), (Step, &'d mut D)>
    ensures lends { (back_of result).ghost_name ≡ loan_of file.entry }
    ensures closes { ClosesAs D.Disk M.WRITES frames file.entry result }
{
    match file.close() {
        Ok(disk) => Ok((frames, disk)),
        Err((fault, disk)) => Err((fault.0, disk)),
    }
}

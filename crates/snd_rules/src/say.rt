//! Replies to commands on an open file. A reply that does not get out is a fault of the sink, and a front
//! of it was put.

ghost use Rattle.std.specs.Prelude.{◌≡◌, ◌*◌, ◌≤◌, length};
ghost use Rattle.snd_rules.specs.Stepped.{Says, IsSent};
ghost use Rattle.snd_rules.specs.Replies.{described, ok_line, refuses, says, read_text};
ghost use Rattle.snd_meters.specs.Report.{report_line};

use crate::page::push_report;
use crate::reply::{Reply, StepFault};
use crate::text::{PAGE_BYTES, put_file_line, put_frames, put_ok, put_refusal};
use arrayvec::ArrayVec;
use snd_disk::Sink;
use snd_layout::{Kind, Params};
use snd_lines::Refusal;
use snd_taps::{TapKind, TapState};

/// Says that a command was carried out, with a number.
pub fn say_ok<O: Sink>(out: &mut O, number: u64) -> Result<Reply, StepFault>
    ensures said { Says O.told (says (ok_line number)) result out.old out.new }
    ensures sent { IsSent result (O.faults out.old) (O.faults out.new) }
{
    match put_ok(out, number) {
        Ok(()) => Ok(Reply::Ok),
        Err(_) => Err(StepFault::Out),
    }
}

/// Says a text.
pub fn say_text<O: Sink>(out: &mut O, text: &[u8]) -> Result<Reply, StepFault>
    ensures said { Says O.told (says text.now) result out.old out.new }
    ensures sent { IsSent result (O.faults out.old) (O.faults out.new) }
{
    match out.put(text) {
        Ok(()) => Ok(Reply::Ok),
        Err(_) => Err(StepFault::Out),
    }
}

/// Says what a tap saw.
pub fn say_report<O: Sink>(out: &mut O, kind: TapKind, state: TapState) -> Result<Reply, StepFault>
    ensures said { Says O.told (says (report_line kind state)) result out.old out.new }
    ensures sent { IsSent result (O.faults out.old) (O.faults out.new) }
{
    let mut line = ArrayVec::<u8, 72>::new();
    push_report(&mut line, kind, state);
    say_text(out, &line)
}

/// Says what is known of a file.
pub fn say_file<O: Sink>(
    out: &mut O,
    frames: u64,
    params: Params,
    kind: Kind,
) -> Result<Reply, StepFault>
    ensures said { Says O.told (says (described frames params kind)) result out.old out.new }
    ensures sent { IsSent result (O.faults out.old) (O.faults out.new) }
{
    match put_file_line(out, frames, params, kind) {
        Ok(()) => Ok(Reply::Ok),
        Err(_) => Err(StepFault::Out),
    }
}

/// Says that a command is refused.
pub fn refuse<O: Sink>(out: &mut O, refusal: Refusal) -> Result<Reply, StepFault>
    ensures said { Says O.told (refuses refusal) result out.old out.new }
    ensures sent { IsSent result (O.faults out.old) (O.faults out.new) }
{
    match put_refusal(out, refusal) {
        Ok(()) => Ok(Reply::Refused(refusal.number())),
        Err(_) => Err(StepFault::Out),
    }
}

/// Says frames that were read.
pub fn say_frames<O: Sink>(
    page: &mut ArrayVec<u8, PAGE_BYTES>,
    out: &mut O,
    samples: &[i32],
    channels: usize,
    frames: usize,
) -> Result<Reply, StepFault>
    requires channels { channels ≤ 256 }
    requires whole { length samples.now ≡ frames * channels }
    ensures said { Says O.told (says (read_text channels frames samples.now)) result out.old out.new }
    ensures sent { IsSent result (O.faults out.old) (O.faults out.new) }
{
    match put_frames(page, out, samples, channels, frames) {
        Ok(()) => Ok(Reply::Ok),
        Err(_) => Err(StepFault::Out),
    }
}

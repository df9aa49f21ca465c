//! Replies that are put.

ghost use Rattle.std.specs.Prelude.{◌≡◌, ◌+◌, ◌*◌, ◌≤◌, length, OnOk, OnErr};
ghost use Rattle.snd_disk.specs.State.{Counts};
ghost use Rattle.snd_rules.specs.Replies.{MakesRoom, PutsAll, PutsFront, described, error_line, ok_line, read_text};

use crate::page::{push_error, push_file, push_frame, push_ok};
use arrayvec::ArrayVec;
use snd_disk::{Failed, Sink};
use snd_layout::{Kind, Params};
use snd_lines::Refusal;

/// The most bytes that are put at once.
pub const PAGE_BYTES: usize = 16384;

/// No line of a frame, of at most 256 channels, has more bytes.
const MOST_LINE: usize = 3073;

/// Puts the line of a command that was carried out, with a number.
pub fn put_ok<O: Sink>(out: &mut O, number: u64) -> Result<(), Failed>
    ensures put { OnOk result (PutsAll O.told (ok_line number) out.old out.new) }
    ensures part { OnErr result (PutsFront O.told (ok_line number) out.old out.new) }
    ensures faults { Counts (O.faults out.old) (O.faults out.new) result }
{
    let mut line = ArrayVec::<u8, 32>::new();
    push_ok(&mut line, number);
    out.put(&line)
}

/// Puts the line of a refusal.
pub fn put_refusal<O: Sink>(out: &mut O, refusal: Refusal) -> Result<(), Failed>
    ensures put { OnOk result (PutsAll O.told (error_line refusal) out.old out.new) }
    ensures part { OnErr result (PutsFront O.told (error_line refusal) out.old out.new) }
    ensures faults { Counts (O.faults out.old) (O.faults out.new) result }
{
    let mut line = ArrayVec::<u8, 64>::new();
    push_error(&mut line, refusal);
    out.put(&line)
}

/// Puts the line that tells of a file.
pub fn put_file_line<O: Sink>(
    out: &mut O,
    frames: u64,
    params: Params,
    kind: Kind,
) -> Result<(), Failed>
    ensures put { OnOk result (PutsAll O.told (described frames params kind) out.old out.new) }
    ensures part { OnErr result (PutsFront O.told (described frames params kind) out.old out.new) }
    ensures faults { Counts (O.faults out.old) (O.faults out.new) result }
{
    let mut line = ArrayVec::<u8, 128>::new();
    push_file(&mut line, frames, params, kind);
    out.put(&line)
}

/// Puts what was gathered, where the line of a frame might not fit behind it.
fn make_room<O: Sink>(page: &mut ArrayVec<u8, PAGE_BYTES>, out: &mut O) -> Result<(), Failed>
    ensures room { OnOk result (length page.new.items + 3073 ≤ 16384) }
    ensures put { OnOk result (MakesRoom O.told page.old.items page.new.items out.old out.new) }
    ensures part { OnErr result (PutsFront O.told page.old.items out.old out.new) }
    ensures faults { Counts (O.faults out.old) (O.faults out.new) result }
{
    if page.remaining_capacity() < MOST_LINE {
        out.put(page)?;
        page.clear();
    }
    Ok(())
}

/// Puts the reply to a read: how many frames came, and a line for each. The lines are gathered in the
/// page, and put whenever the next one might not fit.
pub fn put_frames<O: Sink>(
    page: &mut ArrayVec<u8, PAGE_BYTES>,
    out: &mut O,
    samples: &[i32],
    channels: usize,
    frames: usize,
) -> Result<(), Failed>
    requires channels { channels ≤ 256 }
    requires whole { length samples.now ≡ frames * channels }
    ensures put { OnOk result (PutsAll O.told (read_text channels frames samples.now) out.old out.new) }
    ensures part { OnErr result (PutsFront O.told (read_text channels frames samples.now) out.old out.new) }
    ensures faults { Counts (O.faults out.old) (O.faults out.new) result }
{
    page.clear();
    push_ok(page, frames as u64);
    let mut rest = samples;
    for _ in 0..frames {
        let (frame, after) = rest.split_at(channels);
        make_room(page, out)?;
        push_frame(page, frame);
        rest = after;
    }
    out.put(page)
}

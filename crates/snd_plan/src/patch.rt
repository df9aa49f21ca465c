//! Bytes that were read of a file, as they are once operations are carried out on it.

ghost use Rattle.std.specs.Prelude.{◌≡◌, ◌+◌, ◌-◌, ◌++◌, ◌<◌, ◌≤◌, ◌^◌, ℕ, List, length, take, drop, replicate, map, All};
ghost use Rattle.snd_disk.specs.Bytes.{over};
ghost use Rattle.snd_disk.specs.Runs.{HasAt};
ghost use Rattle.snd_plan.specs.Operations.{carried_out, all_carried_out, operation_of, tape_end, file_end};

use crate::Planned;

/// Puts bytes in the place of others.
fn put_at(into: &mut [u8], to: usize, bytes: &[u8])
    requires { to + length bytes.now ≤ length into.old }
    ensures { into.new ≡ take to into.old ++ bytes.now ++ drop (to + length bytes.now) into.old }
{
    into[to..to + bytes.len()].copy_from_slice(bytes);
}

/// Puts zeros behind so many bytes.
pub(crate) fn clear_from(into: &mut [u8], kept: usize)
    ensures { into.new ≡ take kept into.old ++ replicate (length into.old - kept) 0 }
{
    if kept < into.len() {
        into[kept..].fill(0);
    }
}

/// Puts bytes at a place over those that stand from another on.
fn put_over(bytes: &[u8], place: u64, at: u64, into: &mut [u8])
    requires put { place + length bytes.now < 2 ^ 63 }
    requires fits { at + length into.old < 2 ^ 63 }
    ensures { (b : List ℕ) → HasAt b at into.old → HasAt (over b place bytes.now) at into.new }
{
    let first = place.max(at);
    let last = (place + bytes.len() as u64).min(at + into.len() as u64);
    if first < last {
        let from = (first - place) as usize;
        let count = (last - first) as usize;
        put_at(into, (first - at) as usize, &bytes[from..from + count]);
    }
}

/// Puts zeros over those of the bytes from a place on that a cut takes.
fn cut_off(len: u64, at: u64, into: &mut [u8])
    requires { at + length into.old < 2 ^ 63 }
    ensures { (b : List ℕ) → HasAt b at into.old → HasAt (take len b) at into.new }
{
    clear_from(into, len.saturating_sub(at) as usize);
}

/// Brings the bytes from a place on to what they are after one operation.
fn patch_one(step: Planned, tape: &[u8], at: u64, into: &mut [u8])
    requires taped { tape_end step ≤ length tape.now }
    requires placed { file_end step < 2 ^ 63 }
    requires fits { at + length into.old < 2 ^ 63 }
    ensures { (b : List ℕ) → HasAt b at into.old → HasAt (carried_out (operation_of tape.now step) b) at into.new }
{
    match step {
        Planned::Write {
            at: place,
            from,
            len,
        } => put_over(&tape[from..from + len], place, at, into),
        Planned::Cut { len } => cut_off(len, at, into),
        Planned::Sync => {}
    }
}

/// Brings the bytes from a place on to what they are after a list of operations.
pub(crate) fn patch(steps: &[Planned], tape: &[u8], at: u64, into: &mut [u8])
    requires taped { All (λ s. tape_end s ≤ length tape.now) steps.now }
    requires placed { All (λ s. file_end s < 2 ^ 63) steps.now }
    requires fits { at + length into.old < 2 ^ 63 }
    ensures { (b : List ℕ) → HasAt b at into.old → HasAt (all_carried_out (map (operation_of tape.now) steps.now) b) at into.new }
{
    for step in steps {
        patch_one(*step, tape, at, into);
    }
}

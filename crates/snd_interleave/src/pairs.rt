//! The samples of one input of 16 bits, as the pairs of bytes that they are.

ghost use Rattle.std.specs.Prelude.{◌≡◌, ◌≢◌, ◌+◌, ◌*◌, ◌/◌, ◌%◌, ◌<◌, ◌≤◌, ℕ, IfOk, OnOk, get_or, length, take, true};
ghost use Rattle.snd_edits.specs.Bytes.{numbers_in};
ghost use Rattle.snd_output.specs.Ends.{CountsStop, IsUnchanged};
ghost use Rattle.snd_interleave.specs.Asking.{AsksInput, bytes_from};
ghost use Rattle.snd_interleave.specs.Channels.{Reads, faults_of};
ghost use Rattle.snd_interleave.specs.Held.{AreJoined, HasPairs, KeepsPairs, SamePair, frame_of, is_pair, pairs_in};
ghost use Rattle.snd_interleave.specs.Reading.{GivesHeld, HasChannelOf, IsCount};

use crate::numbers::put_zeros;
use snd_disk::Disk;
use snd_frames::{frames_ahead, read_raw};
use snd_inputs::Input;
use snd_output::Stop;

// Reads pairs of an input from a frame on, as many as the slice has places for, fewer only at the end.
fn read_input<D: Disk>(input: &mut Input<D>, place: u64, into: &mut [u8]) -> Result<usize, Stop>
    requires mono { input.old.layout.params.channels ≡ 1 }
    requires pairs { is_pair input.old.layout.params.codec ≡ true }
    requires whole { length into.old % 2 ≡ 0 }
    ensures count { IfOk result (IsCount place input.old.layout.frames (pairs_in into.old)) }
    ensures read { IfOk result (GivesHeld D.state input.old place (numbers_in input.old.layout.params.codec into.new)) }
    ensures faults { CountsStop (faults_of D.state input.old) (faults_of D.state input.new) result }
    ensures unchanged { IsUnchanged result }
    ensures reads { Reads D.Disk input.old input.new }
    ensures asked { AsksInput D.state (bytes_from place (pairs_in into.old)) input.old input.new }
{
    if place >= input.layout.frames {
        return Ok(0);
    }
    let count = frames_ahead(&input.layout, place, into.len() / 2);
    let wanted = &mut into[..2 * count];
    match read_raw(&mut input.disk, &input.layout, place, count, wanted) {
        Ok(()) => Ok(count),
        Err(_) => Err(Stop::Fault),
    }
}

/// Reads the pairs of an input from a frame on, as many as the slice has places for, with zeros behind its end.
pub(crate) fn read_pairs<D: Disk>(
    input: &mut Input<D>,
    place: u64,
    into: &mut [u8],
) -> Result<(), Stop>
    requires mono { input.old.layout.params.channels ≡ 1 }
    requires pairs { is_pair input.old.layout.params.codec ≡ true }
    requires whole { length into.old % 2 ≡ 0 }
    ensures read { OnOk result (HasChannelOf D.state input.old input.old.layout.params.codec place
        (pairs_in into.old) (numbers_in input.old.layout.params.codec into.new)) }
    ensures faults { CountsStop (faults_of D.state input.old) (faults_of D.state input.new) result }
    ensures unchanged { IsUnchanged result }
    ensures reads { Reads D.Disk input.old input.new }
    ensures asked { AsksInput D.state (bytes_from place (pairs_in into.old)) input.old input.new }
{
    let count = read_input(input, place, into)?;
    put_zeros(0, 2 * count, into);
    Ok(())
}

/// Puts pairs of bytes into a block of as many frames, as one of their channels.
pub(crate) fn put_pairs(pairs: &[u8], channels: usize, which: usize, block: &mut [u8])
    requires within { which < channels }
    requires size { length block.old ≡ length pairs.now * channels }
    ensures put { HasPairs channels which pairs.now block.new }
    ensures others { KeepsPairs channels which (pairs_in pairs.now) block.old block.new }
{
    for i in 0..pairs.len() / 2 {
        // both are read before one is put, so that a pair is moved as one
        let (first, second) = (pairs[2 * i], pairs[2 * i + 1]);
        let at = 2 * (i * channels + which);
        block[at] = first;
        block[at + 1] = second;
    }
}

// The pairs of two channels that are a frame of both.
#[inline(always)]
fn frame_of(left: &[u8], right: &[u8], i: usize) -> [u8; 4]
    requires within { 2 * i + 1 < length left.now }
    requires alike { length right.now ≡ length left.now }
    ensures { result ≡ frame_of left.now right.now i }
{
    [left[2 * i], left[2 * i + 1], right[2 * i], right[2 * i + 1]]
}

// Puts a frame of two pairs.
#[inline(always)]
fn put_frame(block: &mut [u8], i: usize, frame: [u8; 4])
    requires { 4 * i + 3 < length block.old }
    ensures left { SamePair block.new (i * 2 + 0) frame 0 }
    ensures right { SamePair block.new (i * 2 + 1) frame 1 }
    ensures others { (k : ℕ) → k ≢ i * 2 + 0 → k ≢ i * 2 + 1 → SamePair block.new k block.old k }
{
    block[4 * i] = frame[0];
    block[4 * i + 1] = frame[1];
    block[4 * i + 2] = frame[2];
    block[4 * i + 3] = frame[3];
}

// Frames of two channels, four at a time, as far as they go: all four are read before they are put, which lets the
// compiler move them at once.
fn join_fours(left: &[u8], right: &[u8], block: &mut [u8])
    requires size { length block.old ≡ length left.now * 2 }
    requires alike { length right.now ≡ length left.now }
    ensures { AreJoined (4 * (length left.now / 8)) left.now right.now block.new }
{
    for i in 0..left.len() / 8 {
        let (one, two, three, four) = (4 * i, 4 * i + 1, 4 * i + 2, 4 * i + 3);
        let first = frame_of(left, right, one);
        let second = frame_of(left, right, two);
        let third = frame_of(left, right, three);
        let fourth = frame_of(left, right, four);
        put_frame(block, one, first);
        put_frame(block, two, second);
        put_frame(block, three, third);
        put_frame(block, four, fourth);
    }
}

/// Puts the pairs of two channels side by side, as frames of both.
pub(crate) fn join_pairs(left: &[u8], right: &[u8], block: &mut [u8])
    requires size { length block.old ≡ length left.now * 2 }
    requires alike { length right.now ≡ length left.now }
    ensures left { HasPairs 2 0 left.now block.new }
    ensures right { HasPairs 2 1 right.now block.new }
{
    join_fours(left, right, block);
    for i in 4 * (left.len() / 8)..left.len() / 2 {
        put_frame(block, i, frame_of(left, right, i));
    }
}

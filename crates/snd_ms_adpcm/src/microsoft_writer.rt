//! Microsoft ADPCM in WAVE files: a block from its samples.

ghost use Rattle.std.specs.Prelude.{◌≡◌, ◌+◌, ◌*◌, ◌-◌, ◌/◌, ◌%◌, ◌<◌, ◌≤◌, ◌⊎◌, ◌≤ℤ◌, ◌<ℤ◌, ◌+ℤ◌, ◌-ℤ◌, ◌*ℤ◌, pos, negsuc, unsigned_abs, length, ℕ, [], ◌∷◌, ◌++◌, take, drop, All, slice_index_or, if◌then◌else◌, nat_lt};
ghost use Rattle.std.specs.Int.{is_negative};
ghost use Rattle.snd_ima_adpcm.specs.Frames.{Is16Bit, firsts, seconds, clamp, clamp_16, floor_div};
ghost use Rattle.snd_ms_adpcm.specs.Microsoft.{newer_weight, older_weight, ms_error, ms_error_sum, ms_start_error, ms_newer_of, ms_older_of, ms_number_for, ms_delta_for, code_of_number, signed_code, ms_codes_for, ms_bytes, ms_delta, IsMsBlock};
ghost use Rattle.snd_ms_adpcm.specs.States.{ms_code_at, ms_heads, ms_run, ms_runs, ms_sample_at};

use crate::microsoft::{clamped_16, delta_after, newer_weight_of, older_weight_of, prediction};
use crate::microsoft_state::MsState;
use arrayvec::ArrayVec;
use snd_ima_adpcm::number::{number_bytes, put_number};

/// How far a sample is from what a predictor foretells from the two before.
#[tactic(auto, unfolding(crate::specs::Microsoft::ms_error))]
fn error_of(number: usize, newer: i32, older: i32, sample: i32) -> u32
    requires number { number ≤ 6 }
    requires newer { Is16Bit newer }
    requires older { Is16Bit older }
    requires sample { Is16Bit sample }
    ensures value { result ≡ ms_error number newer older sample }
    ensures bound { result ≤ 65535 }
{
    let foretold = prediction(
        newer_weight_of(number),
        older_weight_of(number),
        newer,
        older,
    );
    (sample - foretold.clamp(-32768, 32767)).unsigned_abs()
}

/// The sum of a predictor's errors from the third sample on.
fn error_sum_of(number: usize, samples: &[i32]) -> u32
    requires number { number ≤ 6 }
    requires least { 2 ≤ length samples.now }
    requires most { length samples.now ≤ 5 }
    requires range { All Is16Bit samples.now }
    ensures value { result ≡ ms_start_error samples.now number }
    ensures bound { result ≤ 196605 }
{
    let mut sum = 0;
    for n in 2..samples.len() {
        sum += error_of(number, samples[n - 1], samples[n - 2], samples[n]);
    }
    sum
}

/// A predictor, and the sum of its errors.
#[derive(Clone, Copy)]
struct Choice {
    number: usize,
    sum: u32,
    ghost known: { number ≤ 6 },
    ghost small: { sum ≤ 196605 },
}

impl Choice {
    /// A predictor with its errors at a channel's first samples.
    fn of(number: usize, samples: &[i32]) -> Choice
        requires number { number ≤ 6 }
        requires least { 2 ≤ length samples.now }
        requires most { length samples.now ≤ 5 }
        requires range { All Is16Bit samples.now }
        ensures number { result.number ≡ number }
        ensures sum { result.sum ≡ ms_start_error samples.now number }
    {
        Choice {
            number,
            sum: error_sum_of(number, samples),
        }
    }

    /// The other one where its sum is less.
    #[inline]
    fn or_less(self, other: Choice) -> Choice
        ensures number { result.number ≡ (if nat_lt other.sum self.sum then other.number else self.number) }
        ensures sum { result.sum ≡ (if nat_lt other.sum self.sum then other.sum else self.sum) }
    {
        if other.sum < self.sum { other } else { self }
    }
}

/// The predictor that a channel's block takes, from its first samples, and the sum of its errors.
fn choose(samples: &[i32]) -> Choice
    requires least { 2 ≤ length samples.now }
    requires most { length samples.now ≤ 5 }
    requires range { All Is16Bit samples.now }
    ensures number { result.number ≡ ms_number_for samples.now }
    ensures sum { result.sum ≡ ms_start_error samples.now (ms_number_for samples.now) }
{
    let mut best = Choice::of(0, samples);
    for n in 0..6 {
        best = best.or_less(Choice::of(n + 1, samples));
    }
    best
}

/// 1 for a number below 0, else 0: its sign bit.
#[inline]
fn sign_of(x: i32) -> u32
    ensures { result ≡ (if is_negative x then 1 else 0) }
{
    x.cast_unsigned() >> 31
}

/// Takes a part from a way if it fits: 1 where it does not, else 0, and what is left of the way.
#[inline]
fn take_part(way: i32, part: i32) -> (u32, i32)
    requires least { negsuc 16777215 ≤ℤ way }
    requires most { way ≤ℤ pos 16777216 }
    requires part_least { pos 0 ≤ℤ part }
    requires part_most { part ≤ℤ pos 8388608 }
    ensures fits { part ≤ℤ way → result.0 ≡ 0 }
    ensures rest { part ≤ℤ way → result.1 ≡ way -ℤ part }
    ensures misses { way <ℤ part → result.0 ≡ 1 }
    ensures same { way <ℤ part → result.1 ≡ way }
    ensures bound { result.0 ≤ 1 }
    ensures least { (way -ℤ part) ≤ℤ result.1 }
    ensures most { result.1 ≤ℤ way }
{
    let left = way - part;
    (sign_of(left), if left >= 0 { left } else { way })
}

/// How many deltas lie in a way, from -8 to 7, as a code, and what is left of the way.
// bit by bit, as a division takes longer; 8 deltas up, where the number is from 0 to 15
#[inline]
fn code_in(way: i32, delta: i32) -> (u32, i32)
    requires low { negsuc 6848511 ≤ℤ way }
    requires high { way ≤ℤ pos 6848512 }
    requires least_delta { pos 16 ≤ℤ delta }
    requires delta { unsigned_abs delta ≤ 1048576 }
    ensures code { result.0 ≡ code_of_number (clamp (negsuc 7) (pos 7) (floor_div way (unsigned_abs delta))) }
    ensures bound { result.0 < 16 }
    ensures rest { way -ℤ result.1 ≡ signed_code result.0 *ℤ delta }
    ensures least { (way -ℤ pos 7 *ℤ delta) ≤ℤ result.1 }
    ensures most { result.1 ≤ℤ (way +ℤ pos 8 *ℤ delta) }
{
    let (below_8, after_8) = take_part(way + 8 * delta, 8 * delta);
    let (below_4, after_4) = take_part(after_8, 4 * delta);
    let (below_2, after_2) = take_part(after_4, 2 * delta);
    let (below_1, rest) = take_part(after_2, delta);
    (
        8 * below_8 + (7 - (4 * below_4 + 2 * below_2 + below_1)),
        rest,
    )
}

/// A sample, and half a delta more.
#[inline]
#[tactic(auto, using(crate::proofs::Quotients::half_bounds))]
fn half_above(sample: i32, delta: i32) -> i32
    requires sample { Is16Bit sample }
    requires least_delta { pos 16 ≤ℤ delta }
    requires delta { unsigned_abs delta ≤ 1048576 }
    ensures value { result ≡ sample +ℤ floor_div delta 2 }
    ensures least { negsuc 32767 ≤ℤ result }
    ensures most { result ≤ℤ pos 557055 }
{
    sample + (delta >> 1)
}

/// The code of a sample, and the sample that it leads to, by what is foretold.
#[inline]
pub(crate) fn code_and_sample(foretold: i32, sample: i32, delta: i32) -> (u32, i32)
    requires least { negsuc 6291455 ≤ℤ foretold }
    requires most { foretold ≤ℤ pos 6291456 }
    requires sample { Is16Bit sample }
    requires least_delta { pos 16 ≤ℤ delta }
    requires delta { unsigned_abs delta ≤ 1048576 }
    ensures code { result.0 ≡ code_of_number (clamp (negsuc 7) (pos 7) (floor_div (pos 2 *ℤ (sample -ℤ foretold) +ℤ delta) (2 * unsigned_abs delta))) }
    ensures code_bound { result.0 < 16 }
    ensures sample { result.1 ≡ clamp_16 (foretold +ℤ signed_code result.0 *ℤ delta) }
    ensures range { Is16Bit result.1 }
    ensures bound { unsigned_abs result.1 ≤ 32768 }
{
    let above = half_above(sample, delta);
    let (code, rest) = code_in(above - foretold, delta);
    // what the code does not reach is left of the way: this takes no product
    (code, clamped_16(above - rest))
}

/// The code of a sample, and the state after it.
#[inline]
fn encode(state: MsState, sample: i32) -> (u32, MsState)
    requires sample { Is16Bit sample }
    requires delta { pos 16 ≤ℤ state.delta }
    ensures code { result.0 ≡ ms_code_at state sample }
    ensures bound { result.0 < 16 }
    ensures newer { result.1.newer ≡ ms_sample_at state (ms_code_at state sample) }
    ensures older { result.1.older ≡ state.newer }
    ensures delta { result.1.delta ≡ ms_delta state.delta (ms_code_at state sample) }
    ensures least_delta { pos 16 ≤ℤ result.1.delta }
    ensures newer_by { result.1.newer_by ≡ state.newer_by }
    ensures older_by { result.1.older_by ≡ state.older_by }
{
    let foretold = prediction(state.newer_by, state.older_by, state.newer, state.older);
    let (code, newer) = code_and_sample(foretold, sample, state.delta);
    let delta = delta_after(state.delta, code);
    let after = MsState {
        newer_by: state.newer_by,
        older_by: state.older_by,
        newer,
        older: state.newer,
        delta,
    };
    (code, after)
}

/// Puts the bytes of one channel's samples, two codes in each.
// by itself it has registers enough
#[inline(never)]
fn encode_samples(samples: &[i32], start: MsState, into: &mut ArrayVec<u8, 8192>)
    requires even { length samples.now % 2 ≡ 0 }
    requires range { All Is16Bit samples.now }
    requires delta { pos 16 ≤ℤ start.delta }
    requires room { length into.old.items + length samples.now / 2 ≤ 8192 }
    ensures { into.new.items ≡ into.old.items ++ ms_run start samples.now }
{
    let mut state = start;
    for n in 0..samples.len() / 2 {
        let (high, middle) = encode(state, samples[2 * n]);
        let (low, end) = encode(middle, samples[2 * n + 1]);
        into.push((16 * high + low) as u8);
        state = end;
    }
}

/// Puts the bytes of two channels, a code of each in every byte.
// by itself it has registers enough
#[inline(never)]
fn encode_frames(frames: &[i32], first: MsState, second: MsState, into: &mut ArrayVec<u8, 8192>)
    requires even { length frames.now % 2 ≡ 0 }
    requires range { All Is16Bit frames.now }
    requires first_delta { pos 16 ≤ℤ first.delta }
    requires second_delta { pos 16 ≤ℤ second.delta }
    requires room { length into.old.items + length frames.now / 2 ≤ 8192 }
    ensures { into.new.items ≡ into.old.items ++ ms_runs first second frames.now }
{
    let mut left = first;
    let mut right = second;
    for n in 0..frames.len() / 2 {
        let (high, left_end) = encode(left, frames[2 * n]);
        let (low, right_end) = encode(right, frames[2 * n + 1]);
        into.push((16 * high + low) as u8);
        left = left_end;
        right = right_end;
    }
}

/// The state that a channel's block begins with, from the block's first samples, and the number of its predictor.
fn start_of(samples: &[i32]) -> (u8, MsState)
    requires least { 2 ≤ length samples.now }
    requires most { length samples.now ≤ 5 }
    requires range { All Is16Bit samples.now }
    ensures number { result.0 ≡ ms_number_for samples.now }
    ensures newer_by { result.1.newer_by ≡ newer_weight (ms_number_for samples.now) }
    ensures older_by { result.1.older_by ≡ older_weight (ms_number_for samples.now) }
    ensures newer { result.1.newer ≡ ms_newer_of samples.now }
    ensures older { result.1.older ≡ ms_older_of samples.now }
    ensures delta { result.1.delta ≡ pos (ms_delta_for samples.now) }
    ensures newer_range { Is16Bit result.1.newer }
    ensures older_range { Is16Bit result.1.older }
    ensures delta_range { Is16Bit result.1.delta }
    ensures least_delta { pos 16 ≤ℤ result.1.delta }
{
    let choice = choose(samples);
    let state = MsState {
        newer_by: newer_weight_of(choice.number),
        older_by: older_weight_of(choice.number),
        newer: samples[1],
        older: samples[0],
        delta: (choice.sum / 12).max(16) as i32,
    };
    (choice.number as u8, state)
}

/// The samples of each channel in the first frames, up to 5.
fn first_frames(frames: &[i32]) -> (ArrayVec<i32, 5>, ArrayVec<i32, 5>)
    requires { length frames.now % 2 ≡ 0 }
    ensures left { result.0.items ≡ take 5 (firsts frames.now) }
    ensures right { result.1.items ≡ take 5 (seconds frames.now) }
{
    let mut left = ArrayVec::new();
    let mut right = ArrayVec::new();
    for n in 0..(frames.len() / 2).min(5) {
        left.push(frames[2 * n]);
        right.push(frames[2 * n + 1]);
    }
    (left, right)
}

/// Puts a block of one channel.
fn encode_mono(samples: &[i32], into: &mut ArrayVec<u8, 8192>)
    requires least { 2 ≤ length samples.now }
    requires even { length samples.now % 2 ≡ 0 }
    requires range { All Is16Bit samples.now }
    requires room { 6 + length samples.now / 2 ≤ 8192 }
    requires empty { into.old.items ≡ [] }
    ensures { into.new.items ≡ ms_bytes 1 samples.now }
{
    let (front, _) = samples.split_at(5usize.min(samples.len()));
    let (number, state) = start_of(front);
    into.push(number);
    put_number(state.delta, into);
    put_number(state.newer, into);
    put_number(state.older, into);
    let (_, rest) = samples.split_at(2);
    encode_samples(rest, state, into);
}

/// What the heads of a block of two channels say: the numbers of their predictors, and the states that they begin with.
#[derive(Clone, Copy)]
pub(crate) struct Heads {
    left_number: u8,
    right_number: u8,
    pub(crate) left: MsState,
    pub(crate) right: MsState,
    ghost left_delta: { Is16Bit left.delta },
    ghost right_delta: { Is16Bit right.delta },
    ghost left_least: { pos 16 ≤ℤ left.delta },
    ghost right_least: { pos 16 ≤ℤ right.delta },
}

impl Heads {
    /// Those of a block that holds some samples.
    pub(crate) fn of(samples: &[i32]) -> Heads
        requires least { 4 ≤ length samples.now }
        requires even { length samples.now % 2 ≡ 0 }
        requires range { All Is16Bit samples.now }
        ensures { ms_heads result.left_number result.right_number result.left result.right ++ ms_runs result.left result.right (drop 4 samples.now) ≡ ms_bytes 2 samples.now }
    {
        let (left_front, right_front) = first_frames(samples);
        let (left_number, left) = start_of(left_front.as_slice());
        let (right_number, right) = start_of(right_front.as_slice());
        Heads {
            left_number,
            right_number,
            left,
            right,
        }
    }

    /// Their bytes.
    pub(crate) fn bytes(self) -> [u8; 14]
        ensures { result ≡ ms_heads self.left_number self.right_number self.left self.right }
    {
        let [a, b] = number_bytes(self.left.delta);
        let [c, d] = number_bytes(self.right.delta);
        let [e, f] = number_bytes(self.left.newer);
        let [g, h] = number_bytes(self.right.newer);
        let [i, j] = number_bytes(self.left.older);
        let [k, l] = number_bytes(self.right.older);
        [
            self.left_number,
            self.right_number,
            a,
            b,
            c,
            d,
            e,
            f,
            g,
            h,
            i,
            j,
            k,
            l,
        ]
    }
}

/// Puts a block of two channels.
fn encode_stereo(samples: &[i32], into: &mut ArrayVec<u8, 8192>)
    requires least { 4 ≤ length samples.now }
    requires even { length samples.now % 2 ≡ 0 }
    requires range { All Is16Bit samples.now }
    requires room { 12 + length samples.now / 2 ≤ 8192 }
    requires empty { into.old.items ≡ [] }
    ensures { into.new.items ≡ ms_bytes 2 samples.now }
{
    let heads = Heads::of(samples);
    into.try_extend_from_slice(&heads.bytes()).unwrap();
    let (_, rest) = samples.split_at(4);
    encode_frames(rest, heads.left, heads.right, into);
}

/// A writer of Microsoft ADPCM blocks. No block depends on the ones before it.
#[derive(Drop)]
pub struct MsWriter;

impl MsWriter {
    /// A writer.
    pub fn new() -> MsWriter {
        MsWriter
    }

    /// Puts a block's bytes in place of what `into` holds.
    ///
    /// `samples` are the numbers of 16 bits of one whole block of 1 or 2 `channels`, frame by frame, channels in turn.
    pub fn encode(&mut self, samples: &[i32], channels: u16, into: &mut ArrayVec<u8, 8192>)
        requires channels { (channels ≡ 1) ⊎ (channels ≡ 2) }
        requires whole { IsMsBlock channels (length samples.now) }
        requires range { All Is16Bit samples.now }
        ensures { into.new.items ≡ ms_bytes channels samples.now }
    {
        into.clear();
        if channels == 1 {
            encode_mono(samples, into);
        } else {
            encode_stereo(samples, into);
        }
    }
}

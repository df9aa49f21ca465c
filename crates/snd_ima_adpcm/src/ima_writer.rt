//! IMA ADPCM in WAVE files: a block from its samples.

ghost use Rattle.std.specs.Prelude.{◌≡◌, ◌+◌, ◌*◌, ◌-◌, ◌/◌, ◌%◌, ◌<◌, ◌≤◌, ◌≤ℤ◌, ◌⊎◌, pos, negsuc, length, ℕ, [], ◌∷◌, ◌++◌, All, slice_index_or};
ghost use Rattle.snd_ima_adpcm.specs.Frames.{Is16Bit, bytes_16, firsts, seconds};
ghost use Rattle.snd_ima_adpcm.specs.Step.{step_size};
ghost use Rattle.snd_ima_adpcm.specs.Ima.{ima_predictor_after, ima_head, ima_body, ima_next_index, ima_bytes, ima_next_indices, IsImaBlock};
ghost use Rattle.snd_ima_adpcm.specs.States.{ima_code_at, ima_predictor_for, ima_index_for, ima_run, ima_runs, ima_end_index};

use crate::ima::ImaState;
use crate::number::put_number;
use crate::step::{code_of, next_index_at, next_step_at, reached, step_at};
use arrayvec::ArrayVec;
use std::marker::Model;

/// Where one channel's writer stands between two samples: the state, and the step size of the state's index.
#[derive(Clone, Copy)]
struct ImaPlace {
    state: ImaState,
    step: u32,
    ghost stepped: { step ≡ step_size state.index },
    ghost small: { step ≤ 32767 },
}

impl ImaPlace {
    /// The place of a state.
    #[inline]
    fn of(state: ImaState) -> ImaPlace
        ensures { result.state ≡ state }
    {
        let step = step_at(state.index);
        ImaPlace { state, step }
    }

    /// The code of a sample, and the place after it.
    #[inline]
    fn encode(self, sample: i32) -> (u32, ImaPlace)
        requires least { negsuc 32767 ≤ℤ sample }
        requires most { sample ≤ℤ pos 32767 }
        ensures code { result.0 ≡ ima_code_at self.state sample }
        ensures bound { result.0 < 16 }
        ensures predictor { result.1.state.predictor ≡ ima_predictor_for self.state sample }
        ensures index { result.1.state.index ≡ ima_index_for self.state sample }
    {
        let way = sample - self.state.predictor;
        let code = code_of(self.step, way);
        let predictor = reached(self.step, way, sample);
        let index = next_index_at(self.state.index, code);
        let step = next_step_at(self.state.index, code);
        let state = ImaState { predictor, index };
        (code, ImaPlace { state, step })
    }
}

/// Puts the bytes of a channel's samples, two codes in each, and gives the state after them.
// by itself it has registers enough
#[inline(never)]
fn encode_run(samples: &[i32], start: ImaState, into: &mut ArrayVec<u8, 8192>) -> ImaState
    requires even { length samples.now % 2 ≡ 0 }
    requires range { All Is16Bit samples.now }
    requires room { length into.old.items + length samples.now / 2 ≤ 8192 }
    ensures bytes { into.new.items ≡ into.old.items ++ ima_run start samples.now }
    ensures count { length into.new.items ≡ length into.old.items + length samples.now / 2 }
    ensures predictor { result.predictor ≡ ima_predictor_after start.predictor start.index samples.now }
    ensures index { result.index ≡ ima_end_index start samples.now }
{
    let mut place = ImaPlace::of(start);
    for n in 0..samples.len() / 2 {
        let (low, middle) = place.encode(samples[2 * n]);
        let (high, end) = middle.encode(samples[2 * n + 1]);
        into.push((low + 16 * high) as u8);
        place = end;
    }
    place.state
}

/// Puts a channel's head.
fn put_head(first: i32, index: usize, into: &mut ArrayVec<u8, 8192>)
    requires range { Is16Bit first }
    requires index { index ≤ 88 }
    requires room { length into.old.items + 4 ≤ 8192 }
    ensures { into.new.items ≡ into.old.items ++ (bytes_16 first ++ index ∷ 0 ∷ []) }
{
    put_number(first, into);
    into.push(index as u8);
    into.push(0);
}

/// What 8 samples of a channel become: their bytes, two codes in each, and the place after them.
#[derive(Clone, Copy)]
struct Coded {
    bytes: [u8; 4],
    place: ImaPlace,
}

/// What 8 frames of two channels become. The channels are coded side by side: neither waits for the other, and the
/// compiler can hold both in one register.
fn encode_beside(frames: &[i32], first: ImaPlace, second: ImaPlace) -> (Coded, Coded)
    requires eight { length frames.now ≡ 16 }
    requires range { All Is16Bit frames.now }
    ensures left { result.0.bytes ≡ ima_run first.state (firsts frames.now) }
    ensures left_predictor { result.0.place.state.predictor ≡ ima_predictor_after first.state.predictor first.state.index (firsts frames.now) }
    ensures left_index { result.0.place.state.index ≡ ima_end_index first.state (firsts frames.now) }
    ensures right { result.1.bytes ≡ ima_run second.state (seconds frames.now) }
    ensures right_predictor { result.1.place.state.predictor ≡ ima_predictor_after second.state.predictor second.state.index (seconds frames.now) }
    ensures right_index { result.1.place.state.index ≡ ima_end_index second.state (seconds frames.now) }
{
    let mut one = [0; 4];
    let mut two = [0; 4];
    let mut left = first;
    let mut right = second;
    for n in 0..4 {
        let (low, middle) = left.encode(frames[4 * n]);
        let (right_low, right_middle) = right.encode(frames[4 * n + 1]);
        let (high, end) = middle.encode(frames[4 * n + 2]);
        let (right_high, right_end) = right_middle.encode(frames[4 * n + 3]);
        one[n] = (low + 16 * high) as u8;
        two[n] = (right_low + 16 * right_high) as u8;
        left = end;
        right = right_end;
    }
    let left = Coded {
        bytes: one,
        place: left,
    };
    let right = Coded {
        bytes: two,
        place: right,
    };
    (left, right)
}

/// Puts the bytes of two channels, 8 frames at a time, and gives their states after them.
fn encode_frames(
    frames: &[i32],
    first: ImaState,
    second: ImaState,
    into: &mut ArrayVec<u8, 8192>,
) -> (ImaState, ImaState)
    requires groups { length frames.now % 16 ≡ 0 }
    requires range { All Is16Bit frames.now }
    requires room { length into.old.items + length frames.now / 2 ≤ 8192 }
    ensures bytes { into.new.items ≡ into.old.items ++ ima_runs first second frames.now }
    ensures left { result.0.index ≡ ima_end_index first (firsts frames.now) }
    ensures right { result.1.index ≡ ima_end_index second (seconds frames.now) }
{
    let mut left = ImaPlace::of(first);
    let mut right = ImaPlace::of(second);
    for n in 0..frames.len() / 16 {
        let (one, two) = encode_beside(&frames[16 * n..16 * n + 16], left, right);
        into.try_extend_from_slice(&one.bytes).unwrap();
        into.try_extend_from_slice(&two.bytes).unwrap();
        left = one.place;
        right = two.place;
    }
    (left.state, right.state)
}

/// Puts a block of one channel, and gives its index after it.
fn encode_mono(samples: &[i32], index: usize, into: &mut ArrayVec<u8, 8192>) -> usize
    requires whole { length samples.now % 8 ≡ 1 }
    requires range { All Is16Bit samples.now }
    requires room { 4 + length samples.now / 2 ≤ 8192 }
    requires index { index ≤ 88 }
    requires empty { into.old.items ≡ [] }
    ensures bytes { into.new.items ≡ ima_head index samples.now ++ ima_body index samples.now }
    ensures index { result ≡ ima_next_index index samples.now }
    ensures bound { result ≤ 88 }
{
    put_head(samples[0], index, into);
    let start = ImaState {
        predictor: samples[0],
        index,
    };
    let (_, rest) = samples.split_at(1);
    encode_run(rest, start, into).index
}

/// Puts a block of two channels, and gives their indices after it.
fn encode_stereo(
    samples: &[i32],
    left: usize,
    right: usize,
    into: &mut ArrayVec<u8, 8192>,
) -> (usize, usize)
    requires whole { length samples.now % 16 ≡ 2 }
    requires range { All Is16Bit samples.now }
    requires room { 7 + length samples.now / 2 ≤ 8192 }
    requires left_index { left ≤ 88 }
    requires right_index { right ≤ 88 }
    requires empty { into.old.items ≡ [] }
    ensures bytes { into.new.items ≡ ima_bytes 2 (left, right) samples.now }
    ensures left { result.0 ≡ ima_next_index left (firsts samples.now) }
    ensures right { result.1 ≡ ima_next_index right (seconds samples.now) }
    ensures left_bound { result.0 ≤ 88 }
    ensures right_bound { result.1 ≤ 88 }
{
    put_head(samples[0], left, into);
    put_head(samples[1], right, into);
    let first = ImaState {
        predictor: samples[0],
        index: left,
    };
    let second = ImaState {
        predictor: samples[1],
        index: right,
    };
    let (_, frames) = samples.split_at(2);
    let (left_end, right_end) = encode_frames(frames, first, second, into);
    (left_end.index, right_end.index)
}

/// A writer of IMA ADPCM blocks, which carries each channel's step index from block to block.
///
/// A contract sees it as the indices of the first and of the second channel.
#[derive(Drop)]
pub struct ImaWriter {
    left: usize,
    right: usize,
}

impl Model for ImaWriter {
    ghost Value = { ℕ × ℕ };

    ghost view = { λ w. (w.left, w.right) };

    ghost invariant = { λ w. (w.left ≤ 88) × (w.right ≤ 88) };
}

impl ImaWriter {
    /// A writer whose indices are 0.
    pub fn new() -> ImaWriter
        ensures { result ≡ (0, 0) }
    {
        ImaWriter { left: 0, right: 0 }
    }

    /// Puts a block's bytes in place of what `into` holds.
    ///
    /// `samples` are the numbers of 16 bits of one whole block of 1 or 2 `channels`, frame by frame, channels in turn.
    pub fn encode(&mut self, samples: &[i32], channels: u16, into: &mut ArrayVec<u8, 8192>)
        requires channels { (channels ≡ 1) ⊎ (channels ≡ 2) }
        requires whole { IsImaBlock channels (length samples.now) }
        requires range { All Is16Bit samples.now }
        ensures bytes { into.new.items ≡ ima_bytes channels self.old samples.now }
        ensures indices { self.new ≡ ima_next_indices channels self.old samples.now }
    {
        into.clear();
        if channels == 1 {
            self.left = encode_mono(samples, self.left, into);
        } else {
            let (left, right) = encode_stereo(samples, self.left, self.right, into);
            self.left = left;
            self.right = right;
        }
    }
}

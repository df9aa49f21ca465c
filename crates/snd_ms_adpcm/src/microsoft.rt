//! Microsoft ADPCM in WAVE files: a block's samples.

ghost use Rattle.std.specs.Prelude.{◌≡◌, ◌+◌, ◌*◌, ◌-◌, ◌/◌, ◌%◌, ◌<◌, ◌≤◌, ◌^◌, ◌+ℤ◌, ◌*ℤ◌, ◌≤ℤ◌, All, ◌⊎◌, ◌↔◌, pos, negsuc, length, [], ◌∷◌, ◌++◌, slice_index, IsTrue, OnOk, OnErr, IsErr, unsigned_abs};
ghost use Rattle.snd_fields.specs.Blocks.{is_ms_align};
ghost use Rattle.snd_ima_adpcm.specs.Frames.{Is16Bit, high_half_first, floor_div, clamp, clamp_16};
ghost use Rattle.snd_ms_adpcm.specs.Microsoft.{newer_weight, older_weight, adaptation, ms_prediction, signed_code, ms_delta, number_at, ms_number, ms_start_delta, ms_newer, ms_older, ms_numbers, is_bad_ms_block, ms_channel, ms_block};
ghost use Rattle.snd_ms_adpcm.specs.States.{ms_sample_at, ms_samples_from, ms_frames_from};

use crate::microsoft_state::MsState;
use arrayvec::ArrayVec;
use snd_ima_adpcm::BadBlock;
use snd_ima_adpcm::number::{high_code, low_code, make_room, number_of};

static NEWER_WEIGHTS: [i32; 7] = [256, 512, 0, 192, 240, 460, 392];

static OLDER_WEIGHTS: [i32; 7] = [0, -256, 0, 64, 0, -208, -232];

/// How many deltas each code stands for.
static NUMBERS: [i32; 16] = [0, 1, 2, 3, 4, 5, 6, 7, -8, -7, -6, -5, -4, -3, -2, -1];

static ADAPTATIONS: [i32; 16] = [
    230, 230, 230, 230, 307, 409, 512, 614, 768, 614, 512, 409, 307, 230, 230, 230,
];

/// The weight of the newer sample, by predictor number.
#[tactic(auto, unfolding(crate::specs::Microsoft::newer_weight))]
pub(crate) fn newer_weight_of(number: usize) -> i32
    requires { number ≤ 6 }
    ensures value { result ≡ newer_weight number }
    ensures bound { unsigned_abs result ≤ 512 }
{
    NEWER_WEIGHTS[number]
}

/// The weight of the older sample, by predictor number.
#[tactic(auto, unfolding(crate::specs::Microsoft::older_weight))]
pub(crate) fn older_weight_of(number: usize) -> i32
    requires { number ≤ 6 }
    ensures value { result ≡ older_weight number }
    ensures bound { unsigned_abs result ≤ 256 }
{
    OLDER_WEIGHTS[number]
}

/// What a code multiplies the delta by, in parts of 256.
#[inline]
#[tactic(auto, unfolding(crate::specs::Microsoft::adaptation, crate::specs::Microsoft::adaptations))]
pub(crate) fn adaptation_of(code: u32) -> i32
    requires { code < 16 }
    ensures value { result ≡ adaptation code }
    ensures bound { unsigned_abs result ≤ 768 }
{
    ADAPTATIONS[code as usize]
}

/// A code as a number from -8 to 7.
#[inline]
pub(crate) fn signed(code: u8) -> i32
    requires { code < 16 }
    ensures value { result ≡ signed_code code }
    ensures bound { unsigned_abs result ≤ 8 }
{
    NUMBERS[usize::from(code)]
}

/// The product of two numbers.
#[inline]
pub(crate) fn product(a: i32, b: i32) -> i32
    requires { unsigned_abs a * unsigned_abs b ≤ 805306368 }
    ensures value { result ≡ a *ℤ b }
    ensures least { negsuc 805306367 ≤ℤ result }
    ensures most { result ≤ℤ pos 805306368 }
{
    a * b
}

/// A 256th of a number, rounded toward minus infinity.
#[inline]
#[tactic(auto, using(crate::proofs::Numbers::floor_bounds))]
pub(crate) fn floor_256(x: i32) -> i32
    requires low { negsuc 1610612735 ≤ℤ x }
    requires high { x ≤ℤ pos 1610612736 }
    ensures value { result ≡ floor_div x 256 }
    ensures least { negsuc 6291455 ≤ℤ result }
    ensures most { result ≤ℤ pos 6291456 }
{
    x >> 8
}

/// The sample that two weights foretell from the two before.
#[inline]
pub(crate) fn prediction(newer_by: i32, older_by: i32, newer: i32, older: i32) -> i32
    requires newer_by { unsigned_abs newer_by ≤ 512 }
    requires older_by { unsigned_abs older_by ≤ 256 }
    requires newer { unsigned_abs newer ≤ 32768 }
    requires older { unsigned_abs older ≤ 32768 }
    ensures value { result ≡ ms_prediction newer_by older_by newer older }
    ensures least { negsuc 6291455 ≤ℤ result }
    ensures most { result ≤ℤ pos 6291456 }
{
    floor_256(product(newer, newer_by) + product(older, older_by))
}

/// The nearest number of 16 bits to one outside of them.
#[cold]
#[inline(never)]
fn nearest_16(x: i32) -> i32
    ensures { result ≡ clamp_16 x }
{
    clamped_16(x)
}

/// A number held within 16 bits. Few are outside, so that a test that the processor foresees is quicker than two choices.
#[inline]
#[tactic(auto, using(snd_ima_adpcm::proofs::Public::abs_within))]
pub(crate) fn held_16(x: i32) -> i32
    ensures value { result ≡ clamp_16 x }
    ensures range { Is16Bit result }
    ensures bound { unsigned_abs result ≤ 32768 }
{
    if -32768 <= x && x <= 32767 {
        x
    } else {
        nearest_16(x)
    }
}

/// A number held within 16 bits, without a branch.
#[inline]
#[tactic(auto, using(snd_ima_adpcm::proofs::Public::abs_within))]
pub(crate) fn clamped_16(x: i32) -> i32
    ensures value { result ≡ clamp_16 x }
    ensures range { Is16Bit result }
    ensures bound { unsigned_abs result ≤ 32768 }
{
    x.clamp(-32768, 32767)
}

/// The delta that is so many 256ths of one, without a branch.
#[inline]
#[tactic(auto, using(snd_ima_adpcm::proofs::Public::abs_within))]
pub(crate) fn scaled(delta: i32, factor: i32) -> i32
    requires delta { unsigned_abs delta ≤ 1048576 }
    requires factor { unsigned_abs factor ≤ 768 }
    ensures value { result ≡ clamp (pos 16) (pos 1048576) (floor_div (delta *ℤ factor) 256) }
    ensures least { pos 16 ≤ℤ result }
    ensures bound { unsigned_abs result ≤ 1048576 }
{
    floor_256(product(delta, factor)).clamp(16, 1048576)
}

/// The sample that lies so many deltas from what two weights foretell.
#[inline]
fn sample_of(newer_by: i32, older_by: i32, newer: i32, older: i32, delta: i32, deltas: i32) -> i32
    requires newer_by { unsigned_abs newer_by ≤ 512 }
    requires older_by { unsigned_abs older_by ≤ 256 }
    requires newer { unsigned_abs newer ≤ 32768 }
    requires older { unsigned_abs older ≤ 32768 }
    requires delta { unsigned_abs delta ≤ 1048576 }
    requires deltas { unsigned_abs deltas ≤ 8 }
    ensures value { result ≡ clamp_16 (ms_prediction newer_by older_by newer older +ℤ deltas *ℤ delta) }
    ensures range { Is16Bit result }
    ensures bound { unsigned_abs result ≤ 32768 }
{
    held_16(prediction(newer_by, older_by, newer, older) + product(deltas, delta))
}

/// The delta after a code, for the few that would be above the greatest.
#[cold]
#[inline(never)]
#[tactic(auto, unfolding(crate::specs::Microsoft::ms_delta), using(snd_ima_adpcm::proofs::Public::abs_within))]
fn held_delta(delta: i32, code: u32) -> i32
    requires delta { unsigned_abs delta ≤ 1048576 }
    requires code { code < 16 }
    ensures value { result ≡ ms_delta delta code }
    ensures least { pos 16 ≤ℤ result }
    ensures bound { unsigned_abs result ≤ 1048576 }
{
    floor_256(product(delta, adaptation_of(code))).clamp(16, 1048576)
}

/// The delta after a code.
#[inline]
#[tactic(auto, unfolding(crate::specs::Microsoft::ms_delta), using(snd_ima_adpcm::proofs::Public::abs_within))]
pub(crate) fn delta_after(delta: i32, code: u32) -> i32
    requires delta { unsigned_abs delta ≤ 1048576 }
    requires code { code < 16 }
    ensures value { result ≡ ms_delta delta code }
    ensures least { pos 16 ≤ℤ result }
    ensures bound { unsigned_abs result ≤ 1048576 }
{
    let moved = floor_256(product(delta, adaptation_of(code)));
    if 16 <= moved && moved <= 1048576 {
        moved
    } else if moved < 16 {
        16
    } else {
        held_delta(delta, code)
    }
}

/// The number in two bytes of a head.
#[tactic(auto, using(snd_ima_adpcm::proofs::Public::abs_within))]
fn number_in(bytes: &[u8], at: usize) -> i32
    requires { at + 2 ≤ length bytes.now }
    ensures value { result ≡ number_at bytes.now at }
    ensures range { Is16Bit result }
    ensures bound { unsigned_abs result ≤ 32768 }
{
    number_of(bytes[at], bytes[at + 1])
}

impl MsState {
    /// The state after a code. Its newer sample is the code's.
    #[inline]
    fn after(self, code: u8) -> MsState
        requires { code < 16 }
        ensures newer { result.newer ≡ ms_sample_at self code }
        ensures older { result.older ≡ self.newer }
        ensures delta { result.delta ≡ ms_delta self.delta code }
        ensures newer_by { result.newer_by ≡ self.newer_by }
        ensures older_by { result.older_by ≡ self.older_by }
    {
        let deltas = signed(code);
        let newer = sample_of(
            self.newer_by,
            self.older_by,
            self.newer,
            self.older,
            self.delta,
            deltas,
        );
        let delta = delta_after(self.delta, u32::from(code));
        MsState {
            newer_by: self.newer_by,
            older_by: self.older_by,
            newer,
            older: self.newer,
            delta,
        }
    }

    /// The state that a channel's head gives.
    pub(crate) fn of_head(bytes: &[u8], channels: usize, channel: usize) -> MsState
        requires channel { channel < channels }
        requires whole { 7 * channels ≤ length bytes.now }
        requires good { ms_number channel bytes.now ≤ 6 }
        ensures newer { result.newer ≡ ms_newer channels channel bytes.now }
        ensures older { result.older ≡ ms_older channels channel bytes.now }
        ensures delta { result.delta ≡ ms_start_delta channels channel bytes.now }
        ensures newer_by { result.newer_by ≡ newer_weight (ms_number channel bytes.now) }
        ensures older_by { result.older_by ≡ older_weight (ms_number channel bytes.now) }
    {
        let number = usize::from(bytes[channel]);
        let newer_by = newer_weight_of(number);
        let older_by = older_weight_of(number);
        let delta = number_in(bytes, channels + 2 * channel);
        let newer = number_in(bytes, 3 * channels + 2 * channel);
        let older = number_in(bytes, 5 * channels + 2 * channel);
        MsState {
            newer_by,
            older_by,
            newer,
            older,
            delta,
        }
    }
}

/// The samples of a block of one channel, whose head gives `start`.
// by itself it has registers enough
#[inline(never)]
fn decode_mono(codes: &[u8], start: MsState, into: &mut [i32])
    requires room { length into.old ≡ 2 * length codes.now + 2 }
    ensures samples { into.new ≡ ms_samples_from start (high_half_first codes.now) }
    ensures range { All Is16Bit into.new }
{
    let mut state = start;
    into[0] = state.older;
    into[1] = state.newer;
    for n in 0..codes.len() {
        let middle = state.after(high_code(codes[n]));
        let end = middle.after(low_code(codes[n]));
        into[2 * n + 2] = middle.newer;
        into[2 * n + 3] = end.newer;
        state = end;
    }
}

/// The samples of a block of two channels, whose heads give `first` and `second`.
// by itself it has registers enough
#[inline(never)]
fn decode_stereo(codes: &[u8], first: MsState, second: MsState, into: &mut [i32])
    requires room { length into.old ≡ 2 * length codes.now + 4 }
    ensures samples { into.new ≡ ms_frames_from first second (high_half_first codes.now) }
    ensures range { All Is16Bit into.new }
{
    let mut left = first;
    let mut right = second;
    into[0] = left.older;
    into[1] = right.older;
    into[2] = left.newer;
    into[3] = right.newer;
    for n in 0..codes.len() {
        left = left.after(high_code(codes[n]));
        right = right.after(low_code(codes[n]));
        into[2 * n + 4] = left.newer;
        into[2 * n + 5] = right.newer;
    }
}

/// A block of Microsoft ADPCM.
pub struct MsBlock;

impl MsBlock {
    /// Whether a block is bad: a channel's head has a predictor number above 6. It is told by the first byte of each of 1 or 2
    /// `channels`, which are the block's first.
    pub fn is_bad(bytes: &[u8], channels: u16) -> bool
        requires channels { (channels ≡ 1) ⊎ (channels ≡ 2) }
        requires heads { channels ≤ length bytes.now }
        ensures { result ≡ is_bad_ms_block channels bytes.now }
    {
        bytes[0] > 6 || (channels == 2 && bytes[1] > 6)
    }

    /// Puts a block's samples in place of what `into` holds, frame by frame, channels in turn.
    ///
    /// `bytes` is one block of 1 or 2 `channels`, of at most 8192 bytes. Where a channel's head has a predictor number above 6
    /// the answer is [`BadBlock`], and `into` is empty. The delta of a head is used as it stands, whatever its sign.
    pub fn decode(
        bytes: &[u8],
        channels: u16,
        into: &mut ArrayVec<i32, 16384>,
    ) -> Result<(), BadBlock>
        requires channels { (channels ≡ 1) ⊎ (channels ≡ 2) }
        requires align { IsTrue (is_ms_align channels (length bytes.now)) }
        requires most { length bytes.now ≤ 8192 }
        ensures samples { OnOk result (into.new.items ≡ ms_block channels bytes.now) }
        ensures count { OnOk result (length into.new.items ≡ ms_numbers channels (length bytes.now)) }
        ensures range { All Is16Bit into.new.items }
        ensures bad { IsErr result ↔ IsTrue (is_bad_ms_block channels bytes.now) }
        ensures empty { OnErr result (into.new.items ≡ []) }
    {
        if MsBlock::is_bad(bytes, channels) {
            into.clear();
            return Err(BadBlock);
        }
        let (_, codes) = bytes.split_at(7 * usize::from(channels));
        if channels == 1 {
            make_room(2 * codes.len() + 2, into);
            decode_mono(codes, MsState::of_head(bytes, 1, 0), into.as_mut_slice());
        } else {
            make_room(2 * codes.len() + 4, into);
            let left = MsState::of_head(bytes, 2, 0);
            let right = MsState::of_head(bytes, 2, 1);
            decode_stereo(codes, left, right, into.as_mut_slice());
        }
        Ok(())
    }
}

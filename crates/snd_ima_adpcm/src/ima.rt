//! IMA ADPCM in WAVE files: a block's samples.

ghost use Rattle.std.specs.Prelude.{◌≡◌, ◌+◌, ◌*◌, ◌-◌, ◌/◌, ◌%◌, ◌<◌, ◌≤◌, ◌≤ℤ◌, All, ◌⊎◌, ◌↔◌, pos, negsuc, length, [], ◌∷◌, ◌++◌, slice_index, IsTrue, OnOk, OnErr, IsErr};
ghost use Rattle.arrayvec.specs.ArrayVec.{array_vec_len};
ghost use Rattle.snd_fields.specs.Blocks.{is_ima_align};
ghost use Rattle.snd_ima_adpcm.specs.Frames.{Is16Bit};
ghost use Rattle.snd_ima_adpcm.specs.Ima.{ima_predictor, ima_index, ima_first, ima_start_index, ima_numbers, is_bad_ima_block, ima_channel, ima_block};

use crate::BadBlock;
use crate::number::{high_code, low_code, make_room, number_of};
use crate::step::{change_at, next_index_at};
use arrayvec::ArrayVec;

/// Where one channel stands between two codes.
#[derive(Clone, Copy)]
pub(crate) struct ImaState {
    pub(crate) predictor: i32,
    pub(crate) index: usize,
    ghost low: { negsuc 32767 ≤ℤ predictor },
    ghost high: { predictor ≤ℤ pos 32767 },
    ghost indexed: { index ≤ 88 },
}

impl ImaState {
    /// The predictor after a code, which is the code's sample.
    #[inline]
    fn predictor_after(self, code: u8) -> i32
        requires { code < 16 }
        ensures value { result ≡ ima_predictor self.predictor self.index code }
        ensures least { negsuc 32767 ≤ℤ result }
        ensures most { result ≤ℤ pos 32767 }
    {
        (self.predictor + change_at(self.index, code)).clamp(-32768, 32767)
    }

    /// The state after a code.
    #[inline]
    #[tactic(auto, unfolding(crate::specs::Ima::ima_index))]
    fn after(self, code: u8) -> ImaState
        requires { code < 16 }
        ensures predictor { result.predictor ≡ ima_predictor self.predictor self.index code }
        ensures index { result.index ≡ ima_index self.index code }
    {
        let predictor = self.predictor_after(code);
        let index = next_index_at(self.index, u32::from(code));
        ImaState { predictor, index }
    }

    /// The sample of a byte's low code, and the state after both of its codes.
    #[inline]
    #[tactic(auto, unfolding(crate::specs::Ima::ima_index))]
    fn after_byte(self, byte: u8) -> (i32, ImaState)
        ensures first { result.0 ≡ ima_predictor self.predictor self.index (byte % 16) }
        ensures second { result.1.predictor ≡ ima_predictor result.0 (ima_index self.index (byte % 16)) (byte / 16) }
        ensures index { result.1.index ≡ ima_index (ima_index self.index (byte % 16)) (byte / 16) }
        ensures least { negsuc 32767 ≤ℤ result.0 }
        ensures most { result.0 ≤ℤ pos 32767 }
    {
        let middle = self.after(low_code(byte));
        (middle.predictor, middle.after(high_code(byte)))
    }

    /// The state that a channel's head gives.
    fn of_head(bytes: &[u8], channel: usize) -> ImaState
        requires whole { 4 * channel + 4 ≤ length bytes.now }
        requires good { ima_start_index channel bytes.now ≤ 88 }
        ensures predictor { result.predictor ≡ ima_first channel bytes.now }
        ensures index { result.index ≡ ima_start_index channel bytes.now }
    {
        let at = 4 * channel;
        let predictor = number_of(bytes[at], bytes[at + 1]);
        let index = usize::from(bytes[at + 2]);
        ImaState { predictor, index }
    }
}

/// The samples of a block of one channel.
// by itself it has registers enough
#[inline(never)]
fn decode_mono(bytes: &[u8], into: &mut [i32])
    requires whole { 4 ≤ length bytes.now }
    requires room { length into.old ≡ 2 * (length bytes.now - 4) + 1 }
    requires good { ima_start_index 0 bytes.now ≤ 88 }
    ensures samples { into.new ≡ ima_channel 1 0 bytes.now }
    ensures range { All Is16Bit into.new }
{
    let mut state = ImaState::of_head(bytes, 0);
    into[0] = state.predictor;
    for n in 0..bytes.len() - 4 {
        let (middle, end) = state.after_byte(bytes[4 + n]);
        into[2 * n + 1] = middle;
        into[2 * n + 2] = end.predictor;
        state = end;
    }
}

/// The samples of a block of two channels.
// by itself it has registers enough
#[inline(never)]
fn decode_stereo(bytes: &[u8], into: &mut [i32])
    requires whole { 8 ≤ length bytes.now }
    requires groups { length bytes.now % 8 ≡ 0 }
    requires room { length into.old ≡ 4 * (length bytes.now / 2 - 4) + 2 }
    requires good_left { ima_start_index 0 bytes.now ≤ 88 }
    requires good_right { ima_start_index 1 bytes.now ≤ 88 }
    ensures samples { into.new ≡ ima_block 2 bytes.now }
    ensures range { All Is16Bit into.new }
{
    let mut left = ImaState::of_head(bytes, 0);
    let mut right = ImaState::of_head(bytes, 1);
    into[0] = left.predictor;
    into[1] = right.predictor;
    for n in 0..bytes.len() / 2 - 4 {
        let place = 8 + 8 * (n / 4) + n % 4;
        let (left_middle, left_end) = left.after_byte(bytes[place]);
        let (right_middle, right_end) = right.after_byte(bytes[place + 4]);
        into[4 * n + 2] = left_middle;
        into[4 * n + 3] = right_middle;
        into[4 * n + 4] = left_end.predictor;
        into[4 * n + 5] = right_end.predictor;
        left = left_end;
        right = right_end;
    }
}

/// A block of IMA ADPCM.
pub struct ImaBlock;

impl ImaBlock {
    /// Whether a block is bad: a channel's head has a step index above 88. It is told by the heads alone, which are the first
    /// 4 bytes of each of 1 or 2 `channels`.
    pub fn is_bad(bytes: &[u8], channels: u16) -> bool
        requires channels { (channels ≡ 1) ⊎ (channels ≡ 2) }
        requires heads { 4 * channels ≤ length bytes.now }
        ensures { result ≡ is_bad_ima_block channels bytes.now }
    {
        bytes[2] > 88 || (channels == 2 && bytes[6] > 88)
    }

    /// Puts a block's samples in place of what `into` holds, frame by frame, channels in turn.
    ///
    /// `bytes` is one block of 1 or 2 `channels`, of at most 8192 bytes. Where a channel's head has a step index above 88
    /// the answer is [`BadBlock`], and `into` is empty.
    pub fn decode(
        bytes: &[u8],
        channels: u16,
        into: &mut ArrayVec<i32, 16384>,
    ) -> Result<(), BadBlock>
        requires channels { (channels ≡ 1) ⊎ (channels ≡ 2) }
        requires align { IsTrue (is_ima_align channels (length bytes.now)) }
        requires most { length bytes.now ≤ 8192 }
        ensures samples { OnOk result (into.new.items ≡ ima_block channels bytes.now) }
        ensures count { OnOk result (length into.new.items ≡ ima_numbers channels (length bytes.now)) }
        ensures range { All Is16Bit into.new.items }
        ensures bad { IsErr result ↔ IsTrue (is_bad_ima_block channels bytes.now) }
        ensures empty { OnErr result (into.new.items ≡ []) }
    {
        if ImaBlock::is_bad(bytes, channels) {
            into.clear();
            return Err(BadBlock);
        }
        make_room(2 * bytes.len() - 7 * usize::from(channels), into);
        if channels == 1 {
            decode_mono(bytes, into.as_mut_slice());
        } else {
            decode_stereo(bytes, into.as_mut_slice());
        }
        Ok(())
    }
}

//! Four blocks of Microsoft ADPCM of two channels, side by side, in a form that the compiler turns into vector code.

ghost use Rattle.std.specs.Prelude.{◌≡◌, ◌+◌, ◌-◌, ◌*◌, ◌/◌, ◌%◌, ◌<◌, ◌≤◌, ◌+ℤ◌, ◌*ℤ◌, ◌≤ℤ◌, ◌↔◌, ◌||◌, All, IsErr, IsTrue, OnOk, [], ◌∷◌, ℕ, pos, drop, false, length, take, unsigned_abs};
ghost use Rattle.snd_fields.specs.Blocks.{is_ms_align};
ghost use Rattle.snd_ms_adpcm.specs.Four.{AreAlike, AreGood, AreRows, AreSamples, FollowsFrom, IsRow, any_bad, part};
ghost use Rattle.snd_ima_adpcm.specs.Frames.{Is16Bit, clamp, clamp_16, floor_div, high_half_first};
ghost use Rattle.snd_ms_adpcm.specs.Microsoft.{is_bad_ms_block, ms_block, ms_numbers, ms_prediction};
ghost use Rattle.snd_ms_adpcm.specs.States.{ms_frames_from};

use crate::microsoft::{MsBlock, adaptation_of, clamped_16, prediction, product, scaled, signed};
use crate::microsoft_state::MsState;
use snd_ima_adpcm::BadBlock;
use snd_ima_adpcm::number::{high_code, low_code};

/// What a byte says of the two channels: how many deltas their codes stand for, and what the deltas are multiplied by, in
/// parts of 256.
#[derive(Clone, Copy)]
struct Row {
    left_deltas: i32,
    right_deltas: i32,
    left_factor: i32,
    right_factor: i32,
}

fn row_of(byte: u8) -> Row
    ensures { IsRow byte result }
{
    let (left, right) = (high_code(byte), low_code(byte));
    Row {
        left_deltas: signed(left),
        right_deltas: signed(right),
        left_factor: adaptation_of(u32::from(left)),
        right_factor: adaptation_of(u32::from(right)),
    }
}

/// The rows of all bytes.
fn all_rows() -> [Row; 256]
    ensures { AreRows result }
{
    let mut rows = [row_of(0); 256];
    for byte in 0..256 {
        rows[byte] = row_of(byte as u8);
    }
    rows
}

/// The sample that lies so many deltas from what a state foretells.
#[inline]
fn sample_at(state: MsState, deltas: i32) -> i32
    requires deltas { unsigned_abs deltas ≤ 8 }
    ensures value { result ≡ clamp_16 (ms_prediction state.newer_by state.older_by state.newer state.older +ℤ deltas *ℤ state.delta) }
    ensures range { Is16Bit result }
    ensures bound { unsigned_abs result ≤ 32768 }
{
    let foretold = prediction(state.newer_by, state.older_by, state.newer, state.older);
    clamped_16(foretold + product(deltas, state.delta))
}

impl MsState {
    /// The state after a code that stands for so many deltas and multiplies the delta so.
    #[inline]
    fn moved(self, deltas: i32, factor: i32) -> MsState
        requires deltas { unsigned_abs deltas ≤ 8 }
        requires factor { unsigned_abs factor ≤ 768 }
        ensures newer { result.newer ≡ clamp_16 (ms_prediction self.newer_by self.older_by self.newer self.older +ℤ deltas *ℤ self.delta) }
        ensures older { result.older ≡ self.newer }
        ensures delta { result.delta ≡ clamp (pos 16) (pos 1048576) (floor_div (self.delta *ℤ factor) 256) }
        ensures newer_by { result.newer_by ≡ self.newer_by }
        ensures older_by { result.older_by ≡ self.older_by }
    {
        let newer = sample_at(self, deltas);
        let delta = scaled(self.delta, factor);
        MsState {
            newer_by: self.newer_by,
            older_by: self.older_by,
            newer,
            older: self.newer,
            delta,
        }
    }
}

/// Where the two channels of a block stand between two bytes.
#[derive(Clone, Copy)]
struct Pair {
    left: MsState,
    right: MsState,
}

impl Pair {
    /// What the heads of a block give.
    fn of_heads(block: &[u8]) -> Pair
        requires whole { 14 ≤ length block.now }
        requires good { is_bad_ms_block 2 block.now ≡ false }
        ensures { ms_frames_from result.left result.right (high_half_first (drop 14 block.now)) ≡ ms_block 2 block.now }
    {
        Pair {
            left: MsState::of_head(block, 2, 0),
            right: MsState::of_head(block, 2, 1),
        }
    }

    /// The pair after a byte.
    #[inline]
    fn after(self, rows: &[Row; 256], byte: u8) -> Pair
        requires { AreRows rows.now }
        ensures left { FollowsFrom self.left (byte / 16) result.left }
        ensures right { FollowsFrom self.right (byte % 16) result.right }
    {
        let row = rows[usize::from(byte)];
        Pair {
            left: self.left.moved(row.left_deltas, row.left_factor),
            right: self.right.moved(row.right_deltas, row.right_factor),
        }
    }

    /// Puts the two frames that a block begins with.
    fn begin(self, into: &mut [i32])
        requires { 4 ≤ length into.old }
        ensures begun { take 4 into.new ≡ self.left.older ∷ self.right.older ∷ self.left.newer ∷ self.right.newer ∷ [] }
        ensures room { length into.new ≡ length into.old }
    {
        into[0] = self.left.older;
        into[1] = self.right.older;
        into[2] = self.left.newer;
        into[3] = self.right.newer;
    }
}

/// Four blocks of two channels, of one size.
#[derive(Clone, Copy)]
struct FourBlocks<'a> {
    first: &'a [u8],
    second: &'a [u8],
    third: &'a [u8],
    fourth: &'a [u8],
}

/// The samples of four blocks, none of which is bad.
// by itself it has registers enough, and no two of the slices overlap
#[inline(never)]
fn decode_good(
    blocks: FourBlocks<'_>,
    one: &mut [i32],
    two: &mut [i32],
    three: &mut [i32],
    four: &mut [i32],
)
    requires good { AreGood blocks }
    requires alike { AreAlike blocks }
    requires room_one { length one.old ≡ 2 * (length blocks.first.now - 14) + 4 }
    requires room_two { length two.old ≡ 2 * (length blocks.first.now - 14) + 4 }
    requires room_three { length three.old ≡ 2 * (length blocks.first.now - 14) + 4 }
    requires room_four { length four.old ≡ 2 * (length blocks.first.now - 14) + 4 }
    ensures one { AreSamples blocks.entry.first.now one.new }
    ensures two { AreSamples blocks.entry.second.now two.new }
    ensures three { AreSamples blocks.entry.third.now three.new }
    ensures four { AreSamples blocks.entry.fourth.now four.new }
{
    let rows = all_rows();
    let mut a = Pair::of_heads(blocks.first);
    let mut b = Pair::of_heads(blocks.second);
    let mut c = Pair::of_heads(blocks.third);
    let mut d = Pair::of_heads(blocks.fourth);
    a.begin(one);
    b.begin(two);
    c.begin(three);
    d.begin(four);
    for n in 0..blocks.first.len() - 14 {
        a = a.after(&rows, blocks.first[n + 14]);
        b = b.after(&rows, blocks.second[n + 14]);
        c = c.after(&rows, blocks.third[n + 14]);
        d = d.after(&rows, blocks.fourth[n + 14]);
        one[2 * n + 4] = a.left.newer;
        one[2 * n + 5] = a.right.newer;
        two[2 * n + 4] = b.left.newer;
        two[2 * n + 5] = b.right.newer;
        three[2 * n + 4] = c.left.newer;
        three[2 * n + 5] = c.right.newer;
        four[2 * n + 4] = d.left.newer;
        four[2 * n + 5] = d.right.newer;
    }
}

impl FourBlocks<'_> {
    /// Whether one of them is bad.
    fn any_bad(self) -> bool
        requires whole { AreAlike self }
        ensures { result ≡ is_bad_ms_block 2 self.entry.first.now || (is_bad_ms_block 2 self.entry.second.now || (is_bad_ms_block 2 self.entry.third.now || is_bad_ms_block 2 self.entry.fourth.now)) }
    {
        MsBlock::is_bad(self.first, 2)
            || MsBlock::is_bad(self.second, 2)
            || MsBlock::is_bad(self.third, 2)
            || MsBlock::is_bad(self.fourth, 2)
    }
}

impl MsBlock {
    /// Puts the samples of four blocks of two channels, one behind the other, each frame by frame, channels in turn. They
    /// are read side by side, which takes less time than one after the other.
    ///
    /// `bytes` is four blocks of one size, and `into` has places for their samples. Where one of them is bad the answer is
    /// [`BadBlock`], and `into` stays.
    pub fn decode_four(bytes: &[u8], into: &mut [i32]) -> Result<(), BadBlock>
        requires whole { length bytes.now % 4 ≡ 0 }
        requires align { IsTrue (is_ms_align 2 (length bytes.now / 4)) }
        requires room { length into.old ≡ 4 * ms_numbers 2 (length bytes.now / 4) }
        ensures bad { IsErr result ↔ IsTrue (any_bad (length bytes.now / 4) bytes.now) }
        ensures samples { OnOk result ((k : ℕ) → k < 4 → AreSamples (part (length bytes.now / 4) k bytes.now) (part (ms_numbers 2 (length bytes.now / 4)) k into.new)) }
        ensures range { OnOk result (All Is16Bit into.new) }
        ensures length { length into.new ≡ length into.old }
        ensures same { IsErr result → into.new ≡ into.old }
    {
        let (align, size) = (bytes.len() / 4, into.len() / 4);
        let (first, rest) = bytes.split_at(align);
        let (second, rest) = rest.split_at(align);
        let (third, fourth) = rest.split_at(align);
        let blocks = FourBlocks {
            first,
            second,
            third,
            fourth,
        };
        if blocks.any_bad() {
            return Err(BadBlock);
        }
        let (one, rest) = into.split_at_mut(size);
        let (two, rest) = rest.split_at_mut(size);
        let (three, four) = rest.split_at_mut(size);
        decode_good(blocks, one, two, three, four);
        Ok(())
    }
}

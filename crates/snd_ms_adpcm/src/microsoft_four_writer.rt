//! Four blocks of Microsoft ADPCM of two channels from their samples, side by side, in a form that the compiler turns into
//! vector code.

ghost use Rattle.std.specs.Prelude.{◌≡◌, ◌+◌, ◌*◌, ◌-◌, ◌/◌, ◌%◌, ◌<◌, ◌≤◌, ◌≤ℤ◌, ◌∷◌, ◌++◌, All, [], drop, get_or, length, pos, take, unsigned_abs};
ghost use Rattle.snd_ima_adpcm.specs.Blocks.{bytes_of_blocks};
ghost use Rattle.snd_ima_adpcm.specs.Frames.{Is16Bit};
ghost use Rattle.snd_ms_adpcm.specs.Lanes.{AreReady, IsBlock, IsCoded, IsDelta, Takes};
ghost use Rattle.snd_ms_adpcm.specs.Laws.{ms_rule};
ghost use Rattle.snd_ms_adpcm.specs.Microsoft.{IsMsBlock, adaptation, ms_bytes, ms_code, ms_delta, ms_sample};
ghost use Rattle.snd_ms_adpcm.specs.States.{ms_runs};

use crate::microsoft::{prediction, scaled};
use crate::microsoft_writer::{Heads, MsWriter, code_and_sample};
use arrayvec::ArrayVec;
use snd_ima_adpcm::number::make_byte_room;

/// What a code multiplies the delta by, in parts of 256, by arithmetic: vector code looks nothing up.
#[inline]
#[tactic(auto, using(crate::proofs::LaneCodes::adaptation_is))]
fn factor_of(code: u32) -> i32
    requires { code < 16 }
    ensures value { result ≡ adaptation code }
    ensures bound { unsigned_abs result ≤ 768 }
{
    let deltas = if code < 8 { code } else { 16 - code };
    let first = if deltas > 5 { 1 } else { 0 };
    let last = if deltas > 7 { 52 } else { 0 };
    ((102 * deltas).max(331) - 101 + first + last) as i32
}

/// The weights of eight channels, and where they stand between two samples. Each has the same place in all lists, as vector
/// code wants it.
#[derive(Drop)]
struct Lanes {
    newer_by: [i32; 8],
    older_by: [i32; 8],
    newer: [i32; 8],
    older: [i32; 8],
    delta: [i32; 8],
}

/// The code of a sample, the sample that it leads to, and the delta after it.
#[inline]
fn coded(
    newer_by: i32,
    older_by: i32,
    newer: i32,
    older: i32,
    delta: i32,
    sample: i32,
) -> (u32, i32, i32)
    requires newer_by { unsigned_abs newer_by ≤ 512 }
    requires older_by { unsigned_abs older_by ≤ 256 }
    requires newer { Is16Bit newer }
    requires older { Is16Bit older }
    requires delta { IsDelta delta }
    requires sample { Is16Bit sample }
    ensures code { result.0 ≡ ms_code newer_by older_by newer older delta sample }
    ensures bound { result.0 < 16 }
    ensures newer { result.1 ≡ ms_sample newer_by older_by newer older delta (ms_code newer_by older_by newer older delta sample) }
    ensures range { Is16Bit result.1 }
    ensures delta { result.2 ≡ ms_delta delta (ms_code newer_by older_by newer older delta sample) }
    ensures delta_range { IsDelta result.2 }
{
    let foretold = prediction(newer_by, older_by, newer, older);
    let (code, next) = code_and_sample(foretold, sample, delta);
    (code, next, scaled(delta, factor_of(code)))
}

/// Takes a sample of each channel, and answers their codes.
#[inline]
fn take_samples(lanes: &mut Lanes, samples: &[i32; 8]) -> [u32; 8]
    requires ready { AreReady lanes.old }
    requires range { All Is16Bit samples.now }
    ensures ready { AreReady lanes.new }
    ensures takes { Takes lanes.old samples.now result lanes.new 8 }
    ensures small { All (λ code. code < 16) result }
{
    let mut codes = [0; 8];
    for k in 0..8 {
        let (code, newer, delta) = coded(
            lanes.newer_by[k],
            lanes.older_by[k],
            lanes.newer[k],
            lanes.older[k],
            lanes.delta[k],
            samples[k],
        );
        codes[k] = code;
        lanes.older[k] = lanes.newer[k];
        lanes.newer[k] = newer;
        lanes.delta[k] = delta;
    }
    codes
}

/// The samples of four blocks of two channels, of one size.
#[derive(Clone, Copy)]
struct FourSamples<'a> {
    first: &'a [i32],
    second: &'a [i32],
    third: &'a [i32],
    fourth: &'a [i32],
}

/// The two codes of a frame as a byte.
#[inline]
fn byte_of(high: u32, low: u32) -> u8
    requires high { high < 16 }
    requires low { low < 16 }
    ensures { result ≡ 16 * high + low }
{
    (16 * high + low) as u8
}

/// Puts the bytes of the frames of four blocks, whose heads stand in their places.
// by itself it keeps the lists where they are, behind one pointer, as vector code of their loop wants them
#[inline(never)]
fn encode_beside(
    samples: FourSamples<'_>,
    lanes: &mut Lanes,
    one: &mut [u8],
    two: &mut [u8],
    three: &mut [u8],
    four: &mut [u8],
)
    requires ready { AreReady lanes.old }
    requires first { IsBlock samples.first.now (length samples.first.now) }
    requires second { IsBlock samples.second.now (length samples.first.now) }
    requires third { IsBlock samples.third.now (length samples.first.now) }
    requires fourth { IsBlock samples.fourth.now (length samples.first.now) }
    requires one { IsCoded 0 samples.first.now lanes.old 0 1 one.old }
    requires two { IsCoded 0 samples.second.now lanes.old 2 3 two.old }
    requires three { IsCoded 0 samples.third.now lanes.old 4 5 three.old }
    requires four { IsCoded 0 samples.fourth.now lanes.old 6 7 four.old }
    ensures one { one.new ≡ ms_bytes 2 samples.entry.first.now }
    ensures two { two.new ≡ ms_bytes 2 samples.entry.second.now }
    ensures three { three.new ≡ ms_bytes 2 samples.entry.third.now }
    ensures four { four.new ≡ ms_bytes 2 samples.entry.fourth.now }
{
    for n in 0..samples.first.len() / 2 - 2 {
        let frames = [
            samples.first[2 * n + 4],
            samples.first[2 * n + 5],
            samples.second[2 * n + 4],
            samples.second[2 * n + 5],
            samples.third[2 * n + 4],
            samples.third[2 * n + 5],
            samples.fourth[2 * n + 4],
            samples.fourth[2 * n + 5],
        ];
        let codes = take_samples(lanes, &frames);
        one[n + 14] = byte_of(codes[0], codes[1]);
        two[n + 14] = byte_of(codes[2], codes[3]);
        three[n + 14] = byte_of(codes[4], codes[5]);
        four[n + 14] = byte_of(codes[6], codes[7]);
    }
}

/// Puts the heads of a block that holds some samples, and answers what they say.
fn begin(samples: &[i32], into: &mut [u8]) -> Heads
    requires least { 4 ≤ length samples.now }
    requires even { length samples.now % 2 ≡ 0 }
    requires range { All Is16Bit samples.now }
    requires room { length into.old ≡ length samples.now / 2 + 12 }
    ensures begun { take 14 into.new ++ ms_runs result.left result.right (drop 4 samples.now) ≡ ms_bytes 2 samples.now }
    ensures room { length into.new ≡ length samples.now / 2 + 12 }
{
    let heads = Heads::of(samples);
    into[..14].copy_from_slice(&heads.bytes());
    heads
}

impl Lanes {
    /// Those of four blocks, as their heads say.
    fn of(a: Heads, b: Heads, c: Heads, d: Heads) -> Lanes
        ensures newer_by { result.newer_by ≡ a.left.newer_by ∷ a.right.newer_by ∷ b.left.newer_by ∷ b.right.newer_by ∷ c.left.newer_by ∷ c.right.newer_by ∷ d.left.newer_by ∷ d.right.newer_by ∷ [] }
        ensures older_by { result.older_by ≡ a.left.older_by ∷ a.right.older_by ∷ b.left.older_by ∷ b.right.older_by ∷ c.left.older_by ∷ c.right.older_by ∷ d.left.older_by ∷ d.right.older_by ∷ [] }
        ensures newer { result.newer ≡ a.left.newer ∷ a.right.newer ∷ b.left.newer ∷ b.right.newer ∷ c.left.newer ∷ c.right.newer ∷ d.left.newer ∷ d.right.newer ∷ [] }
        ensures older { result.older ≡ a.left.older ∷ a.right.older ∷ b.left.older ∷ b.right.older ∷ c.left.older ∷ c.right.older ∷ d.left.older ∷ d.right.older ∷ [] }
        ensures delta { result.delta ≡ a.left.delta ∷ a.right.delta ∷ b.left.delta ∷ b.right.delta ∷ c.left.delta ∷ c.right.delta ∷ d.left.delta ∷ d.right.delta ∷ [] }
    {
        Lanes {
            newer_by: [
                a.left.newer_by,
                a.right.newer_by,
                b.left.newer_by,
                b.right.newer_by,
                c.left.newer_by,
                c.right.newer_by,
                d.left.newer_by,
                d.right.newer_by,
            ],
            older_by: [
                a.left.older_by,
                a.right.older_by,
                b.left.older_by,
                b.right.older_by,
                c.left.older_by,
                c.right.older_by,
                d.left.older_by,
                d.right.older_by,
            ],
            newer: [
                a.left.newer,
                a.right.newer,
                b.left.newer,
                b.right.newer,
                c.left.newer,
                c.right.newer,
                d.left.newer,
                d.right.newer,
            ],
            older: [
                a.left.older,
                a.right.older,
                b.left.older,
                b.right.older,
                c.left.older,
                c.right.older,
                d.left.older,
                d.right.older,
            ],
            delta: [
                a.left.delta,
                a.right.delta,
                b.left.delta,
                b.right.delta,
                c.left.delta,
                c.right.delta,
                d.left.delta,
                d.right.delta,
            ],
        }
    }
}

impl MsWriter {
    /// Puts the bytes of four blocks of two channels in place of what `into` holds, one behind the other. They are made side
    /// by side, which takes less time than one after the other.
    ///
    /// `samples` are the numbers of 16 bits of four whole blocks of at most 2048 bytes each, frame by frame, channels in turn.
    pub fn encode_four(&mut self, samples: &[i32], into: &mut ArrayVec<u8, 8192>)
        requires parts { length samples.now % 4 ≡ 0 }
        requires whole { IsMsBlock 2 (length samples.now / 4) }
        requires room { length samples.now / 2 + 48 ≤ 8192 }
        requires range { All Is16Bit samples.now }
        ensures { into.new.items ≡ bytes_of_blocks (ms_rule 2) (length samples.now / 4) 4 tt samples.now }
    {
        let size = samples.len() / 4;
        let align = size / 2 + 12;
        let (first, rest) = samples.split_at(size);
        let (second, rest) = rest.split_at(size);
        let (third, fourth) = rest.split_at(size);
        make_byte_room(4 * align, into);
        let (one, rest) = into.as_mut_slice().split_at_mut(align);
        let (two, rest) = rest.split_at_mut(align);
        let (three, four) = rest.split_at_mut(align);
        let a = begin(first, one);
        let b = begin(second, two);
        let c = begin(third, three);
        let d = begin(fourth, four);
        let mut lanes = Lanes::of(a, b, c, d);
        let samples = FourSamples {
            first,
            second,
            third,
            fourth,
        };
        encode_beside(samples, &mut lanes, one, two, three, four);
    }
}

//! Each stage by itself, at the ends of each width: what becomes of a sample was worked out by hand.
ghost use Rattle.std.specs.Prelude.{◌≡◌, ◌≤ℤ◌, ◌∷◌, []};
ghost use Rattle.snd_rack.specs.Held.{MayPass, next};

use arrayvec::ArrayVec;
use snd_rack::*;

/// A width: its least and its greatest number.
type Ends = (i32, i32);

const BYTE: Ends = (-128, 127);

const SHORT: Ends = (-32768, 32767);

const MIDDLE: Ends = (-8388608, 8388607);

const LONG: Ends = (i32::MIN, i32::MAX);

/// Samples, each with what becomes of it.
type Becoming = &'static [(i32, i32)];

/// A width, a factor, and samples with what becomes of them.
type Scaled = (Ends, (u16, u16), Becoming);

static GAINS: [Scaled; 20] = [
    // the half is rounded down
    (BYTE, (1, 2), &[(-128, -64), (127, 63), (-1, -1), (1, 0)]),
    (
        SHORT,
        (1, 2),
        &[(-32768, -16384), (32767, 16383), (-3, -2), (3, 1)],
    ),
    (
        MIDDLE,
        (1, 2),
        &[(-8388608, -4194304), (8388607, 4194303), (-1, -1), (1, 0)],
    ),
    (
        LONG,
        (1, 2),
        &[
            (i32::MIN, -1073741824),
            (i32::MAX, 1073741823),
            (-3, -2),
            (3, 1),
        ],
    ),
    // what leaves the range is put to its end
    (
        BYTE,
        (3, 2),
        &[(-128, -128), (127, 127), (-86, -128), (-85, -128)],
    ),
    (
        SHORT,
        (3, 2),
        &[
            (-32768, -32768),
            (32767, 32767),
            (21845, 32767),
            (21844, 32766),
        ],
    ),
    (
        MIDDLE,
        (3, 2),
        &[
            (-8388608, -8388608),
            (8388607, 8388607),
            (5592405, 8388607),
            (5592404, 8388606),
        ],
    ),
    (
        LONG,
        (3, 2),
        &[
            (i32::MIN, i32::MIN),
            (i32::MAX, i32::MAX),
            (1431655765, i32::MAX),
            (1431655764, 2147483646),
        ],
    ),
    // the greatest factor
    (
        BYTE,
        (65535, 1),
        &[(-128, -128), (127, 127), (-1, -128), (1, 127)],
    ),
    (
        SHORT,
        (65535, 1),
        &[(-32768, -32768), (32767, 32767), (-1, -32768), (1, 32767)],
    ),
    (
        MIDDLE,
        (65535, 1),
        &[
            (-8388608, -8388608),
            (8388607, 8388607),
            (-128, -8388480),
            (129, 8388607),
        ],
    ),
    (
        LONG,
        (65535, 1),
        &[
            (i32::MIN, i32::MIN),
            (i32::MAX, i32::MAX),
            (-32768, -2147450880),
            (32769, i32::MAX),
        ],
    ),
    // the least but 0
    (BYTE, (1, 65535), &[(-128, -1), (127, 0), (-1, -1), (0, 0)]),
    (
        SHORT,
        (1, 65535),
        &[(-32768, -1), (32767, 0), (-1, -1), (0, 0)],
    ),
    (
        MIDDLE,
        (1, 65535),
        &[(-8388608, -129), (8388607, 128), (-65535, -1), (65535, 1)],
    ),
    (
        LONG,
        (1, 65535),
        &[
            (i32::MIN, -32769),
            (i32::MAX, 32768),
            (-65536, -2),
            (65536, 1),
        ],
    ),
    // silence, and the sound as it is
    (BYTE, (0, 1), &[(-128, 0), (127, 0), (-1, 0), (1, 0)]),
    (
        LONG,
        (0, 65535),
        &[(i32::MIN, 0), (i32::MAX, 0), (-1, 0), (1, 0)],
    ),
    (
        BYTE,
        (65535, 65535),
        &[(-128, -128), (127, 127), (-1, -1), (1, 1)],
    ),
    (
        LONG,
        (65535, 65535),
        &[(i32::MIN, i32::MIN), (i32::MAX, i32::MAX), (-1, -1), (1, 1)],
    ),
];

/// A width, and samples with what becomes of them.
static INVERTED: [(Ends, Becoming); 4] = [
    (BYTE, &[(-128, 127), (127, -127), (-127, 127), (1, -1)]),
    (
        SHORT,
        &[(-32768, 32767), (32767, -32767), (-32767, 32767), (0, 0)],
    ),
    (
        MIDDLE,
        &[(-8388608, 8388607), (8388607, -8388607), (-1, 1), (1, -1)],
    ),
    (
        LONG,
        &[
            (i32::MIN, i32::MAX),
            (i32::MAX, -2147483647),
            (-2147483647, i32::MAX),
            (0, 0),
        ],
    ),
];

/// A width, over how many frames the sound rises, a sample, and what becomes of it in the first four frames.
static RISING: [(Ends, u32, i32, [i32; 4]); 14] = [
    (BYTE, 1, -128, [0, -128, -128, -128]),
    (BYTE, 2, -128, [0, -64, -128, -128]),
    (BYTE, 3, -128, [0, -43, -86, -128]),
    (BYTE, 3, 127, [0, 42, 84, 127]),
    (SHORT, 2, -32768, [0, -16384, -32768, -32768]),
    (SHORT, 2, 32767, [0, 16383, 32767, 32767]),
    (SHORT, 3, 32767, [0, 10922, 21844, 32767]),
    (MIDDLE, 3, -8388608, [0, -2796203, -5592406, -8388608]),
    (MIDDLE, 2, 8388607, [0, 4194303, 8388607, 8388607]),
    (LONG, 2, i32::MIN, [0, -1073741824, i32::MIN, i32::MIN]),
    (LONG, 2, i32::MAX, [0, 1073741823, i32::MAX, i32::MAX]),
    (LONG, 4, i32::MAX, [0, 536870911, 1073741823, 1610612735]),
    (LONG, u32::MAX, i32::MIN, [0, -1, -2, -2]),
    (LONG, u32::MAX, i32::MAX, [0, 0, 0, 1]),
];

/// Passes a frame of one sample.
fn pass<T: Stage>(stage: &mut T, sample: i32) -> i32
    requires { MayPass (T.stage stage.old) (sample ∷ []) }
    ensures { T.stage stage.new ≡ next (T.stage stage.old) }
{
    let mut frame = ArrayVec::new();
    frame.push(sample);
    stage.apply(&mut frame);
    match frame.as_slice() {
        [passed] => *passed,
        _ => 0,
    }
}

/// A sample behind a gain, where it is in the range.
fn scaled((low, high): Ends, (a, b): (u16, u16), sample: i32) -> Option<i32> {
    if b == 0 || sample < low || high < sample {
        return None;
    }
    let mut gain = Gain::new();
    gain.start(&Setting::Gain { a, b }, low, high);
    Some(pass(&mut gain, sample))
}

/// A sample behind an inversion.
fn inverted((low, high): Ends, sample: i32) -> Option<i32> {
    if sample < low || high < sample {
        return None;
    }
    let mut invert = Invert::new();
    invert.start(&Setting::Invert, low, high);
    Some(pass(&mut invert, sample))
}

/// A sample in the first four frames of a fade.
fn risen((low, high): Ends, count: u32, sample: i32) -> Option<[i32; 4]> {
    if count == 0 || sample < low || high < sample {
        return None;
    }
    let mut fade = Fade::new();
    fade.start(&Setting::Fade(count), low, high);
    Some([
        pass(&mut fade, sample),
        pass(&mut fade, sample),
        pass(&mut fade, sample),
        pass(&mut fade, sample),
    ])
}

#[test]
fn gains_round_down_and_clamp(rt: HostRuntime) {
    for (ends, factor, samples) in &GAINS {
        for (sample, wanted) in samples.iter() {
            assert_eq!(rt; scaled(*ends, *factor, *sample), Some(*wanted));
        }
    }
}

#[test]
fn inversions_clamp(rt: HostRuntime) {
    for (ends, samples) in &INVERTED {
        for (sample, wanted) in samples.iter() {
            assert_eq!(rt; inverted(*ends, *sample), Some(*wanted));
        }
    }
}

#[test]
fn fades_begin_in_silence(rt: HostRuntime) {
    for (ends, count, sample, wanted) in &RISING {
        assert_eq!(rt; risen(*ends, *count, *sample), Some(*wanted));
    }
}

/// Whether a frame of the least number, 0 and the greatest becomes one of four, where 0 is in the range.
fn picks((low, high): Ends) -> bool {
    if 0 < low || high < 0 {
        return false;
    }
    let mut places = ArrayVec::new();
    places.push(2);
    places.push(1);
    places.push(0);
    places.push(1);
    let mut frame = ArrayVec::new();
    frame.push(low);
    frame.push(0);
    frame.push(high);
    let mut pick = Pick::new();
    pick.start(&Setting::Pick(places), low, high);
    pick.apply(&mut frame);
    frame.as_slice() == [high, 0, low, 0].as_slice()
}

#[test]
fn picks_take_samples_by_their_places(rt: HostRuntime) {
    for ends in [BYTE, SHORT, MIDDLE, LONG] {
        assert!(rt; picks(ends));
    }
}

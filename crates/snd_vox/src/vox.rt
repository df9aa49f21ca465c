//! Dialogic VOX: headerless ADPCM of one channel, two codes a byte.

ghost use Rattle.std.specs.Prelude.{◌≡◌, ◌+◌, ◌*◌, ◌<◌, ◌≤◌, ◌≤ℤ◌, ◌*ℤ◌, pos, negsuc, [], ◌∷◌};
ghost use Rattle.snd_ima_adpcm.specs.Frames.{floor_div, high_half_first, bytes_high_half_first};
ghost use Rattle.snd_vox.specs.Vox.{VoxState, vox_start, vox_predictor, vox_index, vox_samples, vox_state_read, vox_code, vox_codes, vox_state_written};

use snd_ima_adpcm::number::{high_code, low_code};
use snd_ima_adpcm::step::{change_at, code_of, step_at};
use std::marker::Model;

/// The index after a code, by 16 times the index and the code.
static NEXT_INDICES: [u8; 912] = [
    8, 8, 8, 8, 8, 8, 8, 8, 8, 8, 8, 8, 8, 8, 8, 8, 8, 8, 8, 8, 8, 8, 8, 9, 8, 8, 8, 8, 8, 8, 8, 9,
    8, 8, 8, 8, 8, 8, 8, 10, 8, 8, 8, 8, 8, 8, 8, 10, 8, 8, 8, 8, 8, 8, 9, 11, 8, 8, 8, 8, 8, 8, 9,
    11, 8, 8, 8, 8, 8, 8, 10, 12, 8, 8, 8, 8, 8, 8, 10, 12, 8, 8, 8, 8, 8, 9, 11, 13, 8, 8, 8, 8,
    8, 9, 11, 13, 8, 8, 8, 8, 8, 10, 12, 14, 8, 8, 8, 8, 8, 10, 12, 14, 8, 8, 8, 8, 9, 11, 13, 15,
    8, 8, 8, 8, 9, 11, 13, 15, 8, 8, 8, 8, 10, 12, 14, 16, 8, 8, 8, 8, 10, 12, 14, 16, 8, 8, 8, 8,
    11, 13, 15, 17, 8, 8, 8, 8, 11, 13, 15, 17, 9, 9, 9, 9, 12, 14, 16, 18, 9, 9, 9, 9, 12, 14, 16,
    18, 10, 10, 10, 10, 13, 15, 17, 19, 10, 10, 10, 10, 13, 15, 17, 19, 11, 11, 11, 11, 14, 16, 18,
    20, 11, 11, 11, 11, 14, 16, 18, 20, 12, 12, 12, 12, 15, 17, 19, 21, 12, 12, 12, 12, 15, 17, 19,
    21, 13, 13, 13, 13, 16, 18, 20, 22, 13, 13, 13, 13, 16, 18, 20, 22, 14, 14, 14, 14, 17, 19, 21,
    23, 14, 14, 14, 14, 17, 19, 21, 23, 15, 15, 15, 15, 18, 20, 22, 24, 15, 15, 15, 15, 18, 20, 22,
    24, 16, 16, 16, 16, 19, 21, 23, 25, 16, 16, 16, 16, 19, 21, 23, 25, 17, 17, 17, 17, 20, 22, 24,
    26, 17, 17, 17, 17, 20, 22, 24, 26, 18, 18, 18, 18, 21, 23, 25, 27, 18, 18, 18, 18, 21, 23, 25,
    27, 19, 19, 19, 19, 22, 24, 26, 28, 19, 19, 19, 19, 22, 24, 26, 28, 20, 20, 20, 20, 23, 25, 27,
    29, 20, 20, 20, 20, 23, 25, 27, 29, 21, 21, 21, 21, 24, 26, 28, 30, 21, 21, 21, 21, 24, 26, 28,
    30, 22, 22, 22, 22, 25, 27, 29, 31, 22, 22, 22, 22, 25, 27, 29, 31, 23, 23, 23, 23, 26, 28, 30,
    32, 23, 23, 23, 23, 26, 28, 30, 32, 24, 24, 24, 24, 27, 29, 31, 33, 24, 24, 24, 24, 27, 29, 31,
    33, 25, 25, 25, 25, 28, 30, 32, 34, 25, 25, 25, 25, 28, 30, 32, 34, 26, 26, 26, 26, 29, 31, 33,
    35, 26, 26, 26, 26, 29, 31, 33, 35, 27, 27, 27, 27, 30, 32, 34, 36, 27, 27, 27, 27, 30, 32, 34,
    36, 28, 28, 28, 28, 31, 33, 35, 37, 28, 28, 28, 28, 31, 33, 35, 37, 29, 29, 29, 29, 32, 34, 36,
    38, 29, 29, 29, 29, 32, 34, 36, 38, 30, 30, 30, 30, 33, 35, 37, 39, 30, 30, 30, 30, 33, 35, 37,
    39, 31, 31, 31, 31, 34, 36, 38, 40, 31, 31, 31, 31, 34, 36, 38, 40, 32, 32, 32, 32, 35, 37, 39,
    41, 32, 32, 32, 32, 35, 37, 39, 41, 33, 33, 33, 33, 36, 38, 40, 42, 33, 33, 33, 33, 36, 38, 40,
    42, 34, 34, 34, 34, 37, 39, 41, 43, 34, 34, 34, 34, 37, 39, 41, 43, 35, 35, 35, 35, 38, 40, 42,
    44, 35, 35, 35, 35, 38, 40, 42, 44, 36, 36, 36, 36, 39, 41, 43, 45, 36, 36, 36, 36, 39, 41, 43,
    45, 37, 37, 37, 37, 40, 42, 44, 46, 37, 37, 37, 37, 40, 42, 44, 46, 38, 38, 38, 38, 41, 43, 45,
    47, 38, 38, 38, 38, 41, 43, 45, 47, 39, 39, 39, 39, 42, 44, 46, 48, 39, 39, 39, 39, 42, 44, 46,
    48, 40, 40, 40, 40, 43, 45, 47, 49, 40, 40, 40, 40, 43, 45, 47, 49, 41, 41, 41, 41, 44, 46, 48,
    50, 41, 41, 41, 41, 44, 46, 48, 50, 42, 42, 42, 42, 45, 47, 49, 51, 42, 42, 42, 42, 45, 47, 49,
    51, 43, 43, 43, 43, 46, 48, 50, 52, 43, 43, 43, 43, 46, 48, 50, 52, 44, 44, 44, 44, 47, 49, 51,
    53, 44, 44, 44, 44, 47, 49, 51, 53, 45, 45, 45, 45, 48, 50, 52, 54, 45, 45, 45, 45, 48, 50, 52,
    54, 46, 46, 46, 46, 49, 51, 53, 55, 46, 46, 46, 46, 49, 51, 53, 55, 47, 47, 47, 47, 50, 52, 54,
    56, 47, 47, 47, 47, 50, 52, 54, 56, 48, 48, 48, 48, 51, 53, 55, 56, 48, 48, 48, 48, 51, 53, 55,
    56, 49, 49, 49, 49, 52, 54, 56, 56, 49, 49, 49, 49, 52, 54, 56, 56, 50, 50, 50, 50, 53, 55, 56,
    56, 50, 50, 50, 50, 53, 55, 56, 56, 51, 51, 51, 51, 54, 56, 56, 56, 51, 51, 51, 51, 54, 56, 56,
    56, 52, 52, 52, 52, 55, 56, 56, 56, 52, 52, 52, 52, 55, 56, 56, 56, 53, 53, 53, 53, 56, 56, 56,
    56, 53, 53, 53, 53, 56, 56, 56, 56, 54, 54, 54, 54, 56, 56, 56, 56, 54, 54, 54, 54, 56, 56, 56,
    56, 55, 55, 55, 55, 56, 56, 56, 56, 55, 55, 55, 55, 56, 56, 56, 56,
];

/// A sample in 12 bits, rounded toward minus infinity.
#[inline]
fn target_of(sample: i16) -> i32
    ensures value { result ≡ floor_div sample 16 }
    ensures least { negsuc 2047 ≤ℤ result }
    ensures most { result ≤ℤ pos 2047 }
{
    i32::from(sample >> 4)
}

/// The index after a code, from 8 to 56.
#[inline]
fn index_at(index: usize, code: u8) -> usize
    requires index { index ≤ 56 }
    requires code { code < 16 }
    ensures value { result ≡ vox_index index code }
    ensures least { 8 ≤ result }
    ensures most { result ≤ 56 }
{
    usize::from(NEXT_INDICES[16 * index + usize::from(code)])
}

/// The predictor, in 12 bits, and the place of the step among IMA's.
#[derive(Clone, Copy)]
struct Place {
    predictor: i32,
    index: usize,
    ghost low: { negsuc 2047 ≤ℤ predictor },
    ghost high: { predictor ≤ℤ pos 2047 },
    ghost first: { 8 ≤ index },
    ghost last: { index ≤ 56 },
}

impl Place {
    /// Predictor 0 at the least step.
    fn start() -> Place
        ensures predictor { result.predictor ≡ pos 0 }
        ensures index { result.index ≡ 8 }
    {
        Place {
            predictor: 0,
            index: 8,
        }
    }

    /// The predictor after a code.
    #[inline]
    fn predictor_after(self, code: u8) -> i32
        requires { code < 16 }
        ensures value { result ≡ vox_predictor self.predictor self.index code }
        ensures least { negsuc 2047 ≤ℤ result }
        ensures most { result ≤ℤ pos 2047 }
    {
        (self.predictor + change_at(self.index, code)).clamp(-2048, 2047)
    }

    /// The place after a code.
    // without a branch on the code's bits, which no processor foresees
    #[inline]
    fn after(self, code: u8) -> Place
        requires { code < 16 }
        ensures predictor { result.predictor ≡ vox_predictor self.predictor self.index code }
        ensures index { result.index ≡ vox_index self.index code }
    {
        let predictor = self.predictor_after(code);
        let index = index_at(self.index, code);
        Place { predictor, index }
    }

    /// The sample of 16 bits.
    #[inline]
    fn sample(self) -> i16
        ensures { result ≡ pos 16 *ℤ self.predictor }
    {
        (16 * self.predictor) as i16
    }

    /// The code of a sample.
    #[inline]
    fn code_of(self, sample: i16) -> u8
        ensures value { result ≡ vox_code self.predictor self.index sample }
        ensures bound { result < 16 }
    {
        code_of(step_at(self.index), target_of(sample) - self.predictor) as u8
    }
}

/// A reader of VOX bytes in their order.
///
/// A contract sees it as its predictor and the place of its step in IMA's table.
#[derive(Drop)]
pub struct VoxReader {
    place: Place,
}

impl Model for VoxReader {
    ghost Value = { VoxState };

    ghost view = { λ r. (r.place.predictor, r.place.index) };
}

impl VoxReader {
    /// A reader at a file's start.
    pub fn new() -> VoxReader
        ensures { result ≡ vox_start }
    {
        VoxReader {
            place: Place::start(),
        }
    }

    /// The two samples of the next byte, in 16 bits.
    pub fn next(&mut self, byte: u8) -> (i16, i16)
        ensures samples { result.0 ∷ result.1 ∷ [] ≡ vox_samples self.old (high_half_first (byte ∷ [])) }
        ensures state { self.new ≡ vox_state_read self.old (high_half_first (byte ∷ [])) }
    {
        let first = self.place.after(high_code(byte));
        let second = first.after(low_code(byte));
        self.place = second;
        (first.sample(), second.sample())
    }
}

/// A writer of VOX bytes in their order.
///
/// A contract sees it as its predictor and the place of its step in IMA's table.
#[derive(Drop)]
pub struct VoxWriter {
    place: Place,
}

impl Model for VoxWriter {
    ghost Value = { VoxState };

    ghost view = { λ w. (w.place.predictor, w.place.index) };
}

impl VoxWriter {
    /// A writer at a file's start.
    pub fn new() -> VoxWriter
        ensures { result ≡ vox_start }
    {
        VoxWriter {
            place: Place::start(),
        }
    }

    /// The byte of the next two samples. A last odd sample is put with a 0 behind it.
    pub fn put(&mut self, first: i16, second: i16) -> u8
        ensures byte { result ∷ [] ≡ bytes_high_half_first (vox_codes self.old (first ∷ second ∷ [])) }
        ensures state { self.new ≡ vox_state_written self.old (first ∷ second ∷ []) }
    {
        let high = self.place.code_of(first);
        let middle = self.place.after(high);
        let low = middle.code_of(second);
        self.place = middle.after(low);
        16 * high + low
    }
}

//! What one frame measures, each in one tight loop.

ghost use Rattle.std.specs.Prelude.{◌≡◌, ◌≤◌, ◌^◌, cond};
ghost use Rattle.snd_taps.specs.Measure.{is_clip, square, peak_of, clips_of, energy_of};

/// The greatest magnitude in a frame, 0 in an empty one.
pub(crate) fn frame_peak(frame: &[i32]) -> u32
    ensures { result ≡ peak_of frame.now }
{
    let mut most = 0u32;
    for x in frame {
        most = most.max(x.unsigned_abs());
    }
    most
}

/// 1 for a sample at an end of the range, else 0.
#[inline]
fn clip(x: i32, low: i32, high: i32) -> usize
    ensures value { result ≡ cond (is_clip low high x) 1 0 }
    ensures one { result ≤ 1 }
{
    usize::from(x == low || x == high)
}

/// How many samples of a frame stand at an end of the range.
pub(crate) fn frame_clips(frame: &[i32], low: i32, high: i32) -> usize
    ensures { result ≡ clips_of low high frame.now }
{
    let mut count = 0usize;
    for x in frame {
        count += clip(*x, low, high);
    }
    count
}

/// The square of a sample.
#[inline]
fn square(x: i32) -> u64
    ensures value { result ≡ square x }
    ensures bound { result ≤ 2 ^ 62 }
{
    let magnitude = u64::from(x.unsigned_abs());
    magnitude * magnitude
}

/// The sum of the squares of a frame's samples.
pub(crate) fn frame_energy(frame: &[i32]) -> u128
    ensures { result ≡ energy_of frame.now }
{
    let mut sum = 0u128;
    for x in frame {
        sum += u128::from(square(*x));
    }
    sum
}

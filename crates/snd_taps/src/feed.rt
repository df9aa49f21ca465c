//! Many frames, fed one after the other.

ghost use Rattle.std.specs.Prelude.{◌≡◌};
ghost use Rattle.snd_pcm.specs.Groups.{groups};
ghost use Rattle.snd_taps.specs.Meter.{after_frames};

use crate::Tap;

/// Feeds each whole frame of `channels` samples, in order. Samples behind the last whole frame are left out.
pub fn feed_all(tap: &mut dyn Tap, channels: usize, numbers: &[i32])
    ensures { meter tap.new ≡ after_frames (groups channels numbers.now) (meter tap.old) }
{
    if channels == 0 {
        return;
    }
    for frame in numbers.chunks_exact(channels) {
        tap.feed(frame);
    }
}

/// The same, to a tap of a known type.
pub fn feed_all_of<T: Tap>(tap: &mut T, channels: usize, numbers: &[i32])
    ensures { T.meter tap.new ≡ after_frames (groups channels numbers.now) (T.meter tap.old) }
{
    if channels == 0 {
        return;
    }
    let frames = numbers.chunks_exact(channels);
    for frame in frames {
        tap.feed(frame);
    }
}

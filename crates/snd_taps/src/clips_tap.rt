//! Samples at the ends of the range.

ghost use Rattle.std.specs.Prelude.{◌≡◌};
ghost use Rattle.snd_taps.specs.Meter.{idle};

use crate::measure::frame_clips;
use crate::tap::NOTHING;
use crate::{Tap, TapKind, TapState};

/// How many samples equal the lowest or the highest number of the range.
#[derive(Drop)]
pub struct Clips {
    low: i32,
    high: i32,
    state: TapState,
}

impl Clips {
    ghost use Rattle.snd_taps.specs.declared.tap.TapKind.TheVariants.{Clips as clips_kind};

    /// One that was not started: no frame, and 0 as both ends of the range.
    pub fn new() -> Clips
        ensures { ⟦<Clips as Tap>⟧.meter result ≡ idle clips_kind }
    {
        Clips {
            low: 0,
            high: 0,
            state: NOTHING,
        }
    }
}

impl Tap for Clips {
    ghost use Rattle.snd_taps.specs.Meters.{clips_meter};

    ghost meter = { clips_meter };

    fn kind(&self) -> TapKind {
        TapKind::Clips
    }

    fn start(&mut self, low: i32, high: i32) {
        self.low = low;
        self.high = high;
        self.state = NOTHING;
    }

    fn feed(&mut self, frame: &[i32]) {
        let count = frame_clips(frame, self.low, self.high);
        self.state.frames = self.state.frames.saturating_add(1);
        self.state.value = self.state.value.saturating_add(count as u128);
    }

    fn report(&self) -> TapState {
        self.state
    }
}

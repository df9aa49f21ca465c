//! The greatest magnitude.

ghost use Rattle.std.specs.Prelude.{◌≡◌};
ghost use Rattle.snd_taps.specs.Meter.{idle};

use crate::measure::frame_peak;
use crate::tap::NOTHING;
use crate::{Tap, TapKind, TapState};

/// The greatest magnitude of a sample.
#[derive(Drop)]
pub struct Peak {
    low: i32,
    high: i32,
    state: TapState,
}

impl Peak {
    ghost use Rattle.snd_taps.specs.declared.tap.TapKind.TheVariants.{Peak as peak_kind};

    /// One that was not started: no frame, and 0 as both ends of the range.
    pub fn new() -> Peak
        ensures { ⟦<Peak as Tap>⟧.meter result ≡ idle peak_kind }
    {
        Peak {
            low: 0,
            high: 0,
            state: NOTHING,
        }
    }
}

impl Tap for Peak {
    ghost use Rattle.snd_taps.specs.Meters.{peak_meter};

    ghost meter = { peak_meter };

    fn kind(&self) -> TapKind {
        TapKind::Peak
    }

    fn start(&mut self, low: i32, high: i32) {
        self.low = low;
        self.high = high;
        self.state = NOTHING;
    }

    fn feed(&mut self, frame: &[i32]) {
        let most = frame_peak(frame);
        self.state.frames = self.state.frames.saturating_add(1);
        self.state.value = self.state.value.max(u128::from(most));
    }

    fn report(&self) -> TapState {
        self.state
    }
}

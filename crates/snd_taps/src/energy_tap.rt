//! The sum of the squares.

ghost use Rattle.std.specs.Prelude.{◌≡◌};
ghost use Rattle.snd_taps.specs.Meter.{idle};

use crate::measure::frame_energy;
use crate::tap::NOTHING;
use crate::{Tap, TapKind, TapState};

/// The sum of the squares of the samples.
#[derive(Drop)]
pub struct Energy {
    low: i32,
    high: i32,
    state: TapState,
}

impl Energy {
    ghost use Rattle.snd_taps.specs.declared.tap.TapKind.TheVariants.{Energy as energy_kind};

    /// One that was not started: no frame, and 0 as both ends of the range.
    pub fn new() -> Energy
        ensures { ⟦<Energy as Tap>⟧.meter result ≡ idle energy_kind }
    {
        Energy {
            low: 0,
            high: 0,
            state: NOTHING,
        }
    }
}

impl Tap for Energy {
    ghost use Rattle.snd_taps.specs.Meters.{energy_meter};

    ghost meter = { energy_meter };

    fn kind(&self) -> TapKind {
        TapKind::Energy
    }

    fn start(&mut self, low: i32, high: i32) {
        self.low = low;
        self.high = high;
        self.state = NOTHING;
    }

    fn feed(&mut self, frame: &[i32]) {
        let sum = frame_energy(frame);
        self.state.frames = self.state.frames.saturating_add(1);
        self.state.value = self.state.value.saturating_add(sum);
    }

    fn report(&self) -> TapState {
        self.state
    }
}

//! One tap, which waits or is on.

ghost use Rattle.std.specs.Prelude.{◌≡◌};
ghost use Rattle.snd_pcm.specs.Groups.{groups};
ghost use Rattle.snd_meters.specs.Gauge.{stands, started_gauge, fed_gauge, rested_gauge};
ghost use Rattle.snd_meters.specs.Slots.{gauge};

use snd_taps::{Tap, TapKind, TapState, feed_all};

/// A tap in its place.
#[derive(Drop)]
pub(crate) struct Slot {
    pub(crate) tap: Box<dyn Tap>,
    pub(crate) is_on: bool,
}

impl Slot {
    /// Whether it is of the kind, and on or waiting.
    pub(crate) fn stands(&self, kind: TapKind, is_on: bool) -> bool
        ensures { result ≡ stands is_on kind (gauge (λ s. meter s.tap) self.now) }
    {
        self.is_on == is_on && self.tap.kind() == kind
    }

    pub(crate) fn start(&mut self, low: i32, high: i32)
        ensures { gauge (λ s. meter s.tap) self.new ≡ started_gauge low high (gauge (λ s. meter s.tap) self.old) }
    {
        self.tap.start(low, high);
        self.is_on = true;
    }

    /// Feeds it each whole frame, where it is on.
    pub(crate) fn feed(&mut self, channels: usize, numbers: &[i32])
        ensures { gauge (λ s. meter s.tap) self.new ≡ fed_gauge (groups channels numbers.now) (gauge (λ s. meter s.tap) self.old) }
    {
        if self.is_on {
            feed_all(&mut *self.tap, channels, numbers);
        }
    }

    pub(crate) fn rest(&mut self)
        ensures { gauge (λ s. meter s.tap) self.new ≡ rested_gauge (gauge (λ s. meter s.tap) self.old) }
    {
        self.is_on = false;
    }

    /// What it saw since it was started.
    pub(crate) fn report(&self) -> TapState
        ensures { result ≡ (meter self.now.tap).state }
    {
        self.tap.report()
    }
}

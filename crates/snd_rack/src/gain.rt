//! Samples multiplied by a fraction.

ghost use Rattle.std.specs.Prelude.{◌≡◌};
ghost use Rattle.snd_rack.specs.Held.{idle};
ghost use Rattle.snd_rack.specs.Stage.{Stated};

use crate::samples::scale;
use crate::setting::{Setting, StageKind};
use crate::stage::Stage;
use arrayvec::ArrayVec;

/// Each sample becomes a / b of it, rounded toward minus infinity and kept within the range.
#[derive(Drop)]
pub struct Gain {
    a: u16,
    b: u16,
    low: i32,
    high: i32,
    seen: u64,
}

impl Gain {
    ghost use Rattle.snd_rack.specs.declared.setting.StageKind.TheVariants.{Gain as gain_kind};

    /// One that was not started.
    pub fn new() -> Gain
        ensures { ⟦<Gain as Stage>⟧.stage result ≡ idle gain_kind (Stated.gain 0 0) }
    {
        Gain {
            a: 0,
            b: 0,
            low: 0,
            high: 0,
            seen: 0,
        }
    }
}

impl Stage for Gain {
    ghost use Rattle.snd_rack.specs.Stages.{gain_held};

    ghost stage = { gain_held };

    fn kind(&self) -> StageKind {
        StageKind::Gain
    }

    fn start(&mut self, setting: &Setting, low: i32, high: i32) {
        let Setting::Gain { a, b } = setting else {
            unreachable!();
        };
        self.a = *a;
        self.b = *b;
        self.low = low;
        self.high = high;
        self.seen = 0;
    }

    fn apply(&mut self, frame: &mut ArrayVec<i32, 256>) {
        scale(frame.as_mut_slice(), self.a, self.b, self.low, self.high);
        self.seen = self.seen.saturating_add(1);
    }

    fn apply_all(
        &mut self,
        channels: usize,
        block: &mut ArrayVec<i32, 16384>,
        _spare: &mut ArrayVec<i32, 16384>,
    ) {
        let frames = block.len() / channels;
        scale(block.as_mut_slice(), self.a, self.b, self.low, self.high);
        self.seen = self.seen.saturating_add(frames as u64);
    }
}

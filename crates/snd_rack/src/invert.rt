//! Samples with their signs turned.

ghost use Rattle.std.specs.Prelude.{◌≡◌};
ghost use Rattle.snd_rack.specs.Held.{idle};
ghost use Rattle.snd_rack.specs.Stage.{Stated};

use crate::samples::negate;
use crate::setting::{Setting, StageKind};
use crate::stage::Stage;
use arrayvec::ArrayVec;

/// Each sample becomes its negative, and the lowest number of the range the highest.
#[derive(Drop)]
pub struct Invert {
    low: i32,
    high: i32,
    seen: u64,
}

impl Invert {
    ghost use Rattle.snd_rack.specs.declared.setting.StageKind.TheVariants.{Invert as invert_kind};

    /// One that was not started.
    pub fn new() -> Invert
        ensures { ⟦<Invert as Stage>⟧.stage result ≡ idle invert_kind Stated.invert }
    {
        Invert {
            low: 0,
            high: 0,
            seen: 0,
        }
    }
}

impl Stage for Invert {
    ghost use Rattle.snd_rack.specs.Stages.{invert_held};

    ghost stage = { invert_held };

    fn kind(&self) -> StageKind {
        StageKind::Invert
    }

    fn start(&mut self, setting: &Setting, low: i32, high: i32) {
        let Setting::Invert = setting else {
            unreachable!();
        };
        self.low = low;
        self.high = high;
        self.seen = 0;
    }

    fn apply(&mut self, frame: &mut ArrayVec<i32, 256>) {
        negate(frame.as_mut_slice(), self.low, self.high);
        self.seen = self.seen.saturating_add(1);
    }

    fn apply_all(
        &mut self,
        channels: usize,
        block: &mut ArrayVec<i32, 16384>,
        _spare: &mut ArrayVec<i32, 16384>,
    ) {
        let frames = block.len() / channels;
        negate(block.as_mut_slice(), self.low, self.high);
        self.seen = self.seen.saturating_add(frames as u64);
    }
}

//! A rise from silence.

ghost use Rattle.std.specs.Prelude.{◌≡◌};
ghost use Rattle.snd_rack.specs.Held.{idle};
ghost use Rattle.snd_rack.specs.Stage.{Stated};

use crate::samples::{rise, rise_block};
use crate::setting::{Setting, StageKind};
use crate::stage::Stage;
use arrayvec::ArrayVec;

/// The first frames rise from silence to the full sound, each sample rounded toward minus infinity.
#[derive(Drop)]
pub struct Fade {
    count: u32,
    low: i32,
    high: i32,
    seen: u64,
}

impl Fade {
    ghost use Rattle.snd_rack.specs.declared.setting.StageKind.TheVariants.{Fade as fade_kind};

    /// One that was not started.
    pub fn new() -> Fade
        ensures { ⟦<Fade as Stage>⟧.stage result ≡ idle fade_kind (Stated.fade 0) }
    {
        Fade {
            count: 0,
            low: 0,
            high: 0,
            seen: 0,
        }
    }
}

impl Stage for Fade {
    ghost use Rattle.snd_rack.specs.Stages.{fade_held};

    ghost stage = { fade_held };

    fn kind(&self) -> StageKind {
        StageKind::Fade
    }

    fn start(&mut self, setting: &Setting, low: i32, high: i32) {
        let Setting::Fade(count) = setting else {
            unreachable!();
        };
        self.count = *count;
        self.low = low;
        self.high = high;
        self.seen = 0;
    }

    fn apply(&mut self, frame: &mut ArrayVec<i32, 256>) {
        if self.seen < u64::from(self.count) {
            rise(frame.as_mut_slice(), self.seen as u32, self.count);
        }
        self.seen = self.seen.saturating_add(1);
    }

    fn apply_all(
        &mut self,
        channels: usize,
        block: &mut ArrayVec<i32, 16384>,
        spare: &mut ArrayVec<i32, 16384>,
    ) {
        let frames = block.len() / channels;
        rise_block(channels, self.seen, self.count, block, spare);
        self.seen = self.seen.saturating_add(frames as u64);
    }
}

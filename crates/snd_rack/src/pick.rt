//! Samples picked from a frame.

ghost use Rattle.std.specs.Prelude.{◌≡◌, []};
ghost use Rattle.snd_rack.specs.Held.{idle};
ghost use Rattle.snd_rack.specs.Stage.{Stated};

use crate::copies::copy_block;
use crate::samples::{pick, pick_all};
use crate::setting::{Setting, StageKind};
use crate::stage::Stage;
use arrayvec::ArrayVec;

/// A frame gets the samples at some of its places, in an order of their own.
#[derive(Drop)]
pub struct Pick {
    places: ArrayVec<u8, 256>,
    // the frame as it comes, so that no room is made for each
    whole: ArrayVec<i32, 256>,
    low: i32,
    high: i32,
    seen: u64,
}

impl Pick {
    ghost use Rattle.snd_rack.specs.declared.setting.StageKind.TheVariants.{Pick as pick_kind};

    /// One that was not started.
    pub fn new() -> Pick
        ensures { ⟦<Pick as Stage>⟧.stage result ≡ idle pick_kind (Stated.pick []) }
    {
        Pick {
            places: ArrayVec::new(),
            whole: ArrayVec::new(),
            low: 0,
            high: 0,
            seen: 0,
        }
    }
}

impl Stage for Pick {
    ghost use Rattle.snd_rack.specs.Stages.{pick_held};

    ghost stage = { pick_held };

    fn kind(&self) -> StageKind {
        StageKind::Pick
    }

    fn start(&mut self, setting: &Setting, low: i32, high: i32) {
        let Setting::Pick(places) = setting else {
            unreachable!();
        };
        copy_items(places, &mut self.places);
        self.low = low;
        self.high = high;
        self.seen = 0;
    }

    fn apply(&mut self, frame: &mut ArrayVec<i32, 256>) {
        copy_items(frame, &mut self.whole);
        frame.clear();
        pick(self.places.as_slice(), self.whole.as_slice(), frame);
        self.seen = self.seen.saturating_add(1);
    }

    fn apply_all(
        &mut self,
        channels: usize,
        block: &mut ArrayVec<i32, 16384>,
        spare: &mut ArrayVec<i32, 16384>,
    ) {
        let frames = block.len() / channels;
        pick_all(self.places.as_slice(), channels, block.as_slice(), spare);
        copy_block(spare.as_slice(), block);
        self.seen = self.seen.saturating_add(frames as u64);
    }
}

// Makes one list that of another.
fn copy_items<T: Copy + Default>(from: &ArrayVec<T, 256>, to: &mut ArrayVec<T, 256>)
    ensures { to.new.items ≡ from.now.items }
{
    to.clear();
    let _ = to.try_extend_from_slice(from.as_slice());
}

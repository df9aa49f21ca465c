//! What a stage is.

ghost use Rattle.std.specs.Prelude.{◌≡◌, ◌/◌, length};
ghost use Rattle.snd_rack.specs.Held.{Held, MayPass, next, passed, started};
ghost use Rattle.snd_rack.specs.Passing.{MayPassBlock, next_by, passed_block};
ghost use Rattle.snd_rack.specs.Setting.{stated};
ghost use Rattle.snd_rack.specs.Stage.{IsSettled, kind_of};

use crate::copies::{add_samples, copy_block, copy_samples};
use crate::setting::{Setting, StageKind};
use arrayvec::ArrayVec;

/// A stage, through which frames pass. Whoever writes one proves that it does what its kind says.
pub trait Stage: Drop {
    /// What the stage holds: its kind, its setting, the range of a sample, and how many frames have passed.
    ghost stage: { Self → Held };

    /// What it does. No call changes that.
    fn kind(&self) -> StageKind
        ensures { result ≡ (stage self.now).kind };

    /// Begins anew with a setting of its kind: a divisor or a count that is not 0, 1 to 256 places. `low` and `high` are
    /// the ends of the range of a sample.
    fn start(&mut self, setting: &Setting, low: i32, high: i32)
        requires kind { kind_of (stated setting.now) ≡ (stage self.old).kind }
        requires settled { IsSettled (stated setting.now) }
        ensures { stage self.new ≡ started (stated setting.now) low high (stage self.old) };

    /// Changes one frame, a sample for each channel, in its turn. Each sample is in the range, and the frame has those
    /// that are picked.
    fn apply(&mut self, frame: &mut ArrayVec<i32, 256>)
        requires { MayPass (stage self.old) frame.old.items }
        ensures frame { frame.new.items ≡ passed (stage self.old) frame.old.items }
        ensures state { stage self.new ≡ next (stage self.old) };

    /// Changes whole frames of `channels` samples, 1 to 256, as `apply` changes one after the other. What becomes of them has
    /// no more than 16384 samples. What `spare` held is lost.
    fn apply_all(
        &mut self,
        channels: usize,
        block: &mut ArrayVec<i32, 16384>,
        spare: &mut ArrayVec<i32, 16384>,
    )
        requires { MayPassBlock (stage self.old) channels block.old.items }
        ensures block { block.new.items ≡ passed_block (stage self.old) channels block.old.items }
        ensures state { stage self.new ≡ next_by (length block.old.items / channels) (stage self.old) }
    {
        spare.clear();
        let mut frame = ArrayVec::new();
        for samples in block.as_slice().chunks_exact(channels) {
            copy_samples(samples, &mut frame);
            self.apply(&mut frame);
            add_samples(frame.as_slice(), spare);
        }
        copy_block(spare.as_slice(), block);
    }
}

//! Frames that pass boxed stages.

ghost use Rattle.std.specs.Prelude.{◌≡◌, ◌/◌, ◌%◌, ◌≤◌, length, map, true};
ghost use Rattle.std.specs.List.{list_all};
ghost use Rattle.snd_pcm.specs.Groups.{groups};
ghost use Rattle.snd_rack.specs.Passing.{
  AllHaveRoom,
  EachMayPass,
  MayPassBlock,
  each_passed,
  joined,
  later,
  next_by,
  passed_block,
};
ghost use Rattle.snd_rack.specs.Stage.{keeps_width, kind_of};

use crate::copies::{add_samples, copy_block};
use crate::stage::Stage;
use arrayvec::ArrayVec;

// Between two maps a frame may have 256 samples: so many frames have places then.
const MOST_FRAMES: usize = 64;

/// Room for frames between stages, which is kept from block to block.
#[derive(Drop)]
pub struct Room {
    block: ArrayVec<i32, 16384>,
    spare: ArrayVec<i32, 16384>,
}

impl Room {
    /// Room that is used by `pass_frames` and `pass_in_place`.
    pub fn new() -> Room {
        Room {
            block: ArrayVec::new(),
            spare: ArrayVec::new(),
        }
    }
}

fn apply_all(
    each: &mut Box<dyn Stage>,
    channels: usize,
    block: &mut ArrayVec<i32, 16384>,
    spare: &mut ArrayVec<i32, 16384>,
)
    requires { MayPassBlock (stage each.old) channels block.old.items }
    ensures block { block.new.items ≡ passed_block (stage each.old) channels block.old.items }
    ensures state { stage each.new ≡ next_by (length block.old.items / channels) (stage each.old) }
{
    each.apply_all(channels, block, spare);
}

// Passes frames through all stages, so many that they have places behind each.
fn pass_block(
    stages: &mut [Box<dyn Stage>],
    channels: usize,
    block: &mut ArrayVec<i32, 16384>,
    spare: &mut ArrayVec<i32, 16384>,
)
    requires some { 1 ≤ channels }
    requires most { channels ≤ 256 }
    requires one { 1 ≤ length block.old.items / channels }
    requires whole { length block.old.items % channels ≡ 0 }
    requires room { AllHaveRoom (map (λ b. stage b) stages.old) channels (length block.old.items / channels) }
    requires may { EachMayPass (map (λ b. stage b) stages.old) (groups channels block.old.items) }
    ensures block { block.new.items ≡ joined (each_passed (map (λ b. stage b) stages.old) (groups channels block.old.items)) }
    ensures states { map (λ b. stage b) stages.new ≡ later (length block.old.items / channels) (map (λ b. stage b) stages.old) }
{
    let frames = block.len() / channels;
    for each in stages.iter_mut() {
        let width = block.len() / frames;
        apply_all(each, width, block, spare);
    }
}

/// Passes whole frames of `channels` samples through all stages where they stand. No stage is a map, as `keep_width` says it,
/// and each has been started. What the room held is lost.
pub fn pass_in_place(
    stages: &mut [Box<dyn Stage>],
    channels: usize,
    block: &mut ArrayVec<i32, 16384>,
    room: &mut Room,
)
    requires some { 1 ≤ channels }
    requires most { channels ≤ 256 }
    requires whole { length block.old.items % channels ≡ 0 }
    requires keep { list_all keeps_width (map (λ b. (stage b).kind) stages.old) ≡ true }
    requires kinds { map (λ b. (stage b).kind) stages.old ≡ map (λ b. kind_of (stage b).stated) stages.old }
    requires may { EachMayPass (map (λ b. stage b) stages.old) (groups channels block.old.items) }
    ensures frames { block.new.items ≡ joined (each_passed (map (λ b. stage b) stages.old) (groups channels block.old.items)) }
    ensures states { map (λ b. stage b) stages.new ≡ later (length block.old.items / channels) (map (λ b. stage b) stages.old) }
{
    let frames = block.len() / channels;
    if frames > 0 {
        pass_block(stages, channels, block, &mut room.spare);
    }
}

/// Passes whole frames of `channels` samples through all stages, one after the other, and puts what becomes of them into
/// a list, which has places for it. Samples behind the last whole frame are left out. What the room held is lost.
pub fn pass_frames(
    stages: &mut [Box<dyn Stage>],
    channels: usize,
    numbers: &[i32],
    room: &mut Room,
    into: &mut ArrayVec<i32, 16384>,
)
    requires some { 1 ≤ channels }
    requires most { channels ≤ 256 }
    requires may { EachMayPass (map (λ b. stage b) stages.old) (groups channels numbers.now) }
    requires room { length (joined (each_passed (map (λ b. stage b) stages.old) (groups channels numbers.now))) ≤ 16384 }
    ensures frames { into.new.items ≡ joined (each_passed (map (λ b. stage b) stages.old) (groups channels numbers.now)) }
    ensures states { map (λ b. stage b) stages.new ≡ later (length numbers.now / channels) (map (λ b. stage b) stages.old) }
{
    into.clear();
    let whole = numbers.len() - numbers.len() % channels;
    for samples in numbers[..whole].chunks(MOST_FRAMES * channels) {
        copy_block(samples, &mut room.block);
        pass_block(stages, channels, &mut room.block, &mut room.spare);
        add_samples(room.block.as_slice(), into);
    }
}

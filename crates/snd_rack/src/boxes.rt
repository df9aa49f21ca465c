//! The boxes for a rack.

ghost use Rattle.std.specs.Prelude.{◌≡◌, ◌<◌, ◌≤◌, Some, slice_get, length, map, take, true};
ghost use Rattle.std.specs.List.{list_all};
ghost use Rattle.snd_rack.specs.Held.{Held, started};
ghost use Rattle.snd_rack.specs.Setting.{stated};
ghost use Rattle.snd_rack.specs.Stage.{IsSettled, keeps_width, kind_of};
ghost use Rattle.snd_rack.specs.Boxes.{Finds, brought, has_boxes};
ghost use Rattle.snd_rack.specs.Passing.{all_held};

use crate::setting::{Setting, StageKind};
use crate::spec::RackSpec;
use crate::stage::Stage;

fn kind_of(each: &Box<dyn Stage>) -> StageKind
    ensures { result ≡ (stage each.now).kind }
{
    each.kind()
}

fn kind_at(stages: &[Box<dyn Stage>], at: usize) -> StageKind
    requires { at < length stages.now }
    ensures { Some result ≡ slice_get (map (λ b. (stage b).kind) stages.now) at }
{
    kind_of(&stages[at])
}

fn start(each: &mut Box<dyn Stage>, setting: &Setting, low: i32, high: i32)
    requires kind { kind_of (stated setting.now) ≡ (stage each.old).kind }
    requires settled { IsSettled (stated setting.now) }
    ensures { stage each.new ≡ started (stated setting.now) low high (stage each.old) }
{
    each.start(setting, low, high);
}

// Where the first box of a kind stands, from a place on.
fn find(stages: &[Box<dyn Stage>], kind: StageKind, from: usize) -> Option<usize>
    ensures { Finds kind from (map (λ b. (stage b).kind) stages.now) result }
{
    for at in from..stages.len() {
        if kind_at(stages, at) == kind {
            return Some(at);
        }
    }
    None
}

/// Whether a frame has as many samples behind each box as before it: none is a map.
pub fn keep_width(stages: &[Box<dyn Stage>]) -> bool
    ensures { result ≡ list_all keeps_width (map (λ b. (stage b).kind) stages.now) }
{
    find(stages, StageKind::Pick, 0).is_none()
}

// Takes a box to a place before it, and those between one place on.
fn bring(stages: &mut [Box<dyn Stage>], at: usize, found: usize)
    requires before { at ≤ found }
    requires there { found < length stages.old }
    ensures order { stages.new ≡ brought at found stages.old }
    ensures same { length stages.new ≡ length stages.old }
{
    stages[at..=found].rotate_right(1);
}

/// Puts a box of its kind at the place of each item of a rack: the first that no item before took. The order of the
/// others stays. The answer is false where the rack has more items of a kind than there are boxes of it.
pub fn choose(stages: &mut [Box<dyn Stage>], spec: &RackSpec<'_>) -> bool
    ensures answer { result ≡ has_boxes spec.now (map (λ b. (stage b).kind) stages.old) }
    ensures chosen { result ≡ true → map (λ b. (stage b).kind) (take (length spec.now) stages.new) ≡ map kind_of spec.now }
    ensures same { length stages.new ≡ length stages.old }
{
    for at in 0..spec.len() {
        let Some(setting) = spec.get(at) else {
            unreachable!();
        };
        let Some(found) = find(stages, setting.kind(), at) else {
            return false;
        };
        bring(stages, at, found);
    }
    true
}

/// Starts each box with the setting at its place.
pub fn start_all(stages: &mut [Box<dyn Stage>], spec: &RackSpec<'_>, low: i32, high: i32)
    requires { map (λ b. (stage b).kind) stages.old ≡ map kind_of spec.now }
    ensures { map (λ b. stage b) stages.new ≡ all_held low high 0 spec.now }
{
    for (at, each) in stages.iter_mut().enumerate() {
        let Some(setting) = spec.get(at) else {
            unreachable!();
        };
        start(each, &setting, low, high);
    }
}

//! A rack as a word of a command line says it.

ghost use Rattle.std.specs.Prelude.{◌≡◌, ◌≤◌, IfSome, length, option_map, slice_get};
ghost use Rattle.snd_rack.specs.Passing.{AllSettled};
ghost use Rattle.snd_rack.specs.Rack.{bad_place, channels_after};
ghost use Rattle.snd_rack.specs.Setting.{stated};
ghost use Rattle.snd_rack.specs.Spec.{fade_of, gain_of, invert_of, item_of, pick_of, places_of, rack_of};
ghost use Rattle.snd_rack.specs.Stage.{IsSettled};

use crate::parts::{behind, count_parts, number_in, part_at};
use crate::setting::Setting;
use arrayvec::ArrayVec;
use std::marker::Model;

const MOST_ITEMS: usize = 8;

const MOST_PLACES: usize = 256;

// `gain:A/B`
#[tactic(auto, unfolding(crate::specs::Spec::gain_of))]
fn gain_of(text: &[u8]) -> Option<Setting>
    ensures { option_map stated result ≡ gain_of text.now }
{
    let numbers = behind(b"gain:", text)?;
    if count_parts(b'/', numbers) != 2 {
        return None;
    }
    let upper = part_at(b'/', numbers, 0)?;
    let lower = part_at(b'/', numbers, 1)?;
    let a = number_in(0, 65535, upper)?;
    let b = number_in(1, 65535, lower)?;
    Some(Setting::Gain {
        a: a as u16,
        b: b as u16,
    })
}

// The places of a map, with dots between.
fn places_of(text: &[u8]) -> Option<ArrayVec<u8, 256>>
    ensures { option_map (λ places. places.items) result ≡ places_of text.now }
{
    let count = count_parts(b'.', text);
    if count > MOST_PLACES {
        return None;
    }
    let mut places = ArrayVec::new();
    for at in 0..count {
        let part = part_at(b'.', text, at)?;
        let place = number_in(0, 255, part)?;
        places.push(place as u8);
    }
    Some(places)
}

// `map:I.J..`
#[tactic(auto, unfolding(crate::specs::Spec::pick_of))]
fn pick_of(text: &[u8]) -> Option<Setting>
    ensures { option_map stated result ≡ pick_of text.now }
{
    let list = behind(b"map:", text)?;
    let places = places_of(list)?;
    Some(Setting::Pick(places))
}

// `fade:N`
#[tactic(auto, unfolding(crate::specs::Spec::fade_of))]
fn fade_of(text: &[u8]) -> Option<Setting>
    ensures { option_map stated result ≡ fade_of text.now }
{
    let digits = behind(b"fade:", text)?;
    let count = number_in(1, 4294967295, digits)?;
    Some(Setting::Fade(count as u32))
}

#[tactic(auto, unfolding(crate::specs::Spec::invert_of))]
fn invert_of(text: &[u8]) -> Option<Setting>
    ensures { option_map stated result ≡ invert_of text.now }
{
    if text == b"invert".as_slice() {
        Some(Setting::Invert)
    } else {
        None
    }
}

// One item.
#[tactic(auto, unfolding(crate::specs::Spec::item_of))]
fn item_of(text: &[u8]) -> Option<Setting>
    ensures { option_map stated result ≡ item_of text.now }
{
    if let Some(gain) = gain_of(text) {
        return Some(gain);
    }
    if let Some(pick) = pick_of(text) {
        return Some(pick);
    }
    if let Some(fade) = fade_of(text) {
        return Some(fade);
    }
    invert_of(text)
}

/// The settings of a rack, in the order in which the frames pass them, as a text says them. Contracts see a list.
#[derive(Drop)]
pub struct RackSpec<'a> {
    text: &'a [u8],
    count: usize,
}

impl<'a> Model for RackSpec<'a> {
    ghost use Rattle.std.specs.Prelude.{List};
    ghost use Rattle.snd_rack.specs.Stage.{Stated};

    ghost Value = { List Stated };

    ghost use Rattle.snd_rack.specs.Reading.{IsRead, items_in};

    ghost view = { λ s. items_in s.text.now };

    ghost invariant = { λ s. IsRead s.text.now s.count };
}

impl<'a> RackSpec<'a> {
    /// The settings that a text says: 1 to 8 items with commas between, `gain:A/B` with A from 0 to 65535 and B from 1
    /// to 65535, `invert`, `map:I.J..` with 1 to 256 numbers from 0 to 255, and `fade:N` with N from 1 to 4294967295. A
    /// number has 1 to 10 digits, leading zeros among them. `None` where it says no such list.
    pub fn read(text: &'a [u8]) -> Option<RackSpec<'a>>
        ensures { result ≡ rack_of text.now }
    {
        let count = count_parts(b',', text);
        if count > MOST_ITEMS {
            return None;
        }
        for at in 0..count {
            let item = part_at(b',', text, at)?;
            let Some(_) = item_of(item) else {
                return None;
            };
        }
        Some(RackSpec { text, count })
    }

    /// What holds of all settings: no divisor and no count is 0, and 1 to 256 samples are picked.
    pub fn are_settled(&self)
        ensures { AllSettled self.now }
    {
        let _ = &self.text;
    }

    /// How many settings there are, from 1 to 8.
    pub fn len(&self) -> usize
        ensures count { result ≡ length self.now }
        ensures some { 1 ≤ result }
        ensures most { result ≤ 8 }
    {
        self.count
    }

    /// The setting at a place, counted from 0: none from the length on.
    pub fn get(&self, at: usize) -> Option<Setting>
        ensures value { option_map stated result ≡ slice_get self.now at }
        ensures settled { IfSome result (λ s. IsSettled (stated s)) }
    {
        let item = part_at(b',', self.text, at)?;
        item_of(item)
    }

    /// How many samples a frame has behind all stages that comes with so many.
    pub fn channels_after(&self, channels: usize) -> usize
        ensures { result ≡ channels_after self.now channels }
    {
        let mut count = channels;
        for at in 0..self.len() {
            let Some(setting) = self.get(at) else {
                unreachable!();
            };
            count = setting.channels_behind(count);
        }
        count
    }

    /// Whether one of them picks a sample that a frame does not have when it comes there, where it first has so many.
    pub fn bad_place(&self, channels: usize) -> bool
        ensures { result ≡ bad_place self.now channels }
    {
        let mut count = channels;
        for at in 0..self.len() {
            let Some(setting) = self.get(at) else {
                unreachable!();
            };
            if setting.is_bad(count) {
                return true;
            }
            count = setting.channels_behind(count);
        }
        false
    }
}

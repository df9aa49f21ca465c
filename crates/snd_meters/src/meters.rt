//! The taps of a session, in their order.

ghost use Rattle.std.specs.Prelude.{◌≡◌, IfOk, map};
ghost use Rattle.snd_pcm.specs.Groups.{groups};
ghost use Rattle.snd_meters.specs.First.{IsPlaceOf};
ghost use Rattle.snd_meters.specs.Gauge.{waiting, stands};
ghost use Rattle.snd_meters.specs.Gauges.{start_answer, after_start, stop_answer, after_stop, after_feed, after_rest};
ghost use Rattle.snd_meters.specs.Slots.{gauge, gauges, Become};

use crate::slot::Slot;
use snd_lines::Refusal;
use snd_taps::{Tap, TapKind, TapState};
use std::alloc::{AllocError, Global};

/// The taps that a session was handed, in their order. Each waits or is on, until it is dropped.
#[derive(Drop)]
pub struct Meters {
    slots: Vec<Slot>,
}

impl Meters {
    /// All of them wait. Where there is no memory for the list, they are dropped.
    pub fn new(alloc: Global, taps: Vec<Box<dyn Tap>>) -> Result<Meters, AllocError>
        ensures { IfOk result (λ m. gauges (λ s. meter s.tap) m ≡ map (λ b. waiting (meter b).kind) taps.items) }
    {
        let mut slots = Vec::new(alloc);
        for tap in taps {
            slots.push(Slot { tap, is_on: false })?;
        }
        Ok(Meters { slots })
    }

    /// Where the first of a kind stands that is on, or that waits.
    fn find(&self, kind: TapKind, is_on: bool) -> Option<usize>
        ensures { IsPlaceOf (λ slot. stands is_on kind (gauge (λ s. meter s.tap) slot)) self.now.slots.items result }
    {
        for (at, slot) in self.slots.iter().enumerate() {
            if slot.stands(kind, is_on) {
                return Some(at);
            }
        }
        None
    }

    /// Starts the first that waits of a kind. `low` and `high` are the ends of the range of a sample.
    /// `TapOn` where one of the kind is on, else `NoSuchTap` where none waits.
    pub fn start(&mut self, kind: TapKind, low: i32, high: i32) -> Result<(), Refusal>
        ensures answer { result ≡ start_answer kind (gauges (λ s. meter s.tap) self.old) }
        ensures after { Become (λ s. meter s.tap) (after_start kind low high) self.old self.new }
    {
        if let Some(_) = self.find(kind, true) {
            return Err(Refusal::TapOn);
        }
        let Some(at) = self.find(kind, false) else {
            return Err(Refusal::NoSuchTap);
        };
        self.slots[at].start(low, high);
        Ok(())
    }

    /// Drops the one of a kind that is on, which never comes back, and tells what it saw. `NoSuchTap` where none is on.
    pub fn stop(&mut self, kind: TapKind) -> Result<TapState, Refusal>
        ensures answer { result ≡ stop_answer kind (gauges (λ s. meter s.tap) self.old) }
        ensures after { Become (λ s. meter s.tap) (after_stop kind) self.old self.new }
    {
        let Some(at) = self.find(kind, true) else {
            return Err(Refusal::NoSuchTap);
        };
        let slot = self.slots.remove(at);
        Ok(slot.report())
    }

    /// Feeds each tap that is on all whole frames of `channels` samples, in order.
    pub fn feed(&mut self, channels: usize, numbers: &[i32])
        ensures { Become (λ s. meter s.tap) (after_feed (groups channels numbers.now)) self.old self.new }
    {
        for slot in self.slots.iter_mut() {
            slot.feed(channels, numbers);
        }
    }

    /// Those that are on wait again, at their old places, and nothing is told of them.
    pub fn rest(&mut self)
        ensures { Become (λ s. meter s.tap) after_rest self.old self.new }
    {
        for each in self.slots.iter_mut() {
            each.rest();
        }
    }
}

//! The commands with a list of numbers.

ghost use Rattle.std.specs.Prelude.{◌≡◌, ◌≤◌, [], length, option_map};
ghost use Rattle.snd_command.specs.Forms.{signed};
ghost use Rattle.snd_command.specs.Numbers.{all_of, place, places, set_cue_said, write_said};
ghost use Rattle.snd_command.specs.Said.{said_of};
ghost use Rattle.snd_command.specs.Words.{words};

use crate::command::{Command, MOST_CUES, MOST_SAMPLES};
use crate::forms::signed;
use crate::words::next_word;
use arrayvec::ArrayVec;
use snd_fields::decimal;

const LARGEST_PLACE: u64 = (1 << 32) - 1;

/// Room for the numbers of one line, which is made once and used again from line to line.
#[derive(Drop)]
pub struct NumberRoom {
    /// Those of the last `write` that was read.
    pub samples: ArrayVec<i32, MOST_SAMPLES>,
    /// Those of the last `set cue`.
    pub places: ArrayVec<u32, MOST_CUES>,
}

impl NumberRoom {
    /// Room with no numbers in it.
    pub fn new() -> NumberRoom
        ensures samples { result.samples.items ≡ [] }
        ensures places { result.places.items ≡ [] }
    {
        NumberRoom {
            samples: ArrayVec::new(),
            places: ArrayVec::new(),
        }
    }
}

// the numbers of `write`, where each word is one
fn read_samples(args: &[u8], into: &mut ArrayVec<i32, MOST_SAMPLES>) -> Option<()>
    requires { length args.now ≤ 4095 }
    ensures { option_map (λ done. into.new.items) result ≡ all_of signed (words args.now) }
{
    into.clear();
    let mut rest = args;
    while let Some((word, behind)) = next_word(rest) {
        into.push(signed(word)?);
        rest = behind;
    }
    Some(())
}

// `write S S ..`
#[inline(never)]
pub fn parse_write<'a>(args: &'a [u8], room: &'a mut NumberRoom) -> Option<Command<'a>>
    requires { length args.now ≤ 4095 }
    ensures { option_map said_of result ≡ write_said (words args.now) }
{
    if next_word(args).is_none() {
        return None;
    }
    read_samples(args, &mut room.samples)?;
    Some(Command::Write(&room.samples))
}

// a place of a cue point
fn place_of(word: &[u8]) -> Option<u32>
    ensures { result ≡ place word.now }
{
    let place = decimal(word)?;
    if place > LARGEST_PLACE {
        return None;
    }
    Some(place as u32)
}

// the places of `set cue`, where each word is one and they are not too many
fn read_places(args: &[u8], into: &mut ArrayVec<u32, MOST_CUES>) -> Option<()>
    ensures { option_map (λ done. into.new.items) result ≡ places (words args.now) }
{
    into.clear();
    let mut rest = args;
    while let Some((word, behind)) = next_word(rest) {
        if into.is_full() {
            return None;
        }
        into.push(place_of(word)?);
        rest = behind;
    }
    Some(())
}

// `set cue N N ..`
#[inline(never)]
pub fn parse_set_cue<'a>(args: &'a [u8], room: &'a mut NumberRoom) -> Option<Command<'a>>
    ensures { option_map said_of result ≡ set_cue_said (words args.now) }
{
    if next_word(args).is_none() {
        return None;
    }
    read_places(args, &mut room.places)?;
    Some(Command::SetCue(&room.places))
}

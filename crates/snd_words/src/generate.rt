//! The command `gen`.

ghost use Rattle.std.specs.Prelude.{◌≡◌, ◌≤◌, IfSome, drop};
ghost use Rattle.snd_words.specs.Asked.{IsAsked};
ghost use Rattle.snd_words.specs.Generate.{gen_asked, number_within};
ghost use Rattle.snd_words.specs.Request.{asked_by};

use crate::names::is_name;
use crate::request::{Request, Tool};
use snd_fields::{Words, decimal};

const LARGEST_SEED: u64 = 4_294_967_295;

const MOST_FRAMES: u64 = 10_000_000;

/// What `gen` is to make.
#[derive(Clone, Copy, Debug, PartialEq, Eq)]
pub struct Generation<'a> {
    /// What the frames are made from, at most 2^32 - 1.
    pub seed: u64,
    /// How many frames, 1 to 10000000.
    pub frames: u64,
    /// The name of the file to make.
    pub name: &'a str,
}

/// The number that a word writes, where it is not below one and not above another.
#[tactic(auto, unfolding(crate::specs::Generate::number_within))]
fn number_within(least: u64, most: u64, word: &str) -> Option<u64>
    ensures number { result ≡ number_within least most word.now }
    ensures range { IfSome result (λ n. (least ≤ n) × (n ≤ most)) }
{
    let number = decimal(word.as_bytes())?;
    if least <= number && number <= most {
        Some(number)
    } else {
        None
    }
}

/// What the words behind `gen` ask for.
#[tactic(auto, unfolding(crate::specs::Generate::gen_asked))]
pub(crate) fn gen_request(words: &Words) -> Option<Request<'_>>
    ensures words { asked_by result ≡ gen_asked (drop 1 words.now) }
    ensures good { IsAsked (asked_by result) }
{
    let seed = words.get(1)?;
    let frames = words.get(2)?;
    let name = words.get(3)?;
    if words.len() > 4 || !is_name(name) {
        return None;
    }
    let seed = number_within(0, LARGEST_SEED, seed)?;
    let frames = number_within(1, MOST_FRAMES, frames)?;
    Some(Request::Tool(Tool::Generate(Generation { seed, frames, name })))
}

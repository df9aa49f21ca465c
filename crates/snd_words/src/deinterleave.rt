//! The command `deinterleave`.

ghost use Rattle.std.specs.Prelude.{◌≡◌, drop};
ghost use Rattle.snd_words.specs.Asked.{IsAsked};
ghost use Rattle.snd_words.specs.Deinterleave.{deinterleave_asked};
ghost use Rattle.snd_words.specs.Request.{asked_by};

use crate::names::{Names, name_at};
use crate::request::{Request, Tool};
use snd_fields::Words;

/// The most files that `deinterleave` makes.
const MOST_OUTPUTS: usize = 64;

/// What `deinterleave` is to do.
#[derive(Drop)]
pub struct Deinterleaving<'a> {
    /// The name of the file to read.
    pub input: &'a str,
    /// The names of the 1 to 64 files to make, in the order of the channels.
    pub outputs: Names<'a>,
}

/// What the words behind `deinterleave` ask for.
#[tactic(auto, unfolding(crate::specs::Deinterleave::deinterleave_asked))]
pub(crate) fn deinterleave_request(words: &Words) -> Option<Request<'_>>
    ensures words { asked_by result ≡ deinterleave_asked (drop 1 words.now) }
    ensures good { IsAsked (asked_by result) }
{
    let count = words.len();
    if count < 3 || count > MOST_OUTPUTS + 2 {
        return None;
    }
    let input = name_at(words, 1)?;
    let outputs = Names::between(words, 2, count)?;
    Some(Request::Tool(Tool::Deinterleave(Deinterleaving { input, outputs })))
}

//! The command `interleave`.

ghost use Rattle.std.specs.Prelude.{◌≡◌, drop};
ghost use Rattle.snd_words.specs.Asked.{IsAsked};
ghost use Rattle.snd_words.specs.Gather.{interleave_asked};
ghost use Rattle.snd_words.specs.Request.{asked_by};

use crate::concat::MOST_INPUTS;
use crate::names::{Names, name_at};
use crate::request::{Request, Tool};
use snd_fields::Words;

/// What `interleave` is to do.
#[derive(Drop)]
pub struct Interleaving<'a> {
    /// The names of the 2 to 64 files to read, in the order of their channels.
    pub inputs: Names<'a>,
    /// The name of the file to make.
    pub output: &'a str,
}

/// What the words behind `interleave` ask for.
#[tactic(auto, unfolding(crate::specs::Gather::gather_asked, crate::specs::Gather::interleave_asked))]
pub(crate) fn interleave_request(words: &Words) -> Option<Request<'_>>
    ensures words { asked_by result ≡ interleave_asked (drop 1 words.now) }
    ensures good { IsAsked (asked_by result) }
{
    let count = words.len();
    if count < 5 || count > MOST_INPUTS + 3 {
        return None;
    }
    let mark = words.get(count - 2)?;
    if mark != "-o" {
        return None;
    }
    let inputs = Names::between(words, 1, count - 2)?;
    let output = name_at(words, count - 1)?;
    Some(Request::Tool(Tool::Interleave(Interleaving { inputs, output })))
}

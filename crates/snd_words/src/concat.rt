//! The command `concat`.

ghost use Rattle.std.specs.Prelude.{◌≡◌, drop};
ghost use Rattle.snd_words.specs.Asked.{IsAsked};
ghost use Rattle.snd_words.specs.Gather.{concat_asked};
ghost use Rattle.snd_words.specs.Request.{asked_by};

use crate::names::{Names, name_at};
use crate::request::{Request, Tool};
use snd_fields::Words;

/// The most files that `concat` and `interleave` read.
pub(crate) const MOST_INPUTS: usize = 64;

/// What `concat` is to do.
#[derive(Drop)]
pub struct Concatenation<'a> {
    /// The names of the 2 to 64 files to read, in their order.
    pub inputs: Names<'a>,
    /// The name of the file to make.
    pub output: &'a str,
}

/// What the words behind `concat` ask for.
#[tactic(auto, unfolding(crate::specs::Gather::gather_asked, crate::specs::Gather::concat_asked))]
pub(crate) fn concat_request(words: &Words) -> Option<Request<'_>>
    ensures words { asked_by result ≡ concat_asked (drop 1 words.now) }
    ensures good { IsAsked (asked_by result) }
{
    let count = words.len();
    if count < 4 || count > MOST_INPUTS + 2 {
        return None;
    }
    let inputs = Names::between(words, 1, count - 1)?;
    let output = name_at(words, count - 1)?;
    Some(Request::Tool(Tool::Concat(Concatenation { inputs, output })))
}

//! The command `salvage`.

ghost use Rattle.std.specs.Prelude.{◌≡◌, ◌≤◌, drop, length};
ghost use Rattle.snd_words.specs.Asked.{IsAsked};
ghost use Rattle.snd_words.specs.Salvage.{salvage_asked};
ghost use Rattle.snd_words.specs.Request.{asked_by};

use crate::names::two_names;
use crate::request::{Request, Tool};
use snd_fields::Words;

/// What `salvage` is to do.
#[derive(Clone, Copy, Debug, PartialEq, Eq)]
pub struct Salvaging<'a> {
    /// The name of the file to read.
    pub input: &'a str,
    /// The name of the file to make.
    pub output: &'a str,
}

/// What the words behind `salvage` ask for.
#[tactic(auto, unfolding(crate::specs::Salvage::salvage_asked))]
pub(crate) fn salvage_request(words: &Words) -> Option<Request<'_>>
    requires { 1 ≤ length words.now }
    ensures words { asked_by result ≡ salvage_asked (drop 1 words.now) }
    ensures good { IsAsked (asked_by result) }
{
    let (input, output) = two_names(words, 1)?;
    Some(Request::Tool(Tool::Salvage(Salvaging { input, output })))
}

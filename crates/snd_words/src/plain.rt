//! The commands `info`, `script`, `--help` and `--version`. Each reads all words, the first one its own.

ghost use Rattle.std.specs.Prelude.{◌≡◌, ◌∷◌, [], drop};
ghost use Rattle.snd_words.specs.Plain.{alone_asked, info_asked, script_asked};
ghost use Rattle.snd_words.specs.Asked.{Asked, IsAsked};
ghost use Rattle.snd_words.specs.Request.{asked_by};

use crate::names::{Names, name_at};
use crate::request::Request;
use snd_fields::Words;

const MOST_NAMES: usize = 64;

/// What the words behind `info` ask for.
#[tactic(auto, unfolding(crate::specs::Plain::info_asked))]
pub(crate) fn info_request(words: &Words) -> Option<Request<'_>>
    ensures words { asked_by result ≡ info_asked (drop 1 words.now) }
    ensures good { IsAsked (asked_by result) }
{
    let end = words.len();
    if end < 2 || end > 1 + MOST_NAMES {
        return None;
    }
    let names = Names::between(words, 1, end)?;
    Some(Request::Info(names))
}

/// What the words behind `script` ask for.
#[tactic(auto, unfolding(crate::specs::Plain::script_asked))]
pub(crate) fn script_request(words: &Words) -> Option<Request<'_>>
    ensures words { asked_by result ≡ script_asked (drop 1 words.now) }
    ensures good { IsAsked (asked_by result) }
{
    let Some(option) = words.get(1) else {
        return Some(Request::Script(None));
    };
    if option != "--auto" || words.len() > 3 {
        return None;
    }
    let name = name_at(words, 2)?;
    Some(Request::Script(Some(name)))
}

/// What the words behind `--help` ask for.
#[tactic(auto, unfolding(crate::specs::Plain::alone_asked))]
pub(crate) fn help_request(words: &Words) -> Option<Request<'_>>
    ensures words { asked_by result ≡ alone_asked Asked.help (drop 1 words.now) }
    ensures good { IsAsked (asked_by result) }
{
    if words.len() > 1 {
        return None;
    }
    Some(Request::Help)
}

/// What the words behind `--version` ask for.
#[tactic(auto, unfolding(crate::specs::Plain::alone_asked))]
pub(crate) fn version_request(words: &Words) -> Option<Request<'_>>
    ensures words { asked_by result ≡ alone_asked Asked.version (drop 1 words.now) }
    ensures good { IsAsked (asked_by result) }
{
    if words.len() > 1 {
        return None;
    }
    Some(Request::Version)
}

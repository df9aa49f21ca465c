//! The command `metadata-set`.

ghost use Rattle.std.specs.Prelude.{◌≡◌, ◌≤◌, drop, length};
ghost use Rattle.snd_words.specs.Asked.{IsAsked};
ghost use Rattle.snd_words.specs.Metadata.{metadata_asked};
ghost use Rattle.snd_words.specs.Request.{asked_by};

use crate::names::two_names;
use crate::pairs::{MetadataSettings, are_distinct, count_pairs};
use crate::request::{Request, Tool};
use snd_fields::Words;

/// What `metadata-set` is to do.
#[derive(Drop)]
pub struct MetadataChange<'a> {
    /// What to set: one or more, and none of them twice.
    pub settings: MetadataSettings<'a>,
    /// The name of the file to read.
    pub input: &'a str,
    /// The name of the file to make.
    pub output: &'a str,
}

/// What the words behind `metadata-set` ask for.
#[tactic(auto, unfolding(crate::specs::Metadata::metadata_asked))]
pub(crate) fn metadata_request(words: &Words) -> Option<Request<'_>>
    requires { 1 ≤ length words.now }
    ensures words { asked_by result ≡ metadata_asked (drop 1 words.now) }
    ensures good { IsAsked (asked_by result) }
{
    let count = count_pairs(words);
    if count == 0 || !are_distinct(words, count) {
        return None;
    }
    let (input, output) = two_names(words, 2 * count + 1)?;
    let settings = MetadataSettings::read(words, count)?;
    Some(Request::Tool(Tool::SetMetadata(MetadataChange {
        settings,
        input,
        output,
    })))
}

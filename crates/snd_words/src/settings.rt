//! What the options of `metadata-set` set. Each is an option and the word behind it.

ghost use Rattle.std.specs.Prelude.{◌≡◌, option_map};
ghost use Rattle.std.specs.List.{list_all};
ghost use Rattle.snd_words.specs.Metadata.{field_of, info_of, is_not_zero, is_text, stated_by};
ghost use Rattle.snd_words.specs.Setting.{stated};

use snd_fields::decimal;
use snd_meta::{BextKey, InfoKey};

/// What one option of `metadata-set` sets.
#[derive(Clone, Copy, Debug, PartialEq, Eq)]
pub enum MetadataSetting<'a> {
    /// A text of the INFO list: 1 or more bytes, none of them 0.
    Text(InfoKey, &'a str),
    /// A field of the broadcast extension: the same, and never the time reference.
    Field(BextKey, &'a str),
    /// The time reference of the broadcast extension, at most 2^63 - 1.
    Time(u64),
}

#[tactic(auto, unfolding(crate::specs::Metadata::info_of))]
fn info_of(option: &str) -> Option<InfoKey>
    ensures { result ≡ info_of option.now }
{
    if option == "--str-title" {
        Some(InfoKey::Title)
    } else if option == "--str-artist" {
        Some(InfoKey::Artist)
    } else if option == "--str-comment" {
        Some(InfoKey::Comment)
    } else if option == "--str-copyright" {
        Some(InfoKey::Copyright)
    } else if option == "--str-date" {
        Some(InfoKey::Date)
    } else if option == "--str-album" {
        Some(InfoKey::Album)
    } else {
        None
    }
}

#[tactic(auto, unfolding(crate::specs::Metadata::field_of))]
fn field_of(option: &str) -> Option<BextKey>
    ensures { result ≡ field_of option.now }
{
    if option == "--bext-description" {
        Some(BextKey::Description)
    } else if option == "--bext-originator" {
        Some(BextKey::Originator)
    } else if option == "--bext-orig-ref" {
        Some(BextKey::OrigRef)
    } else if option == "--bext-orig-date" {
        Some(BextKey::OrigDate)
    } else if option == "--bext-orig-time" {
        Some(BextKey::OrigTime)
    } else if option == "--bext-coding-hist" {
        Some(BextKey::CodingHist)
    } else {
        None
    }
}

fn is_not_zero(c: u8) -> bool
    ensures { result ≡ is_not_zero c }
{
    c != 0
}

fn has_no_zero(text: &[u8]) -> bool
    ensures { result ≡ list_all is_not_zero text.now }
{
    text.iter().all(|c| is_not_zero(*c))
}

#[tactic(auto, unfolding(crate::specs::Metadata::is_text))]
fn is_text(word: &str) -> bool
    ensures { result ≡ is_text word.now }
{
    let text = word.as_bytes();
    1 <= text.len() && has_no_zero(text)
}

/// What an option and the word behind it set.
#[tactic(auto, unfolding(crate::specs::Metadata::stated_by))]
pub(crate) fn stated_by<'a>(option: &str, text: &'a str) -> Option<MetadataSetting<'a>>
    ensures { option_map stated result ≡ stated_by option.now text.now }
{
    if option == "--bext-time-ref" {
        let time = decimal(text.as_bytes())?;
        return Some(MetadataSetting::Time(time));
    }
    if !is_text(text) {
        return None;
    }
    if let Some(key) = info_of(option) {
        return Some(MetadataSetting::Text(key, text));
    }
    let key = field_of(option)?;
    Some(MetadataSetting::Field(key, text))
}

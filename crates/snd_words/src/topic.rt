//! `COMMAND --help`: of which command the text is asked.

ghost use Rattle.std.specs.Prelude.{◌≡◌};
ghost use Rattle.snd_words.specs.Topics.{asks_help, topic_of};

use snd_fields::Words;

/// A command whose own text is asked.
#[derive(Clone, Copy, Debug, PartialEq, Eq)]
pub enum Topic {
    /// `info`
    Info,
    /// `convert`
    Convert,
    /// `concat`
    Concat,
    /// `interleave`
    Interleave,
    /// `metadata-set`
    SetMetadata,
    /// `gen`
    Generate,
    /// `import`
    Import,
    /// `export`
    Export,
    /// `salvage`
    Salvage,
    /// `deinterleave`
    Deinterleave,
    /// `script`
    Script,
}

/// The command of a name, where there is one.
#[tactic(auto, unfolding(crate::specs::Topics::topic_of))]
pub(crate) fn topic_of(command: &str) -> Option<Topic>
    ensures { result ≡ topic_of command.now }
{
    if command == "info" {
        Some(Topic::Info)
    } else if command == "convert" {
        Some(Topic::Convert)
    } else if command == "concat" {
        Some(Topic::Concat)
    } else if command == "interleave" {
        Some(Topic::Interleave)
    } else if command == "metadata-set" {
        Some(Topic::SetMetadata)
    } else if command == "gen" {
        Some(Topic::Generate)
    } else if command == "import" {
        Some(Topic::Import)
    } else if command == "export" {
        Some(Topic::Export)
    } else if command == "salvage" {
        Some(Topic::Salvage)
    } else if command == "deinterleave" {
        Some(Topic::Deinterleave)
    } else if command == "script" {
        Some(Topic::Script)
    } else {
        None
    }
}

/// Whether the words are two, of which the second one is `--help`.
#[tactic(auto, unfolding(crate::specs::Topics::asks_help))]
pub(crate) fn asks_help(words: &Words) -> bool
    ensures { result ≡ asks_help words.now }
{
    let Some(word) = words.get(1) else {
        return false;
    };
    word == "--help" && words.len() == 2
}

//! The commands on frames and on meters.

ghost use Rattle.std.specs.Prelude.{◌≡◌, option_map};
ghost use Rattle.snd_command.specs.Said.{said_of};
ghost use Rattle.snd_command.specs.Frames.{auto_said, read_said, seek_said, tap_said, truncate_said, untap_said};
ghost use Rattle.snd_command.specs.Words.{words};

use crate::command::Command;
use crate::tables::{switch_of, tap_of};
use crate::words::{one_word, two_words};
use snd_fields::decimal;

/// The most frames that one line reads.
pub const MOST_FRAMES: u64 = 1024;

// `seek r N`, `seek w N`, `seek rw N`
pub fn parse_seek(args: &[u8]) -> Option<Command<'_>>
    ensures { option_map said_of result ≡ seek_said (words args.now) }
{
    let (which, to) = two_words(args)?;
    let to = decimal(to)?;
    if which == b"r".as_slice() {
        Some(Command::SeekRead(to))
    } else if which == b"w".as_slice() {
        Some(Command::SeekWrite(to))
    } else if which == b"rw".as_slice() {
        Some(Command::SeekBoth(to))
    } else {
        None
    }
}

// `read N`
pub fn parse_read(args: &[u8]) -> Option<Command<'_>>
    ensures { option_map said_of result ≡ read_said (words args.now) }
{
    let count = decimal(one_word(args)?)?;
    if count > MOST_FRAMES {
        return None;
    }
    Some(Command::Read(count))
}

// `truncate N`
pub fn parse_truncate(args: &[u8]) -> Option<Command<'_>>
    ensures { option_map said_of result ≡ truncate_said (words args.now) }
{
    Some(Command::Truncate(decimal(one_word(args)?)?))
}

// `auto on`, `auto off`
pub fn parse_auto(args: &[u8]) -> Option<Command<'_>>
    ensures { option_map said_of result ≡ auto_said (words args.now) }
{
    Some(Command::Auto(switch_of(one_word(args)?)?))
}

// `tap T`
pub fn parse_tap(args: &[u8]) -> Option<Command<'_>>
    ensures { option_map said_of result ≡ tap_said (words args.now) }
{
    Some(Command::Tap(tap_of(one_word(args)?)?))
}

// `untap T`
pub fn parse_untap(args: &[u8]) -> Option<Command<'_>>
    ensures { option_map said_of result ≡ untap_said (words args.now) }
{
    Some(Command::Untap(tap_of(one_word(args)?)?))
}

//! A whole line.

ghost use Rattle.std.specs.Prelude.{◌≡◌, ◌≤◌, length, option_map};
ghost use Rattle.snd_command.specs.Line.{answer_of, command_of, said};
ghost use Rattle.snd_command.specs.Said.{said_of};
ghost use Rattle.snd_command.specs.Set.{text_behind};
ghost use Rattle.snd_command.specs.Words.{words};

use crate::command::Command;
use crate::frames::{parse_auto, parse_read, parse_seek, parse_tap, parse_truncate, parse_untap};
use crate::numbers::{NumberRoom, parse_write};
use crate::opens::{parse_bare, parse_create, parse_get, parse_open};
use crate::refusal::ScriptRefusal;
use crate::sets::parse_set;
use crate::words::{next_word, trim_end};

const LONGEST_LINE: usize = 4096;

// A command by its first word, and what stands behind that. Each arm returns, since the value of an `if`
// is copied at each `else` around it.
#[inline(never)]
fn parse_command<'a>(
    verb: &'a [u8],
    args: &'a [u8],
    room: &'a mut NumberRoom,
) -> Option<Command<'a>>
    requires { length args.now ≤ 4095 }
    ensures { option_map said_of result ≡ said verb.now (words args.now) (text_behind args.now) }
{
    if verb == b"open".as_slice() {
        return parse_open(args);
    } else if verb == b"create".as_slice() {
        return parse_create(args);
    } else if verb == b"seek".as_slice() {
        return parse_seek(args);
    } else if verb == b"read".as_slice() {
        return parse_read(args);
    } else if verb == b"write".as_slice() {
        return parse_write(args, room);
    } else if verb == b"truncate".as_slice() {
        return parse_truncate(args);
    } else if verb == b"auto".as_slice() {
        return parse_auto(args);
    } else if verb == b"set".as_slice() {
        return parse_set(args, room);
    } else if verb == b"get".as_slice() {
        return parse_get(args);
    } else if verb == b"tap".as_slice() {
        return parse_tap(args);
    } else if verb == b"untap".as_slice() {
        return parse_untap(args);
    }
    parse_bare(verb, args)
}

/// What one line of a script says, the line feed at its end left off. Its numbers are read into the room.
///
/// `None` comes exactly for a line of at most 4096 bytes that says nothing: without the spaces at its
/// ends it is empty, or begins with `#`. `LineTooLong` comes exactly for a line of more than 4096 bytes,
/// the spaces at its ends counted, and `BadCommand` exactly for any other line that has the form of no
/// command. Only the space separates words.
pub fn parse_line<'a>(
    line: &'a [u8],
    room: &'a mut NumberRoom,
) -> Result<Option<Command<'a>>, ScriptRefusal>
    ensures { answer_of result ≡ command_of line.now }
{
    if line.len() > LONGEST_LINE {
        return Err(ScriptRefusal::LineTooLong);
    }
    let text = trim_end(line);
    let Some((verb, args)) = next_word(text) else {
        return Ok(None);
    };
    if verb[0] == b'#' {
        return Ok(None);
    }
    match parse_command(verb, args, room) {
        Some(command) => Ok(Some(command)),
        None => Err(ScriptRefusal::BadCommand),
    }
}

//! Why a line of a script is refused that is no command.

ghost use Rattle.snd_rules.specs.Edit.{RefusesLine};

use snd_command::ScriptRefusal;
use snd_lines::Refusal;

/// The refusal of a line that is no command.
pub fn line_refusal(refusal: ScriptRefusal) -> Refusal
    ensures { RefusesLine refusal result }
{
    match refusal {
        ScriptRefusal::LineTooLong => Refusal::LineTooLong,
        ScriptRefusal::BadCommand => Refusal::BadCommand,
    }
}

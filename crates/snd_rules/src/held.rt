//! What a file that stays open to the end of the script refuses.

ghost use Rattle.snd_command.specs.Said.{said_of};
ghost use Rattle.snd_rules.specs.Pinned.{RefusesHeld};

use snd_command::Command;
use snd_lines::Refusal;

/// Why a file that is to stay open refuses a command that would open or close one, or say whether it is
/// updated automatically. None for other commands, and for another file.
pub fn held_refusal(stays: bool, said: Command<'_>) -> Option<Refusal>
    ensures { RefusesHeld stays (said_of said.entry) result }
{
    if !stays {
        return None;
    }
    match said {
        Command::OpenRead { .. }
        | Command::OpenUpdate { .. }
        | Command::Create { .. }
        | Command::Close
        | Command::Auto(_) => Some(Refusal::Pinned),
        _ => None,
    }
}

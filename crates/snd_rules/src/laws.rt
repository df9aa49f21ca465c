//! What holds of every command. The function does nothing: its contract is the law.

ghost use Rattle.snd_rules.specs.Laws.{RefusedLeavesTaps};

/// A command that is refused changes no tap.
pub fn refused_commands_leave_the_taps()
    ensures { RefusedLeavesTaps }
{}

//! What holds of the taps of a session at all times. The function does nothing: its contract is the laws.

ghost use Rattle.snd_meters.specs.Laws.{StartKeepsOne, StopKeepsOne, FeedKeepsOne, NoneAfterRest};

/// Of each kind at most one is on, whatever is called.
pub fn at_most_one_is_on()
    ensures start { StartKeepsOne }
    ensures stop { StopKeepsOne }
    ensures feed { FeedKeepsOne }
    ensures rest { NoneAfterRest }
{}

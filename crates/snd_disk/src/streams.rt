ghost use Rattle.std.specs.Prelude.{◌≡◌, ◌≤◌, ◌++◌, List, ℕ, length, Option, IfOk, OnOk, OnErr, option_map};
ghost use Rattle.snd_disk.specs.State.{Counts, Adds};
ghost use Rattle.snd_disk.specs.Streams.{TakesBytes, AppendsFront};

use crate::Failed;

/// A stream of bytes that come.
pub trait Source {
    /// The bytes that are left, where the source tells them.
    ghost left: { Self → Option (List ℕ) };

    /// How many calls have failed so far.
    ghost faults: { Self → ℕ };

    /// How many bytes were given so far.
    ghost given: { Self → ℕ };

    /// Puts the next bytes into the front of a slice, at least one of them. The answer is how many
    /// came: 0 where the slice is empty or the source is at its end. A failed call takes nothing.
    fn take(&mut self, into: &mut [u8]) -> Result<usize, Failed>
        ensures fits { IfOk result (λ n. n ≤ length into.old) }
        ensures taken { IfOk result (λ n. TakesBytes (left self.old) (left self.new) n into.old into.new) }
        ensures counted { IfOk result (λ n. Adds (given self.old) n (given self.new)) }
        ensures kept { OnErr result (left self.new ≡ left self.old) }
        ensures not_counted { OnErr result (given self.new ≡ given self.old) }
        ensures faults { Counts (faults self.old) (faults self.new) result };
}

/// A stream that bytes are appended to.
pub trait Sink {
    /// What was appended so far, where the sink tells it.
    ghost told: { Self → Option (List ℕ) };

    /// How many calls have failed so far.
    ghost faults: { Self → ℕ };

    /// Appends all of the bytes. Where the call fails, some front of them was appended.
    fn put(&mut self, from: &[u8]) -> Result<(), Failed>
        ensures put { OnOk result (told self.new ≡ option_map (λ t. t ++ from.now) (told self.old)) }
        ensures part { OnErr result (AppendsFront (told self.old) (told self.new) from.now) }
        ensures faults { Counts (faults self.old) (faults self.new) result };
}

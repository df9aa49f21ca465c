ghost use Rattle.std.specs.Prelude.{◌≡◌, ◌⊎◌, ◌+◌, ◌-◌, ◌<◌, ◌≤◌, ◌^◌, List, ℕ, length, min, take, Some, IfOk, OnOk, OnErr};
ghost use Rattle.snd_disk.specs.Bytes.{over};
ghost use Rattle.snd_disk.specs.State.{State, Keeps, Adds, ReadsFrom, SameImages, IsWritten, IsPartlyWritten, IsCut, IsPartlyCut};
ghost use Rattle.snd_disk.specs.Device.{CountsOn, IsStable, IsUnchanged, MixesOn, MixesAllOn, PassesOn, TicksOn, OnlyReadsOn};

/// The answer of a call that failed. The count of faults of the object that was called has risen.
#[derive(Clone, Copy, Debug, PartialEq, Eq)]
pub struct Failed;

/// A call of a disk, by its name: the step at which something above failed.
#[derive(Clone, Copy, Debug, PartialEq, Eq)]
pub enum Step {
    Len,
    Read,
    Write,
    Cut,
    Sync,
}

/// One file, as a device of bytes that a crash may stop at any moment.
///
/// Places and lengths are in bytes and below 2^63. A crash leaves every sector of 512 bytes whole:
/// what is not synced may be lost or kept, sector by sector. A disk may tell its contents, as one in
/// memory does; the clauses on contents and on crashes speak of such a disk.
pub trait Disk {
    /// What is known of the disk.
    ghost state: { Self → State };

    /// What a crash may leave now: its images.
    ghost may_leave: { Self → List ℕ → Type 0 };

    /// What a crash may have left at some moment between two values of the clock.
    ghost left_between: { Self → ℕ → ℕ → List ℕ → Type 0 };

    /// The length in bytes.
    fn len(&mut self) -> Result<u64, Failed>
        ensures value { IfOk result (λ n. n ≡ (state self.old).size) }
        ensures reads { OnlyReadsOn state may_leave left_between self.old self.new }
        ensures faults { CountsOn state self.old self.new result }
        ensures asked { (state self.new).asked ≡ (state self.old).asked };

    /// Copies the bytes from a place on into the front of a slice, and leaves the rest of the slice.
    /// The answer is how many came: the smaller of the slice's length and of what stands there.
    fn read_at(&mut self, at: u64, into: &mut [u8]) -> Result<usize, Failed>
        requires { at + length into.old < 2 ^ 63 }
        ensures value { IfOk result (λ n. n ≡ min (length into.old) ((state self.old).size - at)) }
        ensures bytes { IfOk result (λ n. ReadsFrom (state self.old) at n into.old into.new) }
        ensures reads { OnlyReadsOn state may_leave left_between self.old self.new }
        ensures faults { CountsOn state self.old self.new result }
        ensures asked { Adds (state self.old).asked (length into.old) (state self.new).asked };

    /// Puts bytes at a place. Between the old end and that place there are zeros.
    ///
    /// Where the call fails, any of the sectors that it changes may be new and the others old, or
    /// nothing was changed.
    fn write_at(&mut self, at: u64, from: &[u8]) -> Result<(), Failed>
        requires { at + length from.now < 2 ^ 63 }
        ensures done { OnOk result (IsWritten at from.now (state self.old) (state self.new)) }
        ensures broken { OnErr result (IsPartlyWritten at from.now (state self.old) (state self.new)) }
        ensures images { MixesOn state may_leave (λ b. over b at from.now) self.old self.new }
        ensures all_images { OnOk result (MixesAllOn state may_leave (λ b. over b at from.now) self.old self.new) }
        ensures all_or_none { OnErr result (MixesAllOn state may_leave (λ b. over b at from.now) self.old self.new
            ⊎ IsUnchanged state may_leave left_between self.old self.new) }
        ensures time { PassesOn state may_leave left_between self.old self.new }
        ensures ticks { TicksOn state may_leave left_between self.old self.new }
        ensures faults { CountsOn state self.old self.new result }
        ensures written { Adds (state self.old).written (length from.now) (state self.new).written }
        ensures asked { (state self.new).asked ≡ (state self.old).asked };

    /// Shortens to a length. A call that fails leaves what one of `write_at` would.
    fn cut(&mut self, len: u64) -> Result<(), Failed>
        requires { len ≤ (state self.old).size }
        ensures done { OnOk result (IsCut len (state self.old) (state self.new)) }
        ensures broken { OnErr result (IsPartlyCut len (state self.old) (state self.new)) }
        ensures images { MixesOn state may_leave (take len) self.old self.new }
        ensures all_images { OnOk result (MixesAllOn state may_leave (take len) self.old self.new) }
        ensures all_or_none { OnErr result (MixesAllOn state may_leave (take len) self.old self.new
            ⊎ IsUnchanged state may_leave left_between self.old self.new) }
        ensures time { PassesOn state may_leave left_between self.old self.new }
        ensures ticks { TicksOn state may_leave left_between self.old self.new }
        ensures faults { CountsOn state self.old self.new result }
        ensures written { (state self.new).written ≡ (state self.old).written }
        ensures asked { (state self.new).asked ≡ (state self.old).asked };

    /// Makes the contents stable, with the length.
    fn sync(&mut self) -> Result<(), Failed>
        ensures same { Keeps (state self.old) (state self.new) }
        ensures done { OnOk result (IsStable state may_leave self.new) }
        ensures images { OnErr result (SameImages (may_leave self.old) (may_leave self.new)) }
        ensures time { PassesOn state may_leave left_between self.old self.new }
        ensures ticks { TicksOn state may_leave left_between self.old self.new }
        ensures faults { CountsOn state self.old self.new result }
        ensures written { (state self.new).written ≡ (state self.old).written }
        ensures asked { (state self.new).asked ≡ (state self.old).asked };

    /// The length of what is told is the length.
    ghost size_told: { (d : Self) (b : List ℕ) → (state d).contents ≡ Some b → (state d).size ≡ length b };

    /// No disk is longer than this.
    ghost size_fits: { (d : Self) → (state d).size < 2 ^ 63 };

    /// What is told is itself an image.
    ghost is_left: { (d : Self) (b : List ℕ) → (state d).contents ≡ Some b → may_leave d b };

    /// This moment is one of those that count.
    ghost counts_now: { (d : Self) (s t : ℕ) (x : List ℕ) → s ≤ (state d).clock → (state d).clock ≤ t → may_leave d x → left_between d s t x };

    /// From this moment on there is no other.
    ghost only_now: { (d : Self) (s t : ℕ) (x : List ℕ) → (state d).clock ≤ s → left_between d s t x → may_leave d x };

    /// No moment is to come: up to a value beyond the clock is up to the clock.
    ghost none_to_come: { (d : Self) (s t : ℕ) (x : List ℕ) → (state d).clock ≤ t → left_between d s t x → left_between d s (state d).clock x };

    /// Time splits: what a crash may have left between two values of the clock it may have left up to
    /// a third, or from that one on.
    ghost splits: { (d : Self) (s t u : ℕ) (x : List ℕ) → left_between d s u x → left_between d s t x ⊎ left_between d t u x };
}

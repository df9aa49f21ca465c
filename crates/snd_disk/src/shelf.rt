ghost use Rattle.std.specs.Prelude.{◌≡◌, ◌⊎◌, ◌<◌, ◌≤◌, ◌^◌, List, ℕ, length, true, false, Some, IfOk, IsErrOf, OnErr};
ghost use Rattle.snd_disk.specs.Shelf.{Files, ShelfState, Takes, Stays, Gives, IsMissing, CountsFault, KeepsBytes};
ghost use Rattle.snd_disk.specs.Shelves.{HandsOut, HandsOutNone, KeepsOthers, TakesBack};

use crate::Disk;

/// Why a shelf hands out no disk.
#[derive(Clone, Copy, Debug, PartialEq, Eq)]
pub enum ShelfFault {
    /// There is no file of this name, and none was to be made.
    Missing,
    /// The outside failed. The shelf's count of faults has risen.
    Failed,
    /// There was no memory.
    Memory,
}

/// Files under names, each handed out as a disk, one disk a name at a time.
pub trait Shelf {
    type Disk: Disk;

    /// What is known of the shelf.
    ghost state: { Self → ShelfState };

    /// What a crash may leave of a file now.
    ghost may_leave: { Self → List ℕ → List ℕ → Type 0 };

    /// What a crash may have left of a file between two values of its clock.
    ghost left_between: { Self → List ℕ → ℕ → ℕ → List ℕ → Type 0 };

    /// Hands out the file of this name, with its counts at 0. With `make` a missing one is made, empty.
    fn take(&mut self, name: &str, make: bool) -> Result<Self::Disk, ShelfFault>
        requires { (state self.old).out name.now ≡ false }
        ensures taken { IfOk result (λ d. Takes (state self.old) (state self.new) name.now make (Self.Disk.state d)) }
        ensures images { IfOk result (HandsOut state may_leave left_between Self.Disk.state Self.Disk.may_leave Self.Disk.left_between name.now self.old) }
        ensures stays { OnErr result (Stays (state self.old) (state self.new) name.now make) }
        ensures same_images { OnErr result (HandsOutNone state may_leave left_between name.now self.old self.new) }
        ensures others { KeepsOthers state may_leave left_between name.now self.old self.new }
        ensures missing { IsErrOf result ShelfFault.Missing → IsMissing (state self.old) name.now make }
        ensures faults { CountsFault (state self.old).faults (state self.new).faults result }
        ensures bytes { KeepsBytes (state self.old) (state self.new) };

    /// Takes a disk back, under the name that it was given with. It needs no memory.
    fn give(&mut self, name: &str, disk: Self::Disk)
        requires out { (state self.old).out name.now ≡ true }
        requires named { (Self.Disk.state disk).name ≡ Some name.now }
        ensures given { Gives (state self.old) (state self.new) name.now (Self.Disk.state disk) }
        ensures images { TakesBack state may_leave left_between Self.Disk.state Self.Disk.may_leave Self.Disk.left_between name.now self.new disk }
        ensures others { KeepsOthers state may_leave left_between name.now self.old self.new };

    /// No file is longer than a disk can be.
    ghost file_fits: { (s : Self) (f : Files) (n b : List ℕ) → (state s).files ≡ Some f → f n ≡ Some b → length b < 2 ^ 63 };

    /// What is told of a file is itself an image of it.
    ghost is_left: { (s : Self) (f : Files) (n b : List ℕ) → (state s).files ≡ Some f → f n ≡ Some b → may_leave s n b };

    /// This moment is one of those that count.
    ghost counts_now: { (s : Self) (n : List ℕ) (t t' : ℕ) (x : List ℕ) → t ≤ (state s).clock n → (state s).clock n ≤ t' → may_leave s n x → left_between s n t t' x };

    /// From this moment on there is no other.
    ghost only_now: { (s : Self) (n : List ℕ) (t t' : ℕ) (x : List ℕ) → (state s).clock n ≤ t → left_between s n t t' x → may_leave s n x };

    /// No moment is to come: up to a value beyond the clock is up to the clock.
    ghost none_to_come: { (s : Self) (n : List ℕ) (t t' : ℕ) (x : List ℕ) → (state s).clock n ≤ t' → left_between s n t t' x → left_between s n t ((state s).clock n) x };

    /// Time splits: what a crash may have left of a file between two values of its clock it may have
    /// left up to a third, or from that one on.
    ghost splits: { (s : Self) (n : List ℕ) (t t' t'' : ℕ) (x : List ℕ) → left_between s n t t'' x → left_between s n t t' x ⊎ left_between s n t' t'' x };
}

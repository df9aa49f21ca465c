//! The laws of files whose fields are brought up to a number of frames. The functions do nothing: their
//! contracts are the laws.

ghost use Rattle.snd_patch.specs.Laws.{ClosesFromTo, ClosingKeepsPlaces, CountsFromTo, CutsFromTo, FrontReads, GrownKeeps, GrownLength, GrowsFromTo, NewFieldReads, OldFieldReads, OrderIsFree, SealedKeeps, SealedLength, ShrinksFromTo, ShrunkKeeps, ShrunkLength, StableStartCloses, StableStartCuts, StartIsMade};

use snd_disk::Disk;

/// Before the end of the data, every byte beside the fields stays.
#[tactic(auto, using(crate::proofs::Lists::grown_keeps, crate::proofs::Lists::shrunk_keeps, crate::proofs::Lists::sealed_keeps))]
pub fn updates_keep_the_rest()
    ensures grown { GrownKeeps }
    ensures shrunk { ShrunkKeeps }
    ensures sealed { SealedKeeps }
{}

/// The length that an update leaves.
#[tactic(auto, using(crate::proofs::Lists::grown_length, crate::proofs::Lists::shrunk_length, crate::proofs::Lists::sealed_length))]
pub fn updated_lengths()
    ensures grown { GrownLength }
    ensures shrunk { ShrunkLength }
    ensures sealed { SealedLength }
{}

/// Where no two fields have a byte in common, the order in which they are put makes no difference.
#[tactic(auto, using(crate::proofs::Lists::order_is_free))]
pub fn fields_in_any_order()
    ensures { OrderIsFree }
{}

/// The contents at the start of an update and those at its end are among what a crash may leave on the way.
pub fn updates_start_and_end()
    ensures grows { GrowsFromTo }
    ensures shrinks { ShrinksFromTo }
    ensures counts { CountsFromTo }
    ensures closes { ClosesFromTo }
    ensures cuts { CutsFromTo }
{}

/// What a crash may leave while what closes the data is put, and while all behind it is cut.
pub fn closing_leaves<D: Disk>()
    ensures start { StartIsMade D.may_leave }
    ensures closes { StableStartCloses D.may_leave }
    ensures places { ClosingKeepsPlaces D.state D.may_leave }
    ensures cuts { StableStartCuts D.may_leave }
{}

/// What stands at the places of a field, or before a place, as a slice.
pub fn places_are_read()
    ensures new { NewFieldReads }
    ensures old { OldFieldReads }
    ensures front { FrontReads }
{}

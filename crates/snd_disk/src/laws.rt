//! What every disk owes, by the meanings of the trait alone. The functions do nothing: their
//! contracts are the laws.

ghost use Rattle.snd_disk.specs.Laws.{BytesComeFrom, ChangeIsRun, FailedSyncIsRun, FieldIsWhole, FieldStays, MixHasWholeField, OneFieldChanges, PlaceStays, ReadIsRun, RunsJoin, SyncIsRun, SyncSettles};

use crate::Disk;

/// Each call is a run: what a crash may leave comes from the images before it and from what it meant
/// to leave.
pub fn each_call_is_a_run<D: Disk>()
    ensures change { ChangeIsRun D.state D.may_leave D.left_between }
    ensures read { ReadIsRun D.state D.may_leave D.left_between }
    ensures failed_sync { FailedSyncIsRun D.state D.may_leave D.left_between }
    ensures sync { SyncIsRun D.state D.may_leave D.left_between }
{}

/// After a sync a crash leaves the contents.
pub fn sync_settles<D: Disk>()
    ensures { SyncSettles D.state D.may_leave }
{}

/// A run and the run after it are one.
pub fn runs_join<D: Disk>()
    ensures { RunsJoin D.state D.may_leave D.left_between }
{}

/// At each place a crash leaves a byte of an image at the start, or of a list held since. A place that
/// no call touches keeps its byte.
pub fn places_come_from_sources<D: Disk>()
    ensures bytes { BytesComeFrom D.may_leave }
    ensures stays { PlaceStays D.state D.may_leave }
{}

/// A field in one sector is whole in what a crash leaves.
pub fn field_is_whole<D: Disk>()
    ensures mix { MixHasWholeField }
    ensures run { FieldIsWhole D.may_leave }
    ensures stays { FieldStays D.state D.may_leave }
    ensures one_write { OneFieldChanges D.may_leave }
{}

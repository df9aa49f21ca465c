//! What carrying a plan out makes of a file, by the meanings alone. The functions do nothing: their
//! contracts are the laws.

ghost use Rattle.snd_plan.specs.Laws.{GivenIsOfTheFile, GivenIsRead, OneByOneIsTheSame, PartsAddUp, ReadIsStillRead, ShownHasItsLength, SyncedIsStable};

use snd_disk::Disk;

/// A file on which all is carried out in its order has the length and the bytes that the disk shows:
/// at once, in parts, and one operation after another, with the disk told of each.
pub fn carrying_out_gives_what_is_shown()
    ensures size { ShownHasItsLength }
    ensures parts { PartsAddUp }
    ensures one_by_one { OneByOneIsTheSame }
{}

/// What is carried out in front of a sync is stable: a crash leaves just that.
pub fn what_is_synced_is_stable<D: Disk>()
    ensures { SyncedIsStable D.state D.may_leave }
{}

/// A read that failed for want of bytes succeeds once these were given, and one that would have
/// succeeded still does. The file is still one of which all was read that was given.
pub fn what_is_given_is_read()
    ensures now { GivenIsRead }
    ensures still { ReadIsStillRead }
    ensures file { GivenIsOfTheFile }
{}

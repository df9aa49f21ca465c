//! The calls of an open file that cut it.

ghost use Rattle.std.specs.Prelude.{◌≡◌, ◌↔◌, ◌<◌, None, Some, false, true, IsTrue, MatchResult, OnOk};
ghost use Rattle.snd_disk.specs.Device.{CountsOn, GoesOnFrom, IsStable, WritesAtMost};
ghost use Rattle.snd_layout.specs.declared.kind.Kind.TheVariants.{Voc};
ghost use Rattle.snd_patch.specs.Steps.{Updates};
ghost use Rattle.snd_file.specs.Chunks.{KeepsChunksOn};
ghost use Rattle.snd_edits.specs.Edits.{cut_to, trimmed_to, truncated_to, without_tail};
ghost use Rattle.snd_file.specs.Handle.{StandsAfter, disk_of, known_of, loan_of};
ghost use Rattle.snd_edits.specs.Outcomes.{Done, shrink_outcome};
ghost use Rattle.snd_file.specs.Outcomes.{AsksNothing, CountsCall, KeepsFrames, KeepsFront, StandsOn, TellsOn};
ghost use Rattle.snd_file.specs.Rest.{CutsBehind, LeavesSafe, StaysAtRest};
ghost use Rattle.snd_edits.specs.WriteCalls.{TrimLeaves, TruncateLeaves, known_cut, known_without_tail};

use crate::handle::File;
use snd_disk::{Disk, Step};
use snd_edits::{CanShrink, ShrinkError};
use snd_frames::{cut_off, keeps_rules};
use snd_layout::Kind;
use snd_patch::shrink;

impl<'d, D: Disk, M: CanShrink> File<'d, D, M> {
    /// Cuts the file to a number of frames, and makes that stable; where there are just so many, seals it
    /// as `update_now` does. A place past the new end moves to the new end. Each further chunk stays. It
    /// writes at most 72 bytes and takes no memory.
    ///
    /// `Broken` where a call of the disk failed before; then `SeekRange` exactly where there are fewer
    /// frames, and `TrailingData` exactly where there are more and the file goes on behind its data: these
    /// leave all as it was. `DiskFault` where a call of the disk failed now: from then on the file is
    /// broken; what stands before the end of so many frames, beside the fields of the head, is as it was.
    ///
    /// Where the file is at rest, a crash at any moment of the call is as harmless as in `write_frames`, and
    /// a call that succeeds leaves the file at rest.
    pub fn truncate(&mut self, to: u64) -> Result<(), ShrinkError>
        ensures loan { loan_of self.new ≡ loan_of self.old }
        ensures left { TruncateLeaves to (known_of self.old) (known_of self.new) result }
        ensures stands { StandsOn (shrink_outcome result) D.state self.old self.new (truncated_to to) }
        ensures chunks { OnOk result (KeepsChunksOn D.state self.old self.new) }
        ensures stable { OnOk result (IsStable D.state D.may_leave (disk_of self.new)) }

        ensures leaves { LeavesSafe D.Disk (shrink_outcome result) (truncated_to to) self.old self.new }
        ensures rests { StaysAtRest D.Disk (shrink_outcome result) (truncated_to to) self.old self.new }

        ensures beside { KeepsFront D.state to self.old self.new }
        ensures tells { TellsOn D.state self.old self.new }
        ensures time { GoesOnFrom D.state D.left_between (disk_of self.old) (disk_of self.new) }
        ensures faults { CountsCall (shrink_outcome result) D.state self.old self.new }
        ensures written { WritesAtMost D.state 72 (disk_of self.old) (disk_of self.new) }
        ensures asked { AsksNothing D.state self.old self.new }
    {
        if let Some(step) = self.broken {
            return Err(ShrinkError::Broken(step));
        }
        let frames = self.layout.frames;
        if to > frames {
            return Err(ShrinkError::SeekRange);
        }
        if to == frames {
            self.seal_file()?;
            return Ok(());
        }
        if self.layout.trailing {
            return Err(ShrinkError::TrailingData);
        }
        self.cut_file(to)?;
        Ok(())
    }

    // Cuts the file to fewer frames, where no call of its disk has failed. Where one fails now, the file is
    // broken.
    fn cut_file(&mut self, to: u64) -> Result<(), Step>
        requires working { (known_of self.old).broken ≡ None }
        requires fewer { to < (known_of self.old).shape.frames }
        requires free { (known_of self.old).shape.trailing ≡ false }
        ensures loan { loan_of self.new ≡ loan_of self.old }
        ensures left { MatchResult result (λ _. known_of self.new ≡ known_cut to (known_of self.old)) (λ step. known_of self.new ≡ record (known_of self.old) { broken = Some step }) }
        ensures stands { OnOk result (StandsAfter D.state self.old self.new (cut_to to)) }
        ensures stable { OnOk result (IsStable D.state D.may_leave (disk_of self.new)) }
        ensures leaves { LeavesSafe D.Disk Done (cut_to to) self.old self.new }

        ensures beside { KeepsFront D.state to self.old self.new }
        ensures tells { TellsOn D.state self.old self.new }
        ensures time { GoesOnFrom D.state D.left_between (disk_of self.old) (disk_of self.new) }
        ensures faults { CountsOn D.state (disk_of self.old) (disk_of self.new) result }
        ensures written { WritesAtMost D.state 72 (disk_of self.old) (disk_of self.new) }
        ensures asked { AsksNothing D.state self.old self.new }
    {
        keeps_rules(&self.layout);
        match shrink(self.disk, &mut self.layout, to) {
            Ok(()) => {
                self.read_place = self.read_place.min(to);
                self.write_place = self.write_place.min(to);
                Ok(())
            }
            Err(step) => {
                self.broken = Some(step);
                Err(step)
            }
        }
    }

    /// Seals the file as `update_now` does, cuts off all that stands behind what closes the data, and makes
    /// that stable. The file then does not go on behind its data. Each further chunk stays. It writes at
    /// most 80 bytes and takes no memory.
    ///
    /// `Broken` where a call of the disk failed before; then `TrailingData` exactly where the file goes on
    /// behind its data and is not a Creative Voice file: these leave all as it was. `DiskFault` where a
    /// call of the disk failed now: from then on the file is broken; what stands before the end of the
    /// data, beside the fields of the head, is as it was.
    ///
    /// Where the file is at rest, a crash at any moment of the call is as harmless as in `write_frames`, and
    /// a call that succeeds leaves the file at rest.
    pub fn trim(&mut self) -> Result<(), ShrinkError>
        ensures loan { loan_of self.new ≡ loan_of self.old }
        ensures left { TrimLeaves (known_of self.old) (known_of self.new) result }
        ensures stands { StandsOn (shrink_outcome result) D.state self.old self.new trimmed_to }
        ensures chunks { OnOk result (KeepsChunksOn D.state self.old self.new) }
        ensures stable { OnOk result (IsStable D.state D.may_leave (disk_of self.new)) }

        ensures leaves { LeavesSafe D.Disk (shrink_outcome result) trimmed_to self.old self.new }
        ensures rests { StaysAtRest D.Disk (shrink_outcome result) trimmed_to self.old self.new }

        ensures beside { KeepsFrames D.state self.old self.new }
        ensures tells { TellsOn D.state self.old self.new }
        ensures time { GoesOnFrom D.state D.left_between (disk_of self.old) (disk_of self.new) }
        ensures faults { CountsCall (shrink_outcome result) D.state self.old self.new }
        ensures written { WritesAtMost D.state 80 (disk_of self.old) (disk_of self.new) }
        ensures asked { AsksNothing D.state self.old self.new }
    {
        if let Some(step) = self.broken {
            return Err(ShrinkError::Broken(step));
        }
        if self.layout.trailing && !is_voc(self.layout.kind) {
            return Err(ShrinkError::TrailingData);
        }
        self.seal_file()?;
        self.cut_tail()?;
        Ok(())
    }

    // Cuts off what stands behind what closes the data, where no call of the disk has failed. Where one
    // fails now, the file is broken.
    fn cut_tail(&mut self) -> Result<(), Step>
        requires working { (known_of self.old).broken ≡ None }
        requires free { (known_of self.old).shape.trailing ≡ true → (known_of self.old).shape.kind ≡ Voc }
        ensures loan { loan_of self.new ≡ loan_of self.old }
        ensures left { MatchResult result (λ _. known_of self.new ≡ known_without_tail (known_of self.old)) (λ step. known_of self.new ≡ record (known_of self.old) { broken = Some step }) }
        ensures stands { OnOk result (StandsAfter D.state self.old self.new without_tail) }
        ensures stable { OnOk result (IsStable D.state D.may_leave (disk_of self.new)) }
        ensures leaves { CutsBehind D.Disk self.old self.new }

        ensures updates { Updates D.state D.left_between (known_of self.old).shape (known_of self.old).shape.frames 8 (disk_of self.old) (disk_of self.new) }
        ensures faults { CountsOn D.state (disk_of self.old) (disk_of self.new) result }
    {
        keeps_rules(&self.layout);
        match cut_off(self.disk, &mut self.layout) {
            Ok(()) => Ok(()),
            Err(step) => {
                self.broken = Some(step);
                Err(step)
            }
        }
    }
}

// Whether a file is a Creative Voice file.
fn is_voc(kind: Kind) -> bool
    ensures { IsTrue result ↔ (kind ≡ Voc) }
{
    matches!(kind, Kind::Voc)
}

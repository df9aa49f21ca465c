//! The output, made of an open file by a plan of its chunks.

ghost use Rattle.std.specs.Prelude.{◌≡◌, ◌<◌, None, OnOk, length, true};
ghost use Rattle.snd_disk.specs.Device.{AsksAtMost, GoesOnFrom};
ghost use Rattle.snd_inputs.specs.Copying.{AsksToCopy, CopiesInto, CountsFileAndDisk, OnlyReadsFile};
ghost use Rattle.snd_inputs.specs.Opening.{IsUnread};
ghost use Rattle.snd_edits.specs.Known.{IsFresh};
ghost use Rattle.snd_file.specs.Handle.{StandsAfter, disk_of, known_of, loan_of};
ghost use Rattle.snd_layout.specs.Params.{AreParams};
ghost use Rattle.snd_layout.specs.Kinds.{holds_meta};
ghost use Rattle.snd_file.specs.Outcomes.{AsksNothing};
ghost use Rattle.snd_edits.specs.PieceCalls.{IsUntouched};
ghost use Rattle.snd_output.specs.Ends.{IsUnchanged};
ghost use Rattle.snd_patch.specs.Steps.{StillTells};
ghost use Rattle.snd_metadata.specs.Making.{Carries, Fills, HasOneMore, IsBegunLike, IsFilled, Makes, PutsPlanned};
ghost use Rattle.snd_metadata.specs.Planned.{IsReady, MayStand, bytes_planned, bytes_read};

use crate::chunks::PlannedChunk;
use snd_carry::{carry_chunk, put_chunk};
use snd_disk::Disk;
use snd_edits::{Read, Write};
use snd_file::File;
use snd_inputs::params_of;
use snd_output::{Making, Stop, append, finish};
use std::alloc::Global;

/// The numbers that are held at once.
const BLOCK: usize = 16384;

// Puts one chunk of a plan behind those of a file that is being made.
fn put_planned<D: Disk, E: Disk>(
    alloc: Global,
    chunk: &PlannedChunk,
    from: &mut File<'_, D, Read>,
    to: &mut File<'_, E, Write>,
) -> Result<(), Stop>
    requires working { (known_of from.old).broken ≡ None }
    requires stands { MayStand (known_of from.old).shape.pieces chunk.now }
    requires untouched { IsUntouched (known_of to.old) }
    requires meta { holds_meta (known_of to.old).shape.kind ≡ true }
    requires few { length (known_of to.old).shape.pieces < 240 }
    ensures same { OnOk result (known_of from.new ≡ known_of from.old) }
    ensures known { OnOk result (HasOneMore chunk.now to.old to.new) }
    ensures stands { StandsAfter D.state from.old from.new (λ e. e) }
    ensures puts { OnOk result (PutsPlanned D.state E.state chunk.now from.old to.old to.new) }
    ensures copies { CopiesInto D.Disk E.Disk from.old from.new to.old to.new result }
    ensures unchanged { IsUnchanged result }
    ensures asked { AsksAtMost D.state (bytes_read chunk.now) (disk_of from.old) (disk_of from.new) }
    ensures unasked { AsksNothing E.state to.old to.new }
{
    match chunk {
        PlannedChunk::Kept(place, piece) => carry_chunk(alloc, from, to, *place, *piece),
        PlannedChunk::Given(id, body) => put_chunk(to, *id, body),
    }
}

// Puts all chunks of a plan into a file that was begun.
fn carry<D: Disk, E: Disk>(
    alloc: Global,
    plan: &[PlannedChunk],
    from: &mut File<'_, D, Read>,
    to: &mut File<'_, E, Write>,
) -> Result<(), Stop>
    requires working { (known_of from.old).broken ≡ None }
    requires ready { IsReady (known_of from.old).shape plan.now }
    requires good { AreParams (known_of from.old).shape.params }
    requires fresh { IsFresh (known_of to.old) }
    requires begun { IsBegunLike from.old to.old }
    ensures same { OnOk result (known_of from.new ≡ known_of from.old) }
    ensures known { OnOk result (IsFilled plan.now from.old to.old to.new) }
    ensures stands { StandsAfter D.state from.old from.new (λ e. e) }
    ensures carried { OnOk result (Carries D.state E.state plan.now from.old to.old to.new) }
    ensures copies { CopiesInto D.Disk E.Disk from.old from.new to.old to.new result }
    ensures unchanged { IsUnchanged result }
    ensures asked { AsksAtMost D.state (bytes_planned plan.now) (disk_of from.old) (disk_of from.new) }
    ensures unasked { AsksNothing E.state to.old to.new }
{
    for at in 0..plan.len() {
        put_planned(alloc, &plan[at], from, to)?;
    }
    Ok(())
}

// Puts the chunks and all frames into a file that was begun.
fn fill<D: Disk, E: Disk>(
    alloc: Global,
    plan: &[PlannedChunk],
    from: &mut File<'_, D, Read>,
    to: &mut File<'_, E, Write>,
) -> Result<(), Stop>
    requires unread { IsUnread (known_of from.old) }
    requires ready { IsReady (known_of from.old).shape plan.now }
    requires good { AreParams (known_of from.old).shape.params }
    requires fresh { IsFresh (known_of to.old) }
    requires begun { IsBegunLike from.old to.old }
    ensures fills { OnOk result (Fills D.state E.state plan.now from.old to.old to.new) }
    ensures copies { CopiesInto D.Disk E.Disk from.old from.new to.old to.new result }
    ensures unchanged { IsUnchanged result }
    ensures asked { AsksToCopy D.state (bytes_planned plan.now) from.old from.new }
    ensures unasked { AsksNothing E.state to.old to.new }
{
    carry(alloc, plan, from, to)?;
    let mut block = [0; BLOCK];
    append(from, to, &mut block)
}

/// Makes the whole file.
pub(crate) fn make<D: Disk, E: Disk>(
    alloc: Global,
    from: &mut File<'_, D, Read>,
    disk: &mut E,
    plan: &[PlannedChunk],
) -> Result<(), Stop>
    requires unread { IsUnread (known_of from.old) }
    requires ready { IsReady (known_of from.old).shape plan.now }
    ensures loan { loan_of from.new ≡ loan_of from.old }
    ensures made { OnOk result (Makes D.state E.state plan.now from.old disk.old disk.new) }
    ensures faults { CountsFileAndDisk D.state E.state from.old from.new disk.old disk.new result }
    ensures unchanged { IsUnchanged result }
    ensures reads { OnlyReadsFile D.Disk from.old from.new }
    ensures tells { StillTells (E.state disk.old) (E.state disk.new) }
    ensures time { GoesOnFrom E.state E.left_between disk.old disk.new }
    ensures asked { AsksToCopy D.state (bytes_planned plan.now) from.old from.new }
    ensures unasked { (E.state disk.new).asked ≡ (E.state disk.old).asked }
{
    let params = params_of(from);
    let mut to = match Write::begin(alloc, disk, from.kind(), params) {
        Ok(to) => to,
        Err((stop, back)) => {
            let _ = back;
            return Err(stop);
        }
    };
    let filled = fill(alloc, plan, from, &mut to);
    match finish(to) {
        Ok(back) => {
            let _ = back;
            filled
        }
        Err((stop, back)) => {
            let _ = back;
            Err(stop)
        }
    }
}

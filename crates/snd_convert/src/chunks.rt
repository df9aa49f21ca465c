//! The further chunks that go with the frames.

ghost use Rattle.std.specs.Prelude.{◌≡◌, ◌≤◌, [], None, OnOk};
ghost use Rattle.snd_inputs.specs.Copying.{CopiesInto};
ghost use Rattle.snd_layout.specs.Params.{AreParams};
ghost use Rattle.snd_edits.specs.Known.{IsFresh};
ghost use Rattle.snd_file.specs.Handle.{StandsAfter, known_of};
ghost use Rattle.snd_file.specs.Outcomes.{AsksNothing};
ghost use Rattle.snd_edits.specs.Relaid.{shape_with};
ghost use Rattle.snd_output.specs.Ends.{IsUnchanged};
ghost use Rattle.snd_convert.specs.Convert.{carries};
ghost use Rattle.snd_convert.specs.Making.{AsksToCarry, ChunksTake, IsFilled, OutlinesTake, TakesChunks};

use crate::plan::Plan;
use snd_carry::{carried_size, carry_pieces};
use snd_disk::Disk;
use snd_edits::Read;
use snd_file::File;
use snd_layout::Kind;
use snd_output::{Making, Stop};
use std::alloc::Global;

// Whether the chunks of a file of one kind go into one of another.
fn carries(to: Kind, from: Kind) -> bool
    ensures { result ≡ carries to from }
{
    to.holds_meta() && from.holds_meta()
}

// How many bytes they take in the head of what is made.
pub(crate) fn chunks_size<D: Disk>(plan: &Plan, file: &File<'_, D, Read>) -> u64
    requires working { (known_of file.now).broken ≡ None }
    ensures outlines { OutlinesTake plan.now (known_of file.now).shape result }
    ensures told { ChunksTake D.state plan.now file.now result }
    ensures most { result ≤ 15730560 }
{
    if !carries(plan.kind, file.kind()) {
        return 0;
    }
    carried_size(file.pieces())
}

// Carries them into a file that was begun by a plan.
pub(crate) fn carry<D: Disk, E: Disk, M: Making>(
    alloc: Global,
    plan: &Plan,
    from: &mut File<'_, D, Read>,
    to: &mut File<'_, E, M>,
) -> Result<(), Stop>
    requires working { (known_of from.old).broken ≡ None }
    requires good { AreParams plan.now.params }
    requires fresh { IsFresh (known_of to.old) }
    requires begun { (known_of to.old).shape ≡ shape_with plan.now.kind plan.now.params [] }
    ensures same { OnOk result (known_of from.new ≡ known_of from.old) }
    ensures known { OnOk result (IsFilled plan.now from.old to.old to.new) }
    ensures stands { StandsAfter D.state from.old from.new (λ e. e) }
    ensures carried { OnOk result (TakesChunks D.state E.state plan.now from.old to.old to.new) }
    ensures copies { CopiesInto D.Disk E.Disk from.old from.new to.old to.new result }
    ensures unchanged { IsUnchanged result }
    ensures asked { AsksToCarry D.state from.old from.new }
    ensures unasked { AsksNothing E.state to.old to.new }
{
    let go = carries(plan.kind, from.kind());
    if !go {
        return Ok(());
    }
    carry_pieces(alloc, from, to)
}

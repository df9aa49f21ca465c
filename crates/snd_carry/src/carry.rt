//! The chunks of a file are carried into one that was just made.

ghost use Rattle.std.specs.Prelude.{◌≡◌, None, OnOk, true};
ghost use Rattle.snd_disk.specs.Device.{GoesOnFrom, OnlyReadsOn, WritesAtMost};
ghost use Rattle.snd_edits.specs.Known.{IsFresh};
ghost use Rattle.snd_file.specs.Handle.{StandsAfter, disk_of, known_of, loan_of};
ghost use Rattle.snd_layout.specs.Kinds.{holds_meta};
ghost use Rattle.snd_file.specs.Outcomes.{AsksNothing, TellsOn};
ghost use Rattle.snd_output.specs.Ends.{BreaksByFault, CountsOneOf, IsUnchanged};
ghost use Rattle.snd_carry.specs.Carried.{carried_pieces};
ghost use Rattle.snd_carry.specs.Carrying.{AsksForBodies, Carries, HoldsChunks, IsNewShape, StaysAsOpened, known_with};

use crate::bodies::carry_chunk;
use crate::choice::is_carried;
use snd_disk::Disk;
use snd_edits::{CanMake, Read};
use snd_file::File;
use snd_layout::MOST_PIECES;
use snd_output::Stop;
use std::alloc::Global;

/// Carries the further chunks of a file into a WAVE or RF64 file that was just made: those with at most 65536
/// bytes, the first 240 of them, in their order and with the bodies that they have in the file, also those that
/// stand behind its sound. Their heads and pads are written anew. The first file is only read, no more
/// of it than these bodies; at most 4026531840 bytes are written to the other, since its head is closed anew behind each.
///
/// `Fault` exactly where a call of one of the two disks failed; `Memory` where there is none: then the new file
/// has only some of the chunks, and can be finished.
pub fn carry_pieces<D: Disk, E: Disk, M: CanMake>(
    alloc: Global,
    from: &mut File<'_, D, Read>,
    to: &mut File<'_, E, M>,
) -> Result<(), Stop>
    requires working { (known_of from.old).broken ≡ None }
    requires fresh { IsFresh (known_of to.old) }
    requires empty { IsNewShape (known_of to.old).shape }
    requires meta { holds_meta (known_of to.old).shape.kind ≡ true }
    ensures from_loan { loan_of from.new ≡ loan_of from.old }
    ensures to_loan { loan_of to.new ≡ loan_of to.old }
    ensures same { OnOk result (known_of from.new ≡ known_of from.old) }
    ensures known { OnOk result (known_of to.new ≡ known_with (carried_pieces (known_of from.old).shape.pieces) (known_of to.old)) }
    ensures carried { OnOk result (Carries D.state E.state from.old to.old to.new) }
    ensures chunks { OnOk result (HoldsChunks D.state from.old) }
    ensures begins { OnOk result (StaysAsOpened E.state to.old to.new) }
    ensures stands { StandsAfter D.state from.old from.new (λ e. e) }
    ensures works { BreaksByFault (known_of to.new) result }
    ensures faults { CountsOneOf (D.state (disk_of from.old)).faults (D.state (disk_of from.new)).faults (E.state (disk_of to.old)).faults (E.state (disk_of to.new)).faults result }
    ensures unchanged { IsUnchanged result }
    ensures reads { OnlyReadsOn D.state D.may_leave D.left_between (disk_of from.old) (disk_of from.new) }
    ensures asked { AsksForBodies D.state (carried_pieces (known_of from.old).shape.pieces) from.old from.new }
    ensures tells { TellsOn E.state to.old to.new }
    ensures time { GoesOnFrom E.state E.left_between (disk_of to.old) (disk_of to.new) }
    ensures written { WritesAtMost E.state 4026531840 (disk_of to.old) (disk_of to.new) }
    ensures unasked { AsksNothing E.state to.old to.new }
{
    let count = from.pieces().len();
    for place in 0..count {
        let Some(piece) = from.pieces().get(place) else {
            unreachable!()
        };
        if !is_carried(piece) {
            continue;
        }
        if to.pieces().len() == MOST_PIECES {
            continue;
        }
        carry_chunk(alloc, from, to, place, piece)?;
    }
    Ok(())
}

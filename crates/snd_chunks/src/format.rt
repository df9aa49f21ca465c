//! The format that a chunk states.

ghost use Rattle.std.specs.Prelude.{◌≡◌, ◌+◌, ◌≤◌, None, IfOk};
ghost use Rattle.snd_disk.specs.Device.{AsksAtMost, OnlyReadsOn};
ghost use Rattle.snd_layout.specs.Fit.{fit_refusal};
ghost use Rattle.snd_layout.specs.Format.{format_of};
ghost use Rattle.snd_layout.specs.Opened.{CountsOpening, OpensAs};
ghost use Rattle.snd_layout.specs.declared.kind.Kind.TheVariants.{Wave};
ghost use Rattle.snd_chunks.specs.Parts.{body_of};

use crate::chunk::Chunk;
use snd_disk::{Disk, fill};
use snd_layout::{OpenError, Params, read_fmt};

/// The part of a format's body that is looked at.
const FORMAT_SIZE: u64 = 50;

/// The parameters that a format states, or why it is refused.
pub fn read_format<D: Disk>(disk: &mut D, format: Chunk) -> Result<Params, OpenError>
    requires within { format.at + format.len ≤ (D.state disk.old).size }
    requires long { 16 ≤ format.len }
    ensures told { OpensAs D.state disk.old (λ b. format_of (body_of b format)) result }
    ensures fits { IfOk result (λ p. fit_refusal Wave p ≡ None) }
    ensures faults { CountsOpening D.state disk.old disk.new result }
    ensures reads { OnlyReadsOn D.state D.may_leave D.left_between disk.old disk.new }
    ensures asked { AsksAtMost D.state 50 disk.old disk.new }
{
    let mut body = [0; FORMAT_SIZE as usize];
    let count = format.len.min(FORMAT_SIZE) as usize;
    fill(disk, format.at, &mut body[..count])?;
    Ok(read_fmt(&body[..count])?)
}

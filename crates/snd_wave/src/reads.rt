//! What is read of a file beside the heads of its chunks.

ghost use Rattle.std.specs.Prelude.{◌≡◌, ◌+◌, ◌≤◌, IfSome, option_map};
ghost use Rattle.snd_disk.specs.Device.{AsksAtMost, CountsOn, OnlyReadsOn, IfOkTold};
ghost use Rattle.snd_fields.specs.Field.{number};
ghost use Rattle.snd_fields.specs.declared.field.Order.TheVariants.{Little};
ghost use Rattle.snd_chunks.specs.Parts.{fact_count};

use snd_chunks::Chunk;
use snd_disk::{Disk, Step, fill};
use snd_fields::{Order, u32_at};

/// The number in the 4 bytes from a place on, which the disk has.
pub(crate) fn read_number<D: Disk>(disk: &mut D, at: u64) -> Result<u32, Step>
    requires { at + 4 ≤ (D.state disk.old).size }
    ensures told { IfOkTold D.state disk.old result (λ b n. n ≡ number Little b at 4) }
    ensures faults { CountsOn D.state disk.old disk.new result }
    ensures reads { OnlyReadsOn D.state D.may_leave D.left_between disk.old disk.new }
    ensures asked { AsksAtMost D.state 4 disk.old disk.new }
{
    let mut bytes = [0; 4];
    fill(disk, at, &mut bytes)?;
    Ok(u32_at(&bytes, 0, Order::Little))
}

/// The count of a `fact`, where there is one.
pub(crate) fn read_count<D: Disk>(disk: &mut D, fact: Option<Chunk>) -> Result<Option<u32>, Step>
    requires { IfSome fact (λ c. c.at + 4 ≤ (D.state disk.old).size) }
    ensures told { IfOkTold D.state disk.old result (λ b count. count ≡ option_map (fact_count 4 b) fact) }
    ensures faults { CountsOn D.state disk.old disk.new result }
    ensures reads { OnlyReadsOn D.state D.may_leave D.left_between disk.old disk.new }
    ensures asked { AsksAtMost D.state 4 disk.old disk.new }
{
    match fact {
        Some(fact) => Ok(Some(read_number(disk, fact.at)?)),
        None => Ok(None),
    }
}

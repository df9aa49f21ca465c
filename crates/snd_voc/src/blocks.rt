//! The walk over the blocks of a file, up to the sound.

ghost use Rattle.std.specs.Prelude.{◌≡◌, ◌+◌, ◌*◌, ◌≤◌, ◌<◌, ◌^◌, None, IfOk, length};
ghost use Rattle.snd_disk.specs.Device.{AsksAtMost, CountsOn, OnlyReadsOn, IfOkTold};
ghost use Rattle.snd_layout.specs.Opened.{CountsOpening, OpensAs};
ghost use Rattle.snd_voc.specs.Layout.{remembered, seen, seen_of, walk};
ghost use Rattle.snd_voc.specs.Parts.{IsSeen, IsSound};
ghost use Rattle.snd_voc.specs.declared.blocks.Seen.TheVariants.{Found};

use crate::reads::read_from;
use snd_disk::{Disk, Step};
use snd_fields::{Order, u24_at};
use snd_layout::{OpenError, OpenRefusal};

const HEAD_SIZE: u64 = 4;

/// A block that is passed over.
#[derive(Clone, Copy, Debug, PartialEq, Eq)]
pub(crate) struct Block {
    pub(crate) kind: u8,
    /// The place of the body's first byte.
    pub(crate) at: u64,
    pub(crate) len: u64,
}

/// What stands at one place of the walk.
#[derive(Clone, Copy, Debug, PartialEq, Eq)]
pub(crate) enum Seen {
    /// A block of sound, with its type.
    Found(u8),
    /// What no file has there.
    Refused(OpenRefusal),
    /// A block that is passed over, whose head or body may run past the file's end.
    Passed(Block),
}

/// The block of the sound: its type, the place of its head, and the last block of type 8 before it.
#[derive(Clone, Copy, Debug, PartialEq, Eq)]
pub(crate) struct Sound {
    pub(crate) kind: u8,
    pub(crate) at: u64,
    pub(crate) extension: Option<Block>,
}

// What a walk sees where a block has this type and size.
fn seen_of(kind: u8, len: u32, place: u64) -> Seen
    requires { place + 4 < 2 ^ 63 }
    ensures value { result ≡ seen_of kind len place }
    ensures placed { IsSeen place result }
{
    if kind == 1 || kind == 9 {
        Seen::Found(kind)
    } else if kind == 2 || kind == 3 || kind == 6 || kind == 7 {
        Seen::Refused(OpenRefusal::LeadingBlock)
    } else if kind == 0 {
        Seen::Refused(OpenRefusal::NoData)
    } else {
        Seen::Passed(Block {
            kind,
            at: place + HEAD_SIZE,
            len: u64::from(len),
        })
    }
}

// The block of type 8 that counts behind this block.
fn remembered(block: Block, last: Option<Block>) -> Option<Block>
    ensures { result ≡ remembered block last }
{
    if block.kind == 8 { Some(block) } else { last }
}

// Looks at one place of the walk.
fn look<D: Disk>(disk: &mut D, place: u64) -> Result<Seen, Step>
    requires { place + 4 < 2 ^ 63 }
    ensures told { IfOkTold D.state disk.old result (λ b found. found ≡ seen b place) }
    ensures placed { IfOk result (IsSeen place) }
    ensures faults { CountsOn D.state disk.old disk.new result }
    ensures reads { OnlyReadsOn D.state D.may_leave D.left_between disk.old disk.new }
    ensures asked { AsksAtMost D.state 4 disk.old disk.new }
{
    let mut head = [0; HEAD_SIZE as usize];
    read_from(disk, place, &mut head)?;
    Ok(seen_of(head[0], u24_at(&head, 1, Order::Little), place))
}

// Looks at the last place of the walk, where no further block is passed over.
fn look_last<D: Disk>(
    disk: &mut D,
    place: u64,
    extension: Option<Block>,
) -> Result<Sound, OpenError>
    requires { place + 4 < 2 ^ 63 }
    ensures told { OpensAs D.state disk.old (λ b. walk b 0 place extension) result }
    ensures kind { IfOk result (λ sound. IsSeen place (Found sound.kind)) }
    ensures at { IfOk result (λ sound. sound.at ≡ place) }
    ensures extension { IfOk result (λ sound. sound.extension ≡ extension) }
    ensures faults { CountsOpening D.state disk.old disk.new result }
    ensures reads { OnlyReadsOn D.state D.may_leave D.left_between disk.old disk.new }
    ensures asked { AsksAtMost D.state 4 disk.old disk.new }
{
    match look(disk, place)? {
        Seen::Found(kind) => Ok(Sound {
            kind,
            at: place,
            extension,
        }),
        Seen::Refused(refusal) => Err(OpenError::Refused(refusal)),
        Seen::Passed(_) => Err(OpenError::Refused(OpenRefusal::TooManyChunks)),
    }
}

/// Walks over at most `most` blocks of a disk of `size` bytes, from a place on, up to the sound. It asks 4
/// bytes for each head.
pub(crate) fn find_sound<D: Disk>(
    disk: &mut D,
    size: u64,
    from: u64,
    most: u64,
) -> Result<Sound, OpenError>
    requires size { size ≡ (D.state disk.old).size }
    requires early { from < 2 ^ 16 }
    requires few { most ≤ 256 }
    ensures told { OpensAs D.state disk.old (λ b. walk b most from None) result }
    ensures placed { IfOk result (IsSound from most) }
    ensures faults { CountsOpening D.state disk.old disk.new result }
    ensures reads { OnlyReadsOn D.state D.may_leave D.left_between disk.old disk.new }
    ensures asked { AsksAtMost D.state (4 * most + 4) disk.old disk.new }
{
    let mut place = from;
    let mut extension = None;
    for _passed in 0..most {
        match look(disk, place)? {
            Seen::Found(kind) => {
                return Ok(Sound {
                    kind,
                    at: place,
                    extension,
                });
            }
            Seen::Refused(refusal) => return Err(OpenError::Refused(refusal)),
            Seen::Passed(block) => {
                let end = block.at + block.len;
                if size < end {
                    return Err(OpenError::Refused(OpenRefusal::NoData));
                }
                place = end;
                extension = remembered(block, extension);
            }
        }
    }
    look_last(disk, place, extension)
}

//! The bytes of a head from a piece on.

ghost use Rattle.std.specs.Prelude.{◌≡◌, ◌+◌, ◌≤◌, ◌++◌, IfOk, OnOk, drop, length, take};
ghost use Rattle.snd_chunks.specs.Written.{chunk_bytes};
ghost use Rattle.snd_disk.specs.Device.{AsksAtMost, IfOkTold, OnlyReadsOn};
ghost use Rattle.snd_wave.specs.Changes.{rest_from};
ghost use Rattle.snd_chunks.specs.Heads.{CountsPutting, new_piece};

use crate::plan::Plan;
use arrayvec::ArrayVec;
use snd_disk::{Disk, fill};
use snd_fields::{Id4, Order, put_all, put_number};
use snd_layout::PieceError;
use std::alloc::{AllocError, Global};

/// How a head is closed behind its pieces, and the size of the whole that it says then.
#[derive(Drop)]
pub struct Closing {
    /// The byte order of the sizes of chunks.
    pub order: Order,
    /// What stands behind the pieces.
    pub bytes: ArrayVec<u8, 128>,
    /// The place of the size of the whole.
    pub size_at: u64,
    /// What it says.
    pub size: ArrayVec<u8, 8>,
}

// Puts a chunk behind the others.
fn add_chunk(into: &mut Vec<u8>, order: Order, id: Id4, body: &[u8]) -> Result<(), AllocError>
    ensures { OnOk result (into.new.items ≡ into.old.items ++ chunk_bytes order (new_piece id.0 body.now)) }
{
    let mut head: ArrayVec<u8, 8> = ArrayVec::new();
    put_all(&mut head, &id.0);
    put_number(&mut head, order, body.len() as u64);
    into.extend_from_slice(head.as_slice())?;
    into.extend_from_slice(body)?;
    if body.len() % 2 == 1 {
        into.push(0)?;
    }
    Ok(())
}

// Reads bytes that a disk holds.
fn read_bytes<D: Disk>(
    alloc: Global,
    disk: &mut D,
    at: u64,
    count: u64,
) -> Result<Vec<u8>, PieceError>
    requires { at + count ≤ (D.state disk.old).size }
    ensures bytes { IfOkTold D.state disk.old result (λ b v. v.items ≡ take count (drop at b)) }
    ensures size { IfOk result (λ v. length v.items ≡ count) }
    ensures faults { CountsPutting D.state disk.old disk.new result }
    ensures reads { OnlyReadsOn D.state D.may_leave D.left_between disk.old disk.new }
    ensures asked { AsksAtMost D.state count disk.old disk.new }
{
    let mut bytes = Vec::new(alloc);
    bytes.resize(count as usize, 0)?;
    match fill(disk, at, &mut bytes) {
        Ok(()) => Ok(bytes),
        Err(step) => Err(PieceError::DiskFault(step)),
    }
}

/// What stands in the head from a piece on once it is put.
pub(crate) fn rest_of<D: Disk>(
    alloc: Global,
    disk: &mut D,
    plan: &Plan,
    closing: &Closing,
    id: Id4,
    body: &[u8],
) -> Result<Vec<u8>, PieceError>
    requires { plan.now.from + plan.now.count ≤ (D.state disk.old).size }
    ensures bytes { IfOkTold D.state disk.old result (λ b v. v.items ≡ rest_from plan.now closing.now (new_piece id.0 body.now) b) }
    ensures size { IfOk result (λ v. length v.items ≡ length (chunk_bytes closing.now.order (new_piece id.0 body.now)) + plan.now.count + length closing.now.bytes.items) }
    ensures faults { CountsPutting D.state disk.old disk.new result }
    ensures reads { OnlyReadsOn D.state D.may_leave D.left_between disk.old disk.new }
    ensures asked { AsksAtMost D.state plan.now.count disk.old disk.new }
{
    let behind = read_bytes(alloc, disk, plan.from, plan.count)?;
    let mut rest = Vec::new(alloc);
    add_chunk(&mut rest, closing.order, id, body)?;
    rest.extend_from_slice(behind.as_slice())?;
    rest.extend_from_slice(closing.bytes.as_slice())?;
    Ok(rest)
}

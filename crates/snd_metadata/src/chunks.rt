//! The chunks of the file that is made, as a list: those that are kept, and those that are changed.

ghost use Rattle.std.specs.Prelude.{◌≡◌, ◌+◌, ◌≤◌, All, IfErr, IfOk, OnOk, length};
ghost use Rattle.std.specs.List.{position_or_len};
ghost use Rattle.snd_carry.specs.Carried.{body_bytes};
ghost use Rattle.snd_fields.specs.Laws.{IsByte};
ghost use Rattle.snd_output.specs.declared.stop.Stop.TheVariants as stop;
ghost use Rattle.snd_metadata.specs.Planned.{IsSmall, KeepsChunks, MayStand, PutsExtension, StandStill, bytes_planned, names_extension, outline_planned, put_in, sizes_planned};

use snd_carry::is_carried;
use snd_container::chunk_size;
use snd_fields::Id4;
use snd_layout::{Piece, PieceList};
use snd_output::Stop;
use std::alloc::Global;

/// The chunks of the input that are kept at most: two more may be added.
const MOST_KEPT: usize = 238;

const BEXT: Id4 = Id4(*b"bext");

/// A chunk of the file that is made.
#[derive(Drop)]
pub(crate) enum PlannedChunk {
    /// The one of the input at a place of its list.
    Kept(usize, Piece),
    /// One of a body that is given.
    Given(Id4, Vec<u8>),
}

/// The chunks of the input that are kept.
pub(crate) fn kept_chunks(alloc: Global, pieces: &PieceList) -> Result<Vec<PlannedChunk>, Stop>
    ensures kept { IfOk result (KeepsChunks pieces.now) }
    ensures each { IfOk result (λ plan. All (MayStand pieces.now) plan.items) }
    ensures few { IfOk result (λ plan. length plan.items ≤ 238) }
    ensures once { IfOk result (λ plan. bytes_planned plan.items ≤ body_bytes pieces.now) }
    ensures only { IfErr result (λ e. e ≡ stop.Memory) }
{
    let mut plan = Vec::new(alloc);
    for place in 0..pieces.len() {
        let Some(piece) = pieces.get(place) else {
            unreachable!()
        };
        if !is_carried(piece) {
            continue;
        }
        if plan.len() == MOST_KEPT {
            continue;
        }
        let Ok(()) = plan.push(PlannedChunk::Kept(place, piece)) else {
            return Err(Stop::Memory);
        };
    }
    Ok(plan)
}

/// Puts a chunk at a place of a list: in place of the one that stands there, or behind them all.
pub(crate) fn put_at(
    plan: &mut Vec<PlannedChunk>,
    at: usize,
    chunk: PlannedChunk,
) -> Result<(), Stop>
    requires { at ≤ length plan.old.items }
    ensures put { OnOk result (plan.new.items ≡ put_in at chunk plan.old.items) }
    ensures only { IfErr result (λ e. e ≡ stop.Memory) }
{
    if at < plan.len() {
        plan[at] = chunk;
        return Ok(());
    }
    match plan.push(chunk) {
        Ok(()) => Ok(()),
        Err(_) => Err(Stop::Memory),
    }
}

fn names_extension(chunk: &PlannedChunk) -> bool
    ensures { result ≡ names_extension chunk.now }
{
    match chunk {
        PlannedChunk::Kept(_, piece) => piece.id.0.as_slice() == b"bext".as_slice(),
        PlannedChunk::Given(id, _) => id.0.as_slice() == b"bext".as_slice(),
    }
}

// The place of the first broadcast extension, or how many chunks there are.
fn extension_place(plan: &[PlannedChunk]) -> usize
    ensures place { result ≡ position_or_len names_extension plan.now }
    ensures within { result ≤ length plan.now }
{
    for at in 0..plan.len() {
        if names_extension(&plan[at]) {
            return at;
        }
    }
    plan.len()
}

/// Puts a broadcast extension of this body among chunks, where it is changed.
pub(crate) fn put_extension(
    plan: &mut Vec<PlannedChunk>,
    changed: bool,
    body: Vec<u8>,
) -> Result<(), Stop>
    requires small { length body.items ≤ 65536 }
    requires bytes { All IsByte body.items }
    ensures put { OnOk result (PutsExtension changed body.items plan.old.items plan.new.items) }
    ensures each { OnOk result (StandStill plan.old.items plan.new.items) }
    ensures few { OnOk result (length plan.new.items ≤ length plan.old.items + 1) }
    ensures no_more { OnOk result (bytes_planned plan.new.items ≤ bytes_planned plan.old.items) }
    ensures only { IfErr result (λ e. e ≡ stop.Memory) }
{
    if !changed {
        return Ok(());
    }
    let at = extension_place(plan);
    put_at(plan, at, PlannedChunk::Given(BEXT, body))
}

// How many bytes the body of a chunk has.
fn body_size(chunk: &PlannedChunk) -> u64
    ensures { result ≡ length (outline_planned chunk.now).body }
{
    match chunk {
        PlannedChunk::Kept(_, piece) => piece.len,
        PlannedChunk::Given(_, body) => body.len() as u64,
    }
}

/// The bytes that chunks take in a head, at most 15730560.
pub(crate) fn size_of(plan: &[PlannedChunk]) -> u64
    requires few { length plan.now ≤ 240 }
    requires small { All IsSmall plan.now }
    ensures size { result ≡ sizes_planned plan.now }
    ensures most { result ≤ 15730560 }
{
    let mut size = 0;
    for chunk in plan {
        size += chunk_size(body_size(chunk));
    }
    size
}

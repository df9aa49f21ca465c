//! What is asked of the chunks of an open file, and the reply.

ghost use Rattle.std.specs.Prelude.{◌≡◌, None, true};
ghost use Rattle.snd_file.specs.Handle.{known_of};
ghost use Rattle.snd_rules.specs.Rules.{get_bext_rule, get_chunk_rule, get_chunks_rule, get_cues_rule, get_strings_rule};
ghost use Rattle.snd_session.specs.Answered.{IsWhole, Lacks, SendsText, gathered};
ghost use Rattle.snd_session.specs.Follows.{Follows};
ghost use Rattle.snd_rules.specs.Work.{asking_rule};

use snd_disk::{Disk, Sink};
use snd_edits::{GetError, Mode, TagError};
use snd_fields::Id4;
use snd_file::File;
use snd_lines::Refusal;
use snd_rules::{
    Asking, Reply, StepFault, bext_text, body_text, chunks_text, points_text, refuse, say_text,
    texts_text,
};
use snd_tags::{broadcast, points, texts};
use std::alloc::{AllocError, Global};

/// Says what is asked.
pub fn ask<'d, D: Disk, M: Mode, O: Sink>(
    file: &mut File<'d, D, M>,
    alloc: Global,
    asking: Asking,
    out: &mut O,
) -> Result<Reply, StepFault>
    requires { (known_of file.old).broken ≡ None }
    ensures { Follows D.Disk O.Sink (asking_rule asking) result file.old out.old file.new out.new }
{
    match asking {
        Asking::Chunk(id) => say_chunk(file, alloc, id, out),
        Asking::Chunks => say_chunks(file, alloc, out),
        Asking::Texts => say_strings(file, alloc, out),
        Asking::Broadcast => say_broadcast(file, alloc, out),
        Asking::Points => say_points(file, alloc, out),
    }
}

// Says a text that was gathered.
fn say_gathered<O: Sink>(text: Result<Vec<u8>, AllocError>, out: &mut O) -> Result<Reply, StepFault>
    ensures { SendsText O.Sink (gathered text) result out.old out.new }
{
    match text {
        Ok(text) => say_text(out, &text),
        Err(_) => Err(StepFault::Memory),
    }
}

// Says why what a chunk says is not said; one refusal is that of a body that does not read.
fn say_lack<O: Sink>(error: TagError, bad: Refusal, out: &mut O) -> Result<Reply, StepFault>
    requires { IsWhole error ≡ true }
    ensures { Lacks O.Sink bad error result out.old out.new }
{
    match error {
        TagError::BadBody => refuse(out, bad),
        TagError::Get(GetError::NoSuchChunk) => refuse(out, Refusal::NoSuchChunk),
        TagError::Get(GetError::ChunkTooLarge) => refuse(out, Refusal::ChunkTooLarge),
        TagError::Get(GetError::DiskFault(_)) => Err(StepFault::Disk),
        TagError::Get(GetError::Memory) => Err(StepFault::Memory),
        TagError::Get(GetError::Broken(_)) => unreachable!(),
    }
}

// Says the body of a chunk.
#[tactic(auto, using(crate::proofs::Decided::whole_body))]
fn say_chunk<'d, D: Disk, M: Mode, O: Sink>(
    file: &mut File<'d, D, M>,
    alloc: Global,
    id: Id4,
    out: &mut O,
) -> Result<Reply, StepFault>
    requires { (known_of file.old).broken ≡ None }
    ensures { Follows D.Disk O.Sink (get_chunk_rule id.0) result file.old out.old file.new out.new }
{
    match file.piece_bytes(alloc, id) {
        Ok(body) => say_gathered(body_text(alloc, &body), out),
        Err(error) => say_lack(TagError::Get(error), Refusal::NoSuchChunk, out),
    }
}

// Says which chunks there are.
fn say_chunks<'d, D: Disk, M: Mode, O: Sink>(
    file: &File<'d, D, M>,
    alloc: Global,
    out: &mut O,
) -> Result<Reply, StepFault>
    ensures { Follows D.Disk O.Sink get_chunks_rule result file.now out.old file.now out.new }
{
    say_gathered(chunks_text(alloc, file.pieces().as_slice()), out)
}

// Says the texts of the INFO list.
#[tactic(auto, using(crate::proofs::Decided::whole_info))]
fn say_strings<'d, D: Disk, M: Mode, O: Sink>(
    file: &mut File<'d, D, M>,
    alloc: Global,
    out: &mut O,
) -> Result<Reply, StepFault>
    requires { (known_of file.old).broken ≡ None }
    ensures { Follows D.Disk O.Sink get_strings_rule result file.old out.old file.new out.new }
{
    match texts(file, alloc) {
        Ok(list) => say_gathered(texts_text(alloc, &list), out),
        Err(error) => say_lack(error, Refusal::BadInfo, out),
    }
}

// Says the broadcast extension.
#[tactic(auto, using(crate::proofs::Decided::whole_piece))]
fn say_broadcast<'d, D: Disk, M: Mode, O: Sink>(
    file: &mut File<'d, D, M>,
    alloc: Global,
    out: &mut O,
) -> Result<Reply, StepFault>
    requires { (known_of file.old).broken ≡ None }
    ensures { Follows D.Disk O.Sink get_bext_rule result file.old out.old file.new out.new }
{
    match broadcast(file, alloc) {
        Ok(bext) => say_gathered(bext_text(alloc, &bext), out),
        Err(error) => say_lack(error, Refusal::BadBext, out),
    }
}

// Says the cue points.
#[tactic(auto, using(crate::proofs::Decided::whole_piece))]
fn say_points<'d, D: Disk, M: Mode, O: Sink>(
    file: &mut File<'d, D, M>,
    alloc: Global,
    out: &mut O,
) -> Result<Reply, StepFault>
    requires { (known_of file.old).broken ≡ None }
    ensures { Follows D.Disk O.Sink get_cues_rule result file.old out.old file.new out.new }
{
    match points(file, alloc) {
        Ok(points) => say_gathered(points_text(alloc, &points), out),
        Err(error) => say_lack(error, Refusal::BadCue, out),
    }
}

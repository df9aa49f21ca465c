//! The bodies that are put: what a body that was read says, changed.

ghost use Rattle.std.specs.Prelude.{◌≡◌, ◌≢◌, ◌<◌, ◌≤◌, ◌^◌, All, IfErr, IfOk, length};
ghost use Rattle.snd_meta.specs.Broadcast.{bext_body};
ghost use Rattle.snd_meta.specs.Cue.{cue_body, named};
ghost use Rattle.snd_edits.specs.TagDrafts.{bext_anew, bext_draft, info_anew, info_draft, timed_anew};
ghost use Rattle.snd_tags.specs.Steps.{IsShort, bytes_in, no_memory};

use crate::error::SetError;
use snd_layout::PieceError;
use snd_meta::{Bext, BextKey, CueList, InfoKey, InfoList, MetaError};
use std::alloc::Global;

const NO_MEMORY: SetError = SetError::Put(PieceError::Memory);

// The texts of a body; none where there is no body, or none that reads.
fn info_draft(alloc: Global, held: Option<Vec<u8>>) -> Result<InfoList, SetError>
    requires { IsShort (bytes_in held) }
    ensures draft { IfOk result (λ list. list ≡ info_draft (bytes_in held)) }
    ensures only { IfErr result (λ e. e ≡ no_memory) }
{
    let Some(body) = held else {
        return Ok(InfoList::new(alloc));
    };
    match InfoList::read(alloc, &body) {
        Ok(list) => Ok(list),
        Err(MetaError::BadInfo) => Ok(InfoList::new(alloc)),
        Err(_) => Err(NO_MEMORY),
    }
}

// The broadcast extension of a body, in the same way.
fn bext_draft(alloc: Global, held: Option<Vec<u8>>) -> Result<Bext, SetError>
    requires { IsShort (bytes_in held) }
    ensures draft { IfOk result (λ draft. draft ≡ bext_draft (bytes_in held)) }
    ensures only { IfErr result (λ e. e ≡ no_memory) }
{
    let Some(body) = held else {
        return Ok(Bext::new(alloc));
    };
    match Bext::read(alloc, &body) {
        Ok(draft) => Ok(draft),
        Err(MetaError::BadBext) => Ok(Bext::new(alloc)),
        Err(_) => Err(NO_MEMORY),
    }
}

/// The body of an INFO list with a text, of at most 1024 bytes.
pub(crate) fn info_with(
    alloc: Global,
    held: Option<Vec<u8>>,
    key: InfoKey,
    text: &[u8],
) -> Result<Vec<u8>, SetError>
    requires short { IsShort (bytes_in held) }
    requires no_zero { All (λ b. b ≢ 0) text.now }
    ensures body { IfOk result (λ body. body.items ≡ info_anew key text.now (bytes_in held)) }
    ensures only { IfErr result (λ e. e ≡ no_memory) }
{
    let mut list = info_draft(alloc, held)?;
    let Ok(()) = list.set(key, text) else {
        return Err(NO_MEMORY);
    };
    let mut body = Vec::new(alloc);
    let Ok(()) = list.put(&mut body) else {
        return Err(NO_MEMORY);
    };
    Ok(body)
}

fn bext_body(alloc: Global, draft: &Bext) -> Result<Vec<u8>, SetError>
    ensures body { IfOk result (λ body. body.items ≡ bext_body draft.now) }
    ensures only { IfErr result (λ e. e ≡ no_memory) }
{
    let mut body = Vec::new(alloc);
    let Ok(()) = draft.put(&mut body) else {
        return Err(NO_MEMORY);
    };
    Ok(body)
}

/// The body of a broadcast extension with a text that its field holds.
pub(crate) fn bext_with(
    alloc: Global,
    held: Option<Vec<u8>>,
    key: BextKey,
    text: &[u8],
) -> Result<Vec<u8>, SetError>
    requires short { IsShort (bytes_in held) }
    requires is_text { key ≢ BextKey.TimeRef }
    requires no_zero { All (λ b. b ≢ 0) text.now }
    ensures body { IfOk result (λ body. body.items ≡ bext_anew key text.now (bytes_in held)) }
    ensures only { IfErr result (λ e. e ≡ no_memory) }
{
    let mut draft = bext_draft(alloc, held)?;
    let Ok(()) = draft.set(key, text) else {
        return Err(NO_MEMORY);
    };
    bext_body(alloc, &draft)
}

/// The body of a broadcast extension with a time reference.
pub(crate) fn bext_timed(
    alloc: Global,
    held: Option<Vec<u8>>,
    time: u64,
) -> Result<Vec<u8>, SetError>
    requires { IsShort (bytes_in held) }
    ensures body { IfOk result (λ body. body.items ≡ timed_anew time (bytes_in held)) }
    ensures only { IfErr result (λ e. e ≡ no_memory) }
{
    let mut draft = bext_draft(alloc, held)?;
    draft.set_time(time);
    bext_body(alloc, &draft)
}

/// The body of cue points at these places.
pub(crate) fn cue_body(alloc: Global, places: &[u32]) -> Result<Vec<u8>, SetError>
    requires { length places.now < 2 ^ 32 }
    ensures body { IfOk result (λ body. body.items ≡ cue_body (named 1 places.now)) }
    ensures only { IfErr result (λ e. e ≡ no_memory) }
{
    let Ok(list) = CueList::from_places(alloc, places) else {
        return Err(NO_MEMORY);
    };
    let mut body = Vec::new(alloc);
    let Ok(()) = list.put(&mut body) else {
        return Err(NO_MEMORY);
    };
    Ok(body)
}

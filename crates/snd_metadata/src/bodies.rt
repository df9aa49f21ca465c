//! The bodies of the chunks that are changed.

ghost use Rattle.std.specs.Prelude.{◌≡◌, All, IfErr, IfOk, IsErrOf, false};
ghost use Rattle.snd_fields.specs.Laws.{IsByte};
ghost use Rattle.snd_meta.specs.Broadcast.{bext_body};
ghost use Rattle.snd_meta.specs.Info.{info_body};
ghost use Rattle.snd_output.specs.declared.stop.Stop.{Stop};
ghost use Rattle.snd_output.specs.declared.stop.Stop.TheVariants as stop;
ghost use Rattle.snd_words.specs.Stated.{IsStated};
ghost use Rattle.snd_metadata.specs.declared.halt.Halt.TheVariants as halt;
ghost use Rattle.snd_metadata.specs.Judged.{HasBodies, PutsBodies};
ghost use Rattle.snd_metadata.specs.Retagged.{are_too_large};
ghost use Rattle.snd_metadata.specs.Settings.{are_too_long};

use crate::halt::Halt;
use crate::settings::{Drafts, put_settings};
use snd_layout::LONGEST_PIECE;
use snd_lines::Refusal;
use snd_meta::{Bext, InfoList};
use snd_output::Stop;
use snd_words::MetadataSettings;
use std::alloc::Global;

/// The bodies of the broadcast extension and of the INFO list.
#[derive(Drop)]
pub(crate) struct Bodies {
    pub extension: Vec<u8>,
    pub texts: Vec<u8>,
}

// What a slice has are bytes.
fn are_bytes(bytes: &[u8]) -> usize
    ensures { All IsByte bytes.now }
{
    bytes.len()
}

fn extension_body(alloc: Global, draft: &Bext) -> Result<Vec<u8>, Stop>
    ensures body { IfOk result (λ body. body.items ≡ bext_body draft.now) }
    ensures bytes { IfOk result (λ body. All IsByte body.items) }
    ensures only { IfErr result (λ e. e ≡ stop.Memory) }
{
    let mut body = Vec::new(alloc);
    match draft.put(&mut body) {
        Ok(()) => {
            are_bytes(&body);
            Ok(body)
        }
        Err(_) => Err(Stop::Memory),
    }
}

fn texts_body(alloc: Global, draft: &InfoList) -> Result<Vec<u8>, Stop>
    ensures body { IfOk result (λ body. body.items ≡ info_body draft.now) }
    ensures bytes { IfOk result (λ body. All IsByte body.items) }
    ensures only { IfErr result (λ e. e ≡ stop.Memory) }
{
    let mut body = Vec::new(alloc);
    match draft.put(&mut body) {
        Ok(()) => {
            are_bytes(&body);
            Ok(body)
        }
        Err(_) => Err(Stop::Memory),
    }
}

// Whether one of two bodies has more than 65536 bytes.
fn are_too_large(extension: &[u8], texts: &[u8]) -> bool
    ensures { result ≡ are_too_large extension.now texts.now }
{
    let most = LONGEST_PIECE as usize;
    extension.len() > most || texts.len() > most
}

// The bodies of drafts with all that is set, of which nothing is too long.
fn bodies_put(
    alloc: Global,
    drafts: Drafts,
    settings: &MetadataSettings<'_>,
) -> Result<Bodies, Stop>
    requires good { All IsStated settings.now }
    requires fit { are_too_long settings.now ≡ false }
    ensures bodies { IfOk result (PutsBodies settings.now drafts) }
    ensures only { IfErr result (λ e. e ≡ stop.Memory) }
{
    let mut drafts = drafts;
    put_settings(&mut drafts, settings)?;
    Ok(Bodies {
        extension: extension_body(alloc, &drafts.extension)?,
        texts: texts_body(alloc, &drafts.texts)?,
    })
}

/// The bodies of drafts with all that is set: of the output `TextTooLong` where a text is too long, whose
/// number of bytes the summary tells, and then `ChunkTooLarge` where a body has more than 65536 bytes.
pub(crate) fn bodies_of(
    alloc: Global,
    drafts: Drafts,
    settings: &MetadataSettings<'_>,
    too_long: bool,
) -> Result<Bodies, Halt>
    requires good { All IsStated settings.now }
    requires summed { too_long ≡ are_too_long settings.now }
    ensures bodies { HasBodies settings.now drafts result }
    ensures stop { (why : Stop) → IsErrOf result (halt.Stop why) → why ≡ stop.Memory }
{
    if too_long {
        return Err(Halt::Output(Refusal::TextTooLong));
    }
    let bodies = bodies_put(alloc, drafts, settings)?;
    if are_too_large(&bodies.extension, &bodies.texts) {
        return Err(Halt::Output(Refusal::ChunkTooLarge));
    }
    Ok(bodies)
}

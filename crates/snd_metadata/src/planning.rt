//! What is to be made of an open file.

ghost use Rattle.std.specs.Prelude.{◌≡◌, All, IfOk, None, false, map, true};
ghost use Rattle.snd_disk.specs.Device.{AsksAtMost};
ghost use Rattle.snd_layout.specs.Blocks.{is_adpcm};
ghost use Rattle.snd_layout.specs.Fit.{fit_refusal};
ghost use Rattle.snd_file.specs.Handle.{codec_of, disk_of, known_of};
ghost use Rattle.snd_layout.specs.Kinds.{holds_meta};
ghost use Rattle.snd_words.specs.Stated.{IsStated};
ghost use Rattle.snd_metadata.specs.Judged.{HasRoom};
ghost use Rattle.snd_metadata.specs.Looking.{Looks, judging};
ghost use Rattle.snd_metadata.specs.Making.{PlansFrom, TellsFull, TellsRoom};
ghost use Rattle.snd_metadata.specs.Planned.{IsPlan, IsReady, outline_planned};
ghost use Rattle.snd_metadata.specs.Retagged.{is_full_with};

use crate::bodies::bodies_of;
use crate::chunks::{PlannedChunk, size_of};
use crate::halt::Halt;
use crate::held::drafts_of;
use crate::places::chunks_of;
use crate::settings::summary_of;
use snd_container::{fit, room_with};
use snd_disk::Disk;
use snd_edits::Read;
use snd_file::File;
use snd_lines::Refusal;
use snd_words::MetadataSettings;
use std::alloc::Global;

// Whether the head of a file with these chunks has no room for the data of an open file.
fn is_full<D: Disk>(plan: &[PlannedChunk], file: &File<'_, D, Read>) -> bool
    requires working { (known_of file.now).broken ≡ None }
    requires linear { is_adpcm (codec_of file.now) ≡ false }
    requires meta { holds_meta (known_of file.now).shape.kind ≡ true }
    requires fits { fit_refusal (known_of file.now).shape.kind (known_of file.now).shape.params ≡ None }
    requires plan { IsPlan (known_of file.now).shape.pieces plan.now }
    ensures outlines { result ≡ is_full_with (known_of file.now).shape (map outline_planned plan.now) }
    ensures told { TellsFull D.state plan.now file.now result }
{
    let params = file.params();
    let bytes = u128::from(file.frames()) * u128::from(params.block_align());
    bytes > u128::from(room_with(file.kind(), params, size_of(plan)))
}

// Whether the output may be made of an open file with these chunks: why its kind does not hold the
// parameters, and then `ContainerFull` where its head has no room for the data.
fn judge_room<D: Disk>(plan: &[PlannedChunk], file: &File<'_, D, Read>) -> Result<(), Halt>
    requires working { (known_of file.now).broken ≡ None }
    requires linear { is_adpcm (codec_of file.now) ≡ false }
    requires meta { holds_meta (known_of file.now).shape.kind ≡ true }
    requires plan { IsPlan (known_of file.now).shape.pieces plan.now }
    ensures outlines { HasRoom (known_of file.now).shape (map outline_planned plan.now) result }
    ensures told { TellsRoom D.state plan.now file.now result }
{
    if let Err(why) = fit(file.kind(), file.params()) {
        return Err(Halt::Output(Refusal::Open(why)));
    }
    if is_full(plan, file) {
        return Err(Halt::Output(Refusal::ContainerFull));
    }
    Ok(())
}

/// The chunks of the file that is made of an open one with these settings; or the first reason why it is not
/// made: `NoChunks` of an input that is neither WAVE nor RF64, `AdpcmUpdate` of one of ADPCM, those of
/// `drafts_of` and of `bodies_of`, why its kind does not hold its parameters, and `ContainerFull`.
pub(crate) fn plan_of<D: Disk>(
    alloc: Global,
    settings: &MetadataSettings<'_>,
    file: &mut File<'_, D, Read>,
) -> Result<Vec<PlannedChunk>, Halt>
    requires working { (known_of file.old).broken ≡ None }
    requires good { All IsStated settings.now }
    ensures plans { PlansFrom D.state settings.now file.old result }
    ensures ready { IfOk result (λ plan. IsReady (known_of file.old).shape plan.items) }
    ensures looks { Looks D.Disk file.old file.new (judging result) }
    ensures asked { AsksAtMost D.state 148480 (disk_of file.old) (disk_of file.new) }
{
    if !file.kind().holds_meta() {
        return Err(Halt::Input(Refusal::NoChunks));
    }
    if file.params().codec.is_adpcm() {
        return Err(Halt::Input(Refusal::AdpcmUpdate));
    }
    let summary = summary_of(settings);
    let drafts = drafts_of(alloc, summary, file)?;
    let bodies = bodies_of(alloc, drafts, settings, summary.too_long)?;
    let plan = chunks_of(alloc, summary, bodies, file)?;
    judge_room(&plan, file)?;
    Ok(plan)
}

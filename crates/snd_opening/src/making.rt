//! Files that are made.

ghost use Rattle.std.specs.Prelude.{◌≡◌, ◌≤◌, Err, IfErr, IfOk, None, [], false, is_none, is_some, true};
ghost use Rattle.snd_disk.specs.Device.{GoesOnFrom, WritesAtMost};
ghost use Rattle.snd_block_writer.specs.Writing.{StandsFor};
ghost use Rattle.snd_blocks.specs.Calls.{AreBlocks};
ghost use Rattle.snd_container.specs.Made.{new_shape};
ghost use Rattle.snd_container.specs.Sound.{fixed_of};
ghost use Rattle.snd_layout.specs.Blocks.{is_adpcm};
ghost use Rattle.snd_layout.specs.Fit.{fit_refusal};
ghost use Rattle.snd_layout.specs.Opened.{CountsOpening};
ghost use Rattle.snd_layout.specs.declared.refusal.OpenRefusal.{OpenRefusal};
ghost use Rattle.snd_edits.specs.Known.{IsFresh};
ghost use Rattle.snd_file.specs.Handle.{known_of};
ghost use Rattle.snd_opening.specs.Opening.{answer_of, disk_after, loan_after};
ghost use Rattle.snd_edits.specs.Making.{making_of};
ghost use Rattle.snd_opening.specs.Making.{IfMemory, MakesFile};
ghost use Rattle.snd_patch.specs.Steps.{StillTells};

use snd_block_writer::{BlockWriter, are_blocks};
use snd_container::{fit, lay_head};
use snd_disk::Disk;
use snd_edits::{Encode, Write};
use snd_file::{File, at_first_frame};
use snd_layout::{Kind, OpenError, Params};
use std::alloc::{AllocError, Global};

/// Makes a disk a sound file of a kind with these parameters and no frames, whatever it held before, and
/// opens it to be written. The codec is not ADPCM: `create_blocks` makes such files. It writes at most 2048
/// bytes and reads none.
///
/// The answer is `Refused` with the first reason, by number, for which the kind does not hold the
/// parameters, also over a disk that does not tell what it holds: then the disk is not touched. `DiskFault`
/// where a call of the disk failed. It takes no memory. The disk comes back with the answer.
pub fn create<'d, D: Disk>(
    alloc: Global,
    disk: &'d mut D,
    kind: Kind,
    params: Params,
) -> Result<File<'d, D, Write>, (OpenError, &'d mut D)>
    requires linear { is_none (fixed_of params.codec) ≡ false }
    ensures lends { loan_after result ≡ disk.entry.ghost_name }
    ensures made { MakesFile D.state kind params disk.old (answer_of result) }
    ensures untouched { (refusal : OpenRefusal) → making_of kind params ≡ Err refusal → disk_after result ≡ disk.old }
    ensures fits { IfOk result (λ f. fit_refusal kind params ≡ None) }
    ensures memory { IfErr (answer_of result) (IfMemory ⊥) }
    ensures fresh { IfOk result (λ f. IsFresh (known_of f)) }
    ensures shape { IfOk result (λ f. (known_of f).shape ≡ new_shape kind params) }
    ensures faults { CountsOpening D.state disk.old (disk_after result) (answer_of result) }
    ensures tells { StillTells (D.state disk.old) (D.state (disk_after result)) }
    ensures time { GoesOnFrom D.state D.left_between disk.old (disk_after result) }
    ensures written { WritesAtMost D.state 2048 disk.old (disk_after result) }
    ensures asked { (D.state (disk_after result)).asked ≡ (D.state disk.old).asked }
{
    if let Err(refusal) = fit(kind, params) {
        return Err((OpenError::Refused(refusal), disk));
    }
    params.are_good();
    let layout = match lay_head(alloc, disk, kind, params) {
        Ok(layout) => layout,
        Err(error) => return Err((error, disk)),
    };
    Ok(at_first_frame(disk, layout, None, None))
}

// What makes the blocks of a file with these parameters, which a kind holds.
fn writer_for(alloc: Global, kind: Kind, params: Params) -> Result<Box<BlockWriter>, AllocError>
    requires fits { fit_refusal kind params ≡ None }
    requires blocks { is_adpcm params.codec ≡ true }
    ensures form { AreBlocks params }
    ensures stands { IfOk result (λ w. StandsFor w.value params []) }
{
    let _ = kind;
    are_blocks(&params);
    Ok(Box::new(alloc, BlockWriter::new(params))?)
}

/// Makes a disk a sound file of a kind with these parameters and no frames, whose codec is ADPCM, and opens it
/// to be written by blocks: as `create`, with its answers, and `Memory` where there is none: then the disk is not
/// touched.
pub fn create_blocks<'d, D: Disk>(
    alloc: Global,
    disk: &'d mut D,
    kind: Kind,
    params: Params,
) -> Result<File<'d, D, Encode>, (OpenError, &'d mut D)>
    requires blocks { is_adpcm params.codec ≡ true }
    ensures lends { loan_after result ≡ disk.entry.ghost_name }
    ensures made { MakesFile D.state kind params disk.old (answer_of result) }
    ensures untouched { (refusal : OpenRefusal) → making_of kind params ≡ Err refusal → disk_after result ≡ disk.old }
    ensures fits { IfOk result (λ f. fit_refusal kind params ≡ None) }
    ensures memory { IfErr (answer_of result) (IfMemory (disk_after result ≡ disk.old)) }
    ensures fresh { IfOk result (λ f. IsFresh (known_of f)) }
    ensures shape { IfOk result (λ f. (known_of f).shape ≡ new_shape kind params) }
    ensures faults { CountsOpening D.state disk.old (disk_after result) (answer_of result) }
    ensures tells { StillTells (D.state disk.old) (D.state (disk_after result)) }
    ensures time { GoesOnFrom D.state D.left_between disk.old (disk_after result) }
    ensures written { WritesAtMost D.state 2048 disk.old (disk_after result) }
    ensures asked { (D.state (disk_after result)).asked ≡ (D.state disk.old).asked }
{
    if let Err(refusal) = fit(kind, params) {
        return Err((OpenError::Refused(refusal), disk));
    }
    params.are_good();
    let writer = match writer_for(alloc, kind, params) {
        Ok(writer) => writer,
        Err(AllocError) => return Err((OpenError::Memory, disk)),
    };
    let layout = match lay_head(alloc, disk, kind, params) {
        Ok(layout) => layout,
        Err(error) => return Err((error, disk)),
    };
    layout.keeps_rule();
    Ok(at_first_frame(disk, layout, None, Some(writer)))
}

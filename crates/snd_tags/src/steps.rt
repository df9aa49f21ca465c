//! The calls of the file by which a chunk is set: its body is read, and it is put.

ghost use Rattle.std.specs.Prelude.{◌≡◌, IfErr, IfOk, OnOk, true};
ghost use Rattle.snd_file.specs.Handle.{IfOkStanding};
ghost use Rattle.snd_layout.specs.Kinds.{is_meta_id};
ghost use Rattle.snd_edits.specs.TagDrafts.{body_held};
ghost use Rattle.snd_tags.specs.Steps.{FailsToRead, IsShort, Puts, Reads, bytes_in};

use crate::error::SetError;
use snd_disk::Disk;
use snd_edits::{CanMake, GetError};
use snd_fields::Id4;
use snd_file::File;
use snd_layout::PieceError;
use std::alloc::Global;

/// The body of the first chunk with an identifier, where there is one of at most 65536 bytes.
pub(crate) fn body_held<'d, D: Disk, M: CanMake>(
    file: &mut File<'d, D, M>,
    alloc: Global,
    id: Id4,
) -> Result<Option<Vec<u8>>, SetError>
    ensures body { IfOkStanding D.state file.old result (λ e held. bytes_in held ≡ body_held id.0 e) }
    ensures short { IfOk result (λ held. IsShort (bytes_in held)) }
    ensures read { OnOk result (Reads D.Disk file.old file.new) }
    ensures failed { IfErr result (FailsToRead D.Disk file.old file.new) }
{
    match file.piece_bytes(alloc, id) {
        Ok(body) => Ok(Some(body)),
        Err(GetError::NoSuchChunk) => Ok(None),
        Err(GetError::ChunkTooLarge) => Ok(None),
        Err(GetError::Broken(step)) => Err(SetError::Put(PieceError::Broken(step))),
        Err(GetError::DiskFault(step)) => Err(SetError::Put(PieceError::DiskFault(step))),
        Err(GetError::Memory) => Err(SetError::Put(PieceError::Memory)),
    }
}

/// Puts a chunk of this body, in the place of the first with its identifier or behind the others.
pub(crate) fn put_body<'d, D: Disk, M: CanMake>(
    file: &mut File<'d, D, M>,
    id: Id4,
    body: &[u8],
) -> Result<(), SetError>
    requires { is_meta_id id.0 ≡ true }
    ensures { Puts D.Disk 16711680 id.0 body.now file.old file.new result }
{
    match file.put_meta(id, body) {
        Ok(()) => Ok(()),
        Err(error) => Err(SetError::Put(error)),
    }
}

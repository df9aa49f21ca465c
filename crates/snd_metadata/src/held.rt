//! What the chunks that are to be changed say in the input.

ghost use Rattle.std.specs.Prelude.{◌≡◌, None};
ghost use Rattle.snd_disk.specs.Device.{AsksAtMost};
ghost use Rattle.snd_file.specs.Handle.{disk_of, known_of};
ghost use Rattle.snd_metadata.specs.Looking.{DraftsFrom, Looks, ReadsExtension, ReadsTexts, halted_by, judging, reading};

use crate::halt::{Halt, Unread};
use crate::settings::{Drafts, Summary};
use snd_disk::Disk;
use snd_edits::{GetError, Read, TagError};
use snd_file::File;
use snd_lines::Refusal;
use snd_meta::{Bext, InfoList};
use snd_output::Stop;
use snd_tags::{broadcast, texts};
use std::alloc::Global;

// What the broadcast extension says, where it is wanted.
fn extension_held<D: Disk>(
    alloc: Global,
    wanted: bool,
    file: &mut File<'_, D, Read>,
) -> Result<Bext, Unread>
    requires { (known_of file.old).broken ≡ None }
    ensures read { ReadsExtension D.state wanted file.old result }
    ensures looks { Looks D.Disk file.old file.new (reading result) }
    ensures asked { AsksAtMost D.state 65536 (disk_of file.old) (disk_of file.new) }
{
    if !wanted {
        return Ok(Bext::new(alloc));
    }
    match broadcast(file, alloc) {
        Ok(draft) => Ok(draft),
        Err(TagError::BadBody) => Err(Unread::Bad),
        Err(TagError::Get(GetError::NoSuchChunk)) => Ok(Bext::new(alloc)),
        Err(TagError::Get(GetError::ChunkTooLarge)) => Err(Unread::TooLarge),
        Err(TagError::Get(GetError::Memory)) => Err(Unread::Stop(Stop::Memory)),
        Err(TagError::Get(GetError::DiskFault(_))) => Err(Unread::Stop(Stop::Fault)),
        Err(TagError::Get(GetError::Broken(_))) => unreachable!(),
    }
}

// What the INFO list says, where it is wanted.
fn texts_held<D: Disk>(
    alloc: Global,
    wanted: bool,
    file: &mut File<'_, D, Read>,
) -> Result<InfoList, Unread>
    requires { (known_of file.old).broken ≡ None }
    ensures read { ReadsTexts D.state wanted file.old result }
    ensures looks { Looks D.Disk file.old file.new (reading result) }
    ensures asked { AsksAtMost D.state 81920 (disk_of file.old) (disk_of file.new) }
{
    if !wanted {
        return Ok(InfoList::new(alloc));
    }
    match texts(file, alloc) {
        Ok(list) => Ok(list),
        Err(TagError::BadBody) => Err(Unread::Bad),
        Err(TagError::Get(GetError::NoSuchChunk)) => Ok(InfoList::new(alloc)),
        Err(TagError::Get(GetError::ChunkTooLarge)) => Err(Unread::TooLarge),
        Err(TagError::Get(GetError::Memory)) => Err(Unread::Stop(Stop::Memory)),
        Err(TagError::Get(GetError::DiskFault(_))) => Err(Unread::Stop(Stop::Fault)),
        Err(TagError::Get(GetError::Broken(_))) => unreachable!(),
    }
}

// Why no file is made where a chunk is not read.
fn halt_of(why: Unread, bad: Refusal) -> Halt
    ensures { result ≡ halted_by why bad }
{
    match why {
        Unread::TooLarge => Halt::Input(Refusal::ChunkTooLarge),
        Unread::Bad => Halt::Input(bad),
        Unread::Stop(stop) => Halt::Stop(stop),
    }
}

/// What the two chunks say that settings change. `ChunkTooLarge` of the input where one of them has more than
/// 65536 bytes; then `BadBext`, and then `BadInfo`, where it does not read.
pub(crate) fn drafts_of<D: Disk>(
    alloc: Global,
    summary: Summary,
    file: &mut File<'_, D, Read>,
) -> Result<Drafts, Halt>
    requires { (known_of file.old).broken ≡ None }
    ensures drafts { DraftsFrom D.state file.old summary.fields summary.texts result }
    ensures looks { Looks D.Disk file.old file.new (judging result) }
    ensures asked { AsksAtMost D.state 147456 (disk_of file.old) (disk_of file.new) }
{
    match extension_held(alloc, summary.fields, file) {
        Ok(extension) => match texts_held(alloc, summary.texts, file) {
            Ok(texts) => Ok(Drafts { extension, texts }),
            Err(why) => Err(halt_of(why, Refusal::BadInfo)),
        },
        Err(Unread::Bad) => match texts_held(alloc, summary.texts, file) {
            Ok(_) => Err(Halt::Input(Refusal::BadBext)),
            Err(why) => Err(halt_of(why, Refusal::BadBext)),
        },
        Err(Unread::TooLarge) => Err(Halt::Input(Refusal::ChunkTooLarge)),
        Err(Unread::Stop(stop)) => Err(Halt::Stop(stop)),
    }
}

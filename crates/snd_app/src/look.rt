//! What stands under a name.

ghost use Rattle.std.specs.Prelude.{◌≡◌, List, ℕ, false};
ghost use Rattle.snd_disk.specs.Device.{AsksAtMost, IfOkTold, OnlyReadsOn};
ghost use Rattle.snd_disk.specs.Shelf.{KeepsFiles};
ghost use Rattle.snd_disk.specs.Shelves.{KeepsFileImages};
ghost use Rattle.snd_container.specs.Sound.{layout_of};
ghost use Rattle.snd_output.specs.Ends.{CountsStop};
ghost use Rattle.snd_app.specs.Look.{IfOkFiles, OnlyLooks};
ghost use Rattle.snd_app.specs.Outcome.{found_in, found_of, shown_texts};

use snd_container::open_layout;
use snd_disk::{Disk, Shelf, ShelfFault};
use snd_edits::{GetError, TagError};
use snd_layout::{Layout, OpenError, OpenRefusal};
use snd_meta::InfoList;
use snd_output::Stop;
use snd_tags::texts_on;
use std::alloc::Global;

/// What stands under a name.
#[derive(Drop)]
pub enum Found {
    Missing,
    /// A file that has no layout, and why.
    Refused(OpenRefusal),
    /// A sound file, with the texts of its INFO list that are shown.
    Sound(Layout, InfoList),
}

impl Found {
    ghost use Rattle.snd_app.specs.Outcome.{is_refused};

    /// Whether there is nothing to describe.
    pub fn is_refused(&self) -> bool
        ensures { result ≡ is_refused self.now }
    {
        !matches!(self, Found::Sound(..))
    }
}

// The texts of a file that are shown.
fn shown_texts<D: Disk>(alloc: Global, disk: &mut D, layout: &Layout) -> Result<InfoList, Stop>
    ensures shown { IfOkTold D.state disk.old result (λ b texts. texts ≡ shown_texts b layout.now) }
    ensures faults { CountsStop (D.state disk.old).faults (D.state disk.new).faults result }
    ensures reads { OnlyReadsOn D.state D.may_leave D.left_between disk.old disk.new }
    ensures asked { AsksAtMost D.state 81920 disk.old disk.new }
{
    if !layout.kind.holds_meta() {
        return Ok(InfoList::new(alloc));
    }
    match texts_on(alloc, disk, layout) {
        Ok(texts) => Ok(texts),
        Err(TagError::Get(GetError::Memory)) => Err(Stop::Memory),
        Err(TagError::Get(GetError::DiskFault(_))) => Err(Stop::Fault),
        Err(TagError::Get(GetError::Broken(_))) => unreachable!(),
        Err(TagError::BadBody) => Ok(InfoList::new(alloc)),
        Err(TagError::Get(GetError::NoSuchChunk | GetError::ChunkTooLarge)) => {
            Ok(InfoList::new(alloc))
        }
    }
}

fn found_on<D: Disk>(alloc: Global, disk: &mut D) -> Result<Found, Stop>
    ensures found { IfOkTold D.state disk.old result (λ b found. found ≡ found_of b (layout_of b)) }
    ensures faults { CountsStop (D.state disk.old).faults (D.state disk.new).faults result }
    ensures reads { OnlyReadsOn D.state D.may_leave D.left_between disk.old disk.new }
    ensures asked { AsksAtMost D.state 98304 disk.old disk.new }
{
    match open_layout(alloc, disk) {
        Ok(layout) => {
            let texts = shown_texts(alloc, disk, &layout)?;
            Ok(Found::Sound(layout, texts))
        }
        Err(OpenError::Refused(refusal)) => Ok(Found::Refused(refusal)),
        Err(OpenError::Memory) => Err(Stop::Memory),
        Err(_) => Err(Stop::Fault),
    }
}

/// Looks at the file of a name. The shelf has it back, as it was.
pub fn look<S: Shelf>(alloc: Global, shelf: &mut S, name: &str) -> Result<Found, Stop>
    requires { (S.state shelf.old).out name.now ≡ false }
    ensures found { IfOkFiles S.state shelf.old result (λ f found. found ≡ found_in (f name.now)) }
    ensures faults { CountsStop (S.state shelf.old).faults (S.state shelf.new).faults result }
    ensures back { (n : List ℕ) → (S.state shelf.new).out n ≡ (S.state shelf.old).out n }
    ensures files { KeepsFiles (S.state shelf.old) (S.state shelf.new) }
    ensures images { KeepsFileImages S.state S.may_leave S.left_between shelf.old shelf.new }
    ensures looks { OnlyLooks 1 (S.state shelf.old) (S.state shelf.new) }
{
    let mut disk = match shelf.take(name, false) {
        Ok(disk) => disk,
        Err(ShelfFault::Missing) => return Ok(Found::Missing),
        Err(ShelfFault::Failed) => return Err(Stop::Fault),
        Err(ShelfFault::Memory) => return Err(Stop::Memory),
    };
    let found = found_on(alloc, &mut disk);
    shelf.give(name, disk);
    found
}

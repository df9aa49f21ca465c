//! The files that are made of the channels of an open one.

ghost use Rattle.std.specs.Prelude.{◌≡◌, ◌≤◌, OnOk, length, take};
ghost use Rattle.snd_inputs.specs.Copying.{CountsFileAndShelf, OnlyReadsFile};
ghost use Rattle.snd_inputs.specs.Opening.{IsUnread};
ghost use Rattle.snd_file.specs.Handle.{channels_of, known_of, loan_of};
ghost use Rattle.snd_output.specs.Appended.{FindsChanged};
ghost use Rattle.snd_deinterleave.specs.Among.{ChangesAmong};
ghost use Rattle.snd_deinterleave.specs.Making.{AreApartNames, AreIn, AsksTimes, IsRewound, MakesAll, MaySplit};

use crate::make::make;
use snd_disk::{Disk, Shelf};
use snd_edits::Read;
use snd_file::File;
use snd_inputs::take_output;
use snd_layout::{Kind, Params};
use snd_output::Stop;
use snd_words::Names;
use std::alloc::Global;

/// Makes the first so many outputs of the channels of an open file, in their order: all of them are taken out before the
/// first is written, the last one first, so that none is another one under a second spelling.
///
/// Where a call fails, the outputs before the one that it was for stand whole.
pub(crate) fn make_first<S: Shelf, D: Disk>(
    alloc: Global,
    file: &mut File<'_, D, Read>,
    outputs: &Names<'_>,
    count: usize,
    kind: Kind,
    params: Params,
    shelf: &mut S,
) -> Result<(), Stop>
    requires within { count ≤ length outputs.now }
    requires apart { AreApartNames outputs.now }
    requires all_in { AreIn (take count outputs.now) (S.state shelf.old) }
    requires unread { IsUnread (known_of file.old) }
    requires channels { count ≤ channels_of file.old }
    requires split { MaySplit kind params (known_of file.old) }
    ensures loan { loan_of file.new ≡ loan_of file.old }
    ensures made { OnOk result (MakesAll D.state S.state (take count outputs.now) kind params file.old shelf.old shelf.new) }
    ensures rewound { OnOk result (IsRewound D.state file.old file.new) }
    ensures changes { ChangesAmong S.Shelf (take count outputs.now) shelf.old shelf.new }
    ensures faults { CountsFileAndShelf D.state S.state file.old file.new shelf.old shelf.new result }
    ensures changed { FindsChanged D.state (λ e. e.frames) file.old result }
    ensures reads { OnlyReadsFile D.Disk file.old file.new }
    ensures asked { AsksTimes D.state count file.old file.new }
    ensures unasked { (S.state shelf.new).asked ≡ (S.state shelf.old).asked }
{
    if count == 0 {
        return Ok(());
    }
    let last = count - 1;
    let Some(name) = outputs.get(last) else {
        unreachable!();
    };
    let mut disk = take_output(name, shelf)?;
    match make_first(alloc, file, outputs, last, kind, params, shelf) {
        Ok(()) => {
            let made = make(alloc, file, last, kind, params, &mut disk);
            shelf.give(name, disk);
            made
        }
        Err(stop) => {
            shelf.give(name, disk);
            Err(stop)
        }
    }
}

//! The frames of files, behind those of one that is being made.

ghost use Rattle.std.specs.Prelude.{◌≡◌, ◌+◌, ◌≤◌, ◌^◌, ◌∷◌, [], All, IsOk, OnOk, false, length};
ghost use Rattle.snd_disk.specs.Device.{AsksAtMost, GoesOnFrom, OnlyReadsOn};
ghost use Rattle.snd_inputs.specs.Asking.{AsksForEach};
ghost use Rattle.snd_inputs.specs.Copying.{AsksToCopy, CountsFileAndShelf, CountsFiles, OnlyReadsFile, bytes_to_copy};
ghost use Rattle.snd_inputs.specs.Looking.{ReadsFiles};
ghost use Rattle.snd_inputs.specs.Opening.{IsUnread};
ghost use Rattle.snd_layout.specs.Opened.{EndsIn};
ghost use Rattle.snd_layout.specs.Shape.{end, room as shape_room};
ghost use Rattle.snd_file.specs.Handle.{disk_of, known_of, loan_of};
ghost use Rattle.snd_file.specs.Outcomes.{AsksNothing, TellsOn};
ghost use Rattle.snd_output.specs.Appended.{FindsChanged, IsAtEnd};
ghost use Rattle.snd_output.specs.Ends.{CountsOneOf};
ghost use Rattle.snd_concat.specs.Appending.{AppendsAll, AppendsFile, AppendsInput, AppendsLaid, Follows, InputChanged, LaidChanged, MadeUnlessFault};
ghost use Rattle.snd_concat.specs.Making.{StayGood};

use crate::judge::is_alike;
use snd_disk::{Disk, Shelf};
use snd_edits::Read;
use snd_file::File;
use snd_inputs::{Input, close_read, exceeds_room, open_input, params_of};
use snd_layout::Layout;
use snd_lines::Refusal;
use snd_opening::open_laid;
use snd_output::{Making, Stop, append, numbers_of};
use snd_tools::Answer;
use snd_words::Names;
use std::alloc::Global;

// Why the frames of a file may not stand behind those of another, whose head has this room.
fn judge<D: Disk, E: Disk, M: Making>(
    from: &File<'_, D, Read>,
    to: &File<'_, E, M>,
    room: u64,
) -> Result<(), Refusal>
    requires at_end { IsAtEnd (known_of to.now) }
    requires room { room ≡ shape_room (known_of to.now).shape }
    ensures follows { OnOk result (Follows (known_of from.now).shape (known_of to.now)) }
    ensures ok { Follows (known_of from.now).shape (known_of to.now) → IsOk result }
{
    to.keeps_rule();
    let (params, wanted) = (from.params(), to.params());
    if !is_alike(wanted, params) {
        return Err(Refusal::MixedParams);
    }
    let frames = u128::from(M::given(to)) + u128::from(from.frames());
    if exceeds_room(room, to.kind(), wanted, frames) {
        return Err(Refusal::ContainerFull);
    }
    Ok(())
}

// Puts the frames of an open file there, or says why they may not stand there.
fn append_file<D: Disk, E: Disk, M: Making>(
    from: &mut File<'_, D, Read>,
    to: &mut File<'_, E, M>,
    room: u64,
    block: &mut [i32],
) -> Result<Result<(), Refusal>, Stop>
    requires unread { IsUnread (known_of from.old) }
    requires at_end { IsAtEnd (known_of to.old) }
    requires room { room ≡ shape_room (known_of to.old).shape }
    requires places { length block.old ≡ 16384 }
    ensures loan { loan_of from.new ≡ loan_of from.old }
    ensures to_loan { loan_of to.new ≡ loan_of to.old }
    ensures left { MadeUnlessFault (known_of to.old) (known_of to.new) result }
    ensures appended { AppendsFile D.state E.state from.old to.old to.new result }
    ensures changed { FindsChanged D.state (λ e. e.frames) from.old result }
    ensures faults { CountsFiles D.state E.state from.old from.new to.old to.new result }
    ensures reads { OnlyReadsFile D.Disk from.old from.new }
    ensures tells { TellsOn E.state to.old to.new }
    ensures time { GoesOnFrom E.state E.left_between (disk_of to.old) (disk_of to.new) }
    ensures asked { AsksToCopy D.state 0 from.old from.new }
    ensures unasked { AsksNothing E.state to.old to.new }
{
    if let Err(why) = judge(from, to, room) {
        return Ok(Err(why));
    }
    params_of(from);
    append(from, to, block)?;
    Ok(Ok(()))
}

// .. those of the file on a disk, by its layout.
fn append_laid<D: Disk, E: Disk, M: Making>(
    alloc: Global,
    disk: &mut D,
    layout: Layout,
    to: &mut File<'_, E, M>,
    room: u64,
    block: &mut [i32],
) -> Result<Result<(), Refusal>, Stop>
    requires held { end layout layout.frames ≤ (D.state disk.old).size }
    requires room_ends { layout.start + shape_room layout + 8 ≤ 2 ^ 63 }
    requires pieces_held { All (EndsIn (D.state disk.old).size) layout.pieces }
    requires at_end { IsAtEnd (known_of to.old) }
    requires room { room ≡ shape_room (known_of to.old).shape }
    requires places { length block.old ≡ 16384 }
    ensures to_loan { loan_of to.new ≡ loan_of to.old }
    ensures left { MadeUnlessFault (known_of to.old) (known_of to.new) result }
    ensures appended { AppendsLaid D.state E.state disk.old layout to.old to.new result }
    ensures changed { LaidChanged D.state disk.old layout result }
    ensures faults { CountsOneOf (D.state disk.old).faults (D.state disk.new).faults (E.state (disk_of to.old)).faults (E.state (disk_of to.new)).faults result }
    ensures reads { OnlyReadsOn D.state D.may_leave D.left_between disk.old disk.new }
    ensures tells { TellsOn E.state to.old to.new }
    ensures time { GoesOnFrom E.state E.left_between (disk_of to.old) (disk_of to.new) }
    ensures asked { AsksAtMost D.state (0 + bytes_to_copy layout.params layout.frames) disk.old disk.new }
    ensures unasked { AsksNothing E.state to.old to.new }
{
    let mut from = match open_laid(alloc, disk, layout) {
        Ok(from) => from,
        Err((_, back)) => {
            let _ = back;
            return Err(Stop::Memory);
        }
    };
    let appended = append_file(&mut from, to, room, block);
    let back = close_read(from);
    let _ = back;
    appended
}

// .. those of the file of a name.
fn append_input<S: Shelf, E: Disk, M: Making>(
    alloc: Global,
    name: &str,
    shelf: &mut S,
    to: &mut File<'_, E, M>,
    room: u64,
    block: &mut [i32],
) -> Result<Result<(), Refusal>, Stop>
    requires is_in { (S.state shelf.old).out name.now ≡ false }
    requires at_end { IsAtEnd (known_of to.old) }
    requires room { room ≡ shape_room (known_of to.old).shape }
    requires places { length block.old ≡ 16384 }
    ensures to_loan { loan_of to.new ≡ loan_of to.old }
    ensures left { MadeUnlessFault (known_of to.old) (known_of to.new) result }
    ensures appended { AppendsInput S.state E.state name.now shelf.old to.old to.new result }
    ensures changed { InputChanged S.state name.now shelf.old result }
    ensures faults { CountsFileAndShelf E.state S.state to.old to.new shelf.old shelf.new result }
    ensures reads { ReadsFiles S.Shelf shelf.old shelf.new }
    ensures tells { TellsOn E.state to.old to.new }
    ensures time { GoesOnFrom E.state E.left_between (disk_of to.old) (disk_of to.new) }
    ensures asked { AsksForEach 1 16384 S.state (name.now ∷ []) shelf.old shelf.new }
    ensures unasked { AsksNothing E.state to.old to.new }
{
    let input = match open_input(alloc, name, shelf)? {
        Ok(input) => input,
        Err(why) => return Ok(Err(why)),
    };
    let Input { mut disk, layout } = input;
    let appended = append_laid(alloc, &mut disk, layout, to, room, block);
    shelf.give(name, disk);
    appended
}

/// Puts the frames of the files of all names behind those of a file that is being made, whose head has this
/// room. Where the shelf tells its files, these were judged before, and nothing is refused; else each is judged
/// by what it is now.
pub(crate) fn append_all<'a, S: Shelf, E: Disk, M: Making>(
    alloc: Global,
    names: &Names<'a>,
    shelf: &mut S,
    to: &mut File<'_, E, M>,
    room: u64,
    block: &mut [i32],
) -> Result<Answer<'a>, Stop>
    requires are_in { All (λ n. (S.state shelf.old).out n ≡ false) names.now }
    requires at_end { IsAtEnd (known_of to.old) }
    requires room { room ≡ shape_room (known_of to.old).shape }
    requires places { length block.old ≡ 16384 }
    ensures to_loan { loan_of to.new ≡ loan_of to.old }
    ensures left { MadeUnlessFault (known_of to.old) (known_of to.new) result }
    ensures appended { AppendsAll S.state E.state names.now shelf.old to.old to.new result }
    ensures changed { StayGood S.state names.now shelf.old result }
    ensures faults { CountsFileAndShelf E.state S.state to.old to.new shelf.old shelf.new result }
    ensures reads { ReadsFiles S.Shelf shelf.old shelf.new }
    ensures tells { TellsOn E.state to.old to.new }
    ensures time { GoesOnFrom E.state E.left_between (disk_of to.old) (disk_of to.new) }
    ensures asked { AsksForEach 1 16384 S.state names.now shelf.old shelf.new }
    ensures unasked { AsksNothing E.state to.old to.new }
{
    numbers_of(to);
    for at in 0..names.len() {
        let Some(name) = names.get(at) else {
            unreachable!();
        };
        match append_input(alloc, name, shelf, to, room, block)? {
            Ok(()) => {}
            Err(why) => return Ok(Answer::Refused(name, why)),
        }
    }
    Ok(Answer::Made(M::given(to)))
}

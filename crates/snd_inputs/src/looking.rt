//! What stands under names.

ghost use Rattle.std.specs.Prelude.{◌≡◌, false, length};
ghost use Rattle.snd_output.specs.Ends.{CountsStop, IsUnchanged};
ghost use Rattle.snd_tools.specs.Shelves.{IsAllIn};
ghost use Rattle.snd_inputs.specs.Looking.{AllReadable, AsksToLook, ReadsFiles, SeenReadable, SeenWithin, Sees, SeesAll};

use crate::input::Input;
use crate::opening::open_input;
use snd_disk::{Shelf, ShelfFault};
use snd_layout::Layout;
use snd_lines::Refusal;
use snd_output::Stop;
use snd_words::Names;
use std::alloc::Global;

/// Looks at the file of a name, as a tool would read it: its layout, or why the tool refuses it, which is
/// `MissingFile` or why it is not opened. The shelf has it back, as it was. It asks at most 16384 bytes of it.
///
/// `Fault` where a call of the shelf or of the disk failed, and `Memory` where there is none.
pub fn look<S: Shelf>(
    alloc: Global,
    name: &str,
    shelf: &mut S,
) -> Result<Result<Layout, Refusal>, Stop>
    requires { (S.state shelf.old).out name.now ≡ false }
    ensures seen { Sees S.state name.now shelf.old result }
    ensures readable { SeenReadable result }
    ensures within { SeenWithin S.state name.now shelf.old result }
    ensures faults { CountsStop (S.state shelf.old).faults (S.state shelf.new).faults result }
    ensures unchanged { IsUnchanged result }
    ensures reads { ReadsFiles S.Shelf shelf.old shelf.new }
    ensures asked { AsksToLook 1 (S.state shelf.old) (S.state shelf.new) }
{
    let Input { disk, layout } = match open_input(alloc, name, shelf)? {
        Ok(input) => input,
        Err(why) => return Ok(Err(why)),
    };
    shelf.give(name, disk);
    Ok(Ok(layout))
}

/// The files that a tool reads.
#[derive(Drop)]
pub enum Inputs<'a> {
    /// The layouts of all, in their order.
    Sound(Vec<Layout>),
    /// The name of the first that is refused, and why.
    Refused(&'a str, Refusal),
}

/// Looks at the files of names, one after the other, up to the first that is refused, each as `look` does.
pub fn look_all<'a, S: Shelf>(
    alloc: Global,
    names: &Names<'a>,
    shelf: &mut S,
) -> Result<Inputs<'a>, Stop>
    requires { IsAllIn (S.state shelf.old) }
    ensures seen { SeesAll S.state names.now shelf.old result }
    ensures readable { AllReadable result }
    ensures faults { CountsStop (S.state shelf.old).faults (S.state shelf.new).faults result }
    ensures unchanged { IsUnchanged result }
    ensures reads { ReadsFiles S.Shelf shelf.old shelf.new }
    ensures asked { AsksToLook (length names.now) (S.state shelf.old) (S.state shelf.new) }
{
    let mut layouts = Vec::new(alloc);
    for at in 0..names.len() {
        let Some(name) = names.get(at) else {
            unreachable!();
        };
        let layout = match look(alloc, name, shelf)? {
            Ok(layout) => layout,
            Err(why) => return Ok(Inputs::Refused(name, why)),
        };
        let Ok(()) = layouts.push(layout) else {
            return Err(Stop::Memory);
        };
    }
    Ok(Inputs::Sound(layouts))
}

/// Sees that the file of a name may be taken out, or is missing. The shelf has it back, as it was, and nothing
/// is asked of it.
///
/// `Fault` where a call of the shelf failed, and `Memory` where there is none.
pub fn see<S: Shelf>(name: &str, shelf: &mut S) -> Result<(), Stop>
    requires { (S.state shelf.old).out name.now ≡ false }
    ensures faults { CountsStop (S.state shelf.old).faults (S.state shelf.new).faults result }
    ensures unchanged { IsUnchanged result }
    ensures reads { ReadsFiles S.Shelf shelf.old shelf.new }
    ensures unasked { (S.state shelf.new).asked ≡ (S.state shelf.old).asked }
{
    match shelf.take(name, false) {
        Ok(disk) => {
            shelf.give(name, disk);
            Ok(())
        }
        Err(ShelfFault::Missing) => Ok(()),
        Err(ShelfFault::Failed) => Err(Stop::Fault),
        Err(ShelfFault::Memory) => Err(Stop::Memory),
    }
}

ghost use Rattle.std.specs.Prelude.{◌≡◌, IfOk, map};
ghost use Rattle.snd_app.specs.Outcome.{files_after, outcome, pinned_for};
ghost use Rattle.snd_memory.specs.MemoryShelf.{shelf_state};
ghost use Rattle.snd_tools.specs.Shelves.{IsAllIn};
ghost use Rattle.snd_rows.specs.Memory.{one_file, HasTrail, IsPrinted};

use snd_app::run;
use snd_fields::Words;
use snd_memory::{MemoryDisk, MemoryShelf, MemorySink, MemorySource};
use snd_rack::Stage;
use snd_taps::Tap;
use std::alloc::{AllocError, Global};

/// What a run printed, the status that it answered, and the files that it left.
#[derive(Drop)]
pub struct Printed {
    pub out: Vec<u8>,
    pub err: Vec<u8>,
    pub status: u8,
    pub shelf: MemoryShelf,
}

/// How many bytes of the script come at a time.
const PIECE: usize = 4096;

/// Runs the words over a shelf with one file, with a script to come, and these taps and stages.
///
/// No call of the shelf and of the streams is told to fail, so they fail for want of memory alone: what ends
/// with status 3 is answered as what ends with 4.
pub fn run_in_memory(
    alloc: Global,
    words: &Words,
    name: &str,
    bytes: Vec<u8>,
    script: Vec<u8>,
    taps: Vec<Box<dyn Tap>>,
    stages: Vec<Box<dyn Stage>>,
) -> Result<Printed, AllocError>
    ensures printed { IfOk result (IsPrinted
        (outcome words.now (map (λ b. (meter b).kind) taps.items) (map (λ b. (stage b).kind) stages.items) (one_file name.now bytes.items) script.items)
        (files_after words.now (map (λ b. (meter b).kind) taps.items) (map (λ b. (stage b).kind) stages.items) (one_file name.now bytes.items) script.items)) }
    ensures trail { IfOk result (HasTrail (map (λ b. (meter b).kind) taps.items) (pinned_for words.now) name.now bytes.items script.items) }
    ensures all_in { IfOk result (λ p. IsAllIn (shelf_state p.shelf)) }
{
    let disk = MemoryDisk::new(alloc, bytes, Vec::new(alloc))?;
    let mut shelf = MemoryShelf::new(alloc);
    shelf.put(name, disk)?;
    let mut script = MemorySource::new(script, PIECE, Vec::new(alloc));
    let mut out = MemorySink::new(alloc, Vec::new(alloc));
    let mut err = MemorySink::new(alloc, Vec::new(alloc));
    let status = run(
        alloc,
        words,
        &mut shelf,
        &mut script,
        &mut out,
        &mut err,
        taps,
        stages,
    );
    if status >= 3 {
        return Err(AllocError);
    }
    Ok(Printed {
        out: out.bytes().to_vec(alloc)?,
        err: err.bytes().to_vec(alloc)?,
        status,
        shelf,
    })
}

/// Words of a command line.
pub fn words_of(alloc: Global, words: &[&str]) -> Result<Words, AllocError> {
    let mut list = Vec::new(alloc);
    for word in words {
        list.push(String::from_str(alloc, word)?)?;
    }
    Ok(Words::new(list))
}

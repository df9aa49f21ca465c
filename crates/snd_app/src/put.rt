//! Texts that are put to a stream, and the statuses that this may end with.

ghost use Rattle.snd_app.specs.Run.{PutsText};

use snd_disk::Sink;

pub(crate) const FAULT: u8 = 3;

pub(crate) const NO_MEMORY: u8 = 4;

/// Puts a text, and answers a status where all of it was appended.
pub(crate) fn put_text<O: Sink>(sink: &mut O, text: &[u8], status: u8) -> u8
    ensures { PutsText O.Sink status text.now sink.old sink.new result }
{
    match sink.put(text) {
        Ok(()) => status,
        Err(_) => FAULT,
    }
}

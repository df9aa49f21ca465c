ghost use Rattle.std.specs.Prelude.{◌≡◌, ◌≤◌, None, IfOk, length};

use snd_disk::{Failed, Sink, Source};
use std::io;

/// A reader as a source. It tells nothing of what is to come.
#[derive(Drop)]
pub struct ReaderSource<R: io::Read + Drop> {
    reader: R,
    faults: u64,
    given: u64,
}

impl<R: io::Read + Drop> ReaderSource<R> {
    pub fn new(reader: R) -> ReaderSource<R> {
        ReaderSource {
            reader,
            faults: 0,
            given: 0,
        }
    }
}

/// Reads what comes next, also after an interrupted call.
fn read_some<R: io::Read>(reader: &mut R, into: &mut [u8]) -> io::Result<usize>
    ensures { IfOk result (λ n. n ≤ length into.old) }
{
    for _ in 0..u64::MAX {
        match reader.read(into) {
            Err(error) if error.kind() == io::ErrorKind::Interrupted => {}
            answer => return answer,
        }
    }
    Err(io::ErrorKind::Interrupted.into())
}

impl<R: io::Read + Drop> Source for ReaderSource<R> {
    ghost left = { λ s. None };

    ghost faults = { λ s. s.faults };

    ghost given = { λ s. s.given };

    fn take(&mut self, into: &mut [u8]) -> Result<usize, Failed> {
        match read_some(&mut self.reader, into) {
            Ok(count) => {
                self.given = self.given.saturating_add(count as u64);
                Ok(count)
            }
            Err(_) => {
                self.faults = self.faults.saturating_add(1);
                Err(Failed)
            }
        }
    }
}

/// A writer as a sink. It tells nothing of what was appended. A writer that takes nothing of a piece
/// that is not empty is a fault.
#[derive(Drop)]
pub struct WriterSink<W: io::Write + Drop> {
    writer: W,
    faults: u64,
}

impl<W: io::Write + Drop> WriterSink<W> {
    pub fn new(writer: W) -> WriterSink<W> {
        WriterSink { writer, faults: 0 }
    }

    /// Writes all of the bytes, and keeps none of them back.
    fn write_through(&mut self, from: &[u8]) -> io::Result<()>
        ensures { self.new.faults ≡ self.old.faults }
    {
        self.writer.write_all(from)?;
        self.writer.flush()
    }
}

impl<W: io::Write + Drop> Sink for WriterSink<W> {
    ghost told = { λ s. None };

    ghost faults = { λ s. s.faults };

    fn put(&mut self, from: &[u8]) -> Result<(), Failed> {
        match self.write_through(from) {
            Ok(()) => Ok(()),
            Err(_) => {
                self.faults = self.faults.saturating_add(1);
                Err(Failed)
            }
        }
    }
}

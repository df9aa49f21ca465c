//! A chunk of a file.

ghost use Rattle.std.specs.Prelude.{◌≡◌, ◌+◌, ◌<◌, ◌^◌};

use snd_fields::Id4;

/// A chunk: its identifier, and where its body lies.
#[derive(Clone, Copy, Debug, PartialEq, Eq)]
pub struct Chunk {
    pub id: Id4,
    /// The place of the body's first byte.
    pub at: u64,
    /// How many bytes the body has.
    pub len: u64,
    /// The place where the next chunk begins.
    pub next: u64,
}

impl Chunk {
    /// The place of the body's end.
    pub fn end(&self) -> u64
        requires { self.now.at + self.now.len < 2 ^ 64 }
        ensures { result ≡ self.now.at + self.now.len }
    {
        self.at + self.len
    }
}

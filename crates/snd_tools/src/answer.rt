//! What a tool answers.

use snd_lines::Refusal;

/// What a tool has done.
#[derive(Clone, Copy, Debug, PartialEq, Eq)]
pub enum Answer<'a> {
    /// It made its file, with so many frames.
    Made(u64),
    /// It refused the file of a name, and changed none.
    Refused(&'a str, Refusal),
}

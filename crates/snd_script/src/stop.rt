//! How a run goes on, and why it stops.

/// Why no further line of a script is carried out.
#[derive(Clone, Copy, Debug, PartialEq, Eq)]
pub enum Stop {
    /// The script is at its end.
    Ended,
    /// No further line ends within the bytes that a script may have, and there are more.
    TooLong,
    /// The script failed.
    Script,
    /// The sink failed.
    Sink,
    /// The shelf or a disk failed.
    File,
    /// There was no memory.
    Memory,
}

/// Whether the open file stays open.
#[derive(Clone, Copy, Debug, PartialEq, Eq)]
pub enum Next {
    /// It does.
    Open,
    /// It is to be closed.
    Close,
}

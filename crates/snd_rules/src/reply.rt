//! How a command on an open file ends.

/// What a command is replied.
#[derive(Clone, Copy, Debug, PartialEq, Eq)]
pub enum Reply {
    /// It was carried out.
    Ok,
    /// It was refused, with this number.
    Refused(u8),
}

/// Why a command has no reply, or not all of it.
#[derive(Clone, Copy, Debug, PartialEq, Eq)]
pub enum StepFault {
    /// A call of the disk failed.
    Disk,
    /// The sink failed.
    Out,
    /// There was no memory.
    Memory,
}

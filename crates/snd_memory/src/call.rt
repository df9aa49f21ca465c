/// A call that changes what a disk holds, or what a crash may leave of it.
#[derive(Drop)]
pub enum Call {
    /// These bytes were to be put at a place.
    Write { at: u64, from: Vec<u8> },
    /// The disk was to be shortened to a length in bytes.
    Cut { len: u64 },
    /// The contents were to be made stable.
    Sync,
}

/// How a call of a disk in memory ended.
#[derive(Clone, Copy, Debug, PartialEq, Eq)]
pub enum End {
    Done,
    /// It failed. Of a write or a cut the sectors below this number were changed, and the rest were
    /// not; the length is the new one where all sectors were changed, else the old one.
    Broken { sectors: u64 },
}

/// A call that was made, and its end.
#[derive(Drop)]
pub struct Made {
    pub call: Call,
    pub end: End,
}

/// A call that is to fail.
#[derive(Clone, Copy, Debug, PartialEq, Eq)]
pub struct FailingCall {
    /// Which call of the disk, counted from 1.
    pub number: u64,
    /// How many sectors, from the first of the disk on, a write or a cut changes all the same.
    pub sectors: u64,
}

/// What is to be done to a file, beside a tape that has the bytes of all writes.
#[derive(Clone, Copy, Debug, PartialEq, Eq)]
pub enum Planned {
    /// The bytes that stand on the tape from `from` on are to be put at a place.
    Write { at: u64, from: usize, len: usize },
    /// The file is to be shortened to a length in bytes.
    Cut { len: u64 },
    /// What it holds is to be made stable.
    Sync,
}

//! A number that a line states.

/// A number that a line states.
#[derive(Clone, Copy, Debug, PartialEq, Eq)]
pub(crate) struct Stated {
    pub(crate) value: u64,
    /// The place of its first digit.
    pub(crate) at: u64,
    /// How many digits it has.
    pub(crate) size: u8,
}

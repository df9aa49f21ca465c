//! Where a line stands.

/// A line of a header.
#[derive(Clone, Copy, Debug, PartialEq, Eq)]
pub(crate) struct Line {
    /// The place of its first byte.
    pub(crate) at: usize,
    /// The place of the line feed behind it.
    pub(crate) end: usize,
}

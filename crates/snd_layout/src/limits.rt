//! The limits that all kinds of files share. They are this library's own rules.

/// No data byte from this place on counts, so that what closes a file always fits a disk, which has less
/// than 2^63 bytes.
pub const LAST_PLACE: u64 = (1 << 63) - 8;

/// The most bytes that a further chunk's body has which is given to a file, read into memory or carried
/// into another file.
pub const LONGEST_PIECE: u64 = 65536;

/// How many further chunks a file is given at most.
pub const MOST_PIECES: usize = 240;

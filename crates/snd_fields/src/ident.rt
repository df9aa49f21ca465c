//! The identifiers that name chunks and forms.

/// An identifier of four bytes, as RIFF and IFF files name their chunks with.
#[derive(Clone, Copy, Debug, PartialEq, Eq)]
pub struct Id4(pub [u8; 4]);

/// An identifier of sixteen bytes, as Wave64 files name their chunks with, and an extensible WAVE head
/// its kind of sample. The bytes stand as in the file.
#[derive(Clone, Copy, Debug, PartialEq, Eq)]
pub struct Guid(pub [u8; 16]);

//! What is written over the data of a file.

/// The numbers of frames, or the bytes of their samples.
#[derive(Clone, Copy)]
pub enum Given<'a> {
    Numbers(&'a [i32]),
    Bytes(&'a [u8]),
}

//! Why texts, fields and points are not given, and not set.

use snd_layout::PieceError;
use thiserror::Error;

/// Why a text, a field or points are not set.
#[derive(Clone, Copy, Debug, PartialEq, Eq, Error)]
pub enum SetError {
    /// The text is longer than its field, or, of an INFO list or a coding history, than 1024 bytes.
    #[error("the text is too long")]
    TextTooLong,
    /// The chunk is not put.
    #[error("{0}")]
    Put(PieceError),
}

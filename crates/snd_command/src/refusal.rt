//! Why a line is refused.

use thiserror::Error;

/// Why a line of a script is refused.
#[derive(Clone, Copy, Debug, PartialEq, Eq, Error)]
pub enum ScriptRefusal {
    /// The line has more than 4096 bytes.
    #[error("the line is too long")]
    LineTooLong,
    /// The line has the form of no command.
    #[error("the line is no command")]
    BadCommand,
}

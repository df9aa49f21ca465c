//! A format that was found.

use snd_layout::Params;

/// The parameters that a format states, and the place behind its body.
#[derive(Clone, Copy, Debug, PartialEq, Eq)]
pub struct Stated {
    pub params: Params,
    pub behind: u64,
}

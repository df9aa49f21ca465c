//! The bodies of the metadata chunks of WAVE files, read and written whole: the INFO list, cue points and
//! the broadcast extension.
#![tactic(auto)]

mod bext;
mod cue;
mod error;
mod field;
mod info;
mod text;

pub use bext::{Bext, BextKey};
pub use cue::{CueList, CuePoint};
pub use error::MetaError;
pub use field::field_bytes;
pub use info::{INFO_KEYS, InfoKey, InfoList};

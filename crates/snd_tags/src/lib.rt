//! The texts, the broadcast extension and the cue points of an open file: read in every mode, and set
//! in a file that is made, before its first frame. The texts are also read off a disk, by a layout.
#![tactic(auto)]

mod bodies;
mod error;
mod get;
mod info;
mod lists;
mod look;
mod set;
mod steps;

pub use error::SetError;
pub use get::{broadcast, points, texts};
pub use look::texts_on;
pub use set::{set_field, set_points, set_text, set_time};

//! What is left of a sound in a file whose head was never filled in, or is damaged: the first format that
//! is good, and the data behind it, found by their marks. Nothing here allocates.
#![tactic(auto)]

mod data;
mod format;
mod mark;
mod sound;
mod stated;

pub use data::find_data;
pub use format::find_format;
pub use mark::place_of;
pub use sound::find_sound;
pub use stated::Stated;

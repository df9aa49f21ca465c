//! Sound files copied with changed texts: the INFO list and the broadcast extension of WAVE and RF64 files.
#![tactic(auto)]

mod bodies;
mod chunks;
mod halt;
mod held;
mod make;
mod places;
mod planning;
mod retag;
mod settings;

pub use retag::set_metadata;

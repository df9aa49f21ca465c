//! Sound files put behind each other.
#![tactic(auto)]

mod append;
mod concatenating;
mod judge;
mod make;

pub use concatenating::concat;

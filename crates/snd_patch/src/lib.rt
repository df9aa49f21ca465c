//! The fields of a file brought up to a number of frames, in an order that a crash cannot hurt: the field
//! that decides the count and the others are never under way at the same time.
#![tactic(auto)]

mod fields;
pub mod laws;
mod steps;
mod update;

pub use fields::{data_end, put_closing};
pub use update::{cut_behind, grow, seal, shrink};

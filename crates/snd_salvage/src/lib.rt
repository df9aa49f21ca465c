//! Sound files made of what is left in files whose head was never filled in, or is damaged.
#![tactic(auto)]

mod make;
mod salvaging;

pub use salvaging::{Salvaging, salvage};

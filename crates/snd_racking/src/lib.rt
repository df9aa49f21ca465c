//! The frames of one file, through a rack of stages behind those of another. Nothing here takes memory.
#![tactic(auto)]

mod blocks;
mod bytes;
mod coding;
mod giving;
mod pieces;
mod range;

pub use blocks::append_racked;

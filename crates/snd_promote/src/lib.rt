//! WAVE files turned into RF64 in place, in an order that a crash cannot hurt.
#![tactic(auto)]

mod front;
mod promotion;
mod steps;

pub use promotion::promote;

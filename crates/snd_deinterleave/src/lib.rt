//! The channels of a sound file, each as a file of its own.
#![tactic(auto)]

mod channel;
mod deinterleaving;
mod make;
mod names;
mod outputs;

pub use deinterleaving::deinterleave;

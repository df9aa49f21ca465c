//! A large sound file that is made and edited, the same for each seed.
#![tactic(auto)]

mod editing;
mod generating;
mod making;
mod numbers;
mod summing;
mod writing;

pub use generating::{Summary, generate};

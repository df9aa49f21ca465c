//! The tools that make one sound file of others.
#![tactic(auto)]

mod answer;

pub use answer::Answer;

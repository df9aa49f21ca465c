//! What the program does with its words.
#![tactic(auto)]

mod help;
mod info;
mod look;
mod program;
mod put;
mod text;
mod tools;

pub use program::run;

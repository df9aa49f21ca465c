//! Sound files of one channel put side by side, as the channels of one file. Where all of them have one linear
//! codec of 16 bits, their samples pass as the bytes that they are; all others pass as numbers.
#![tactic(auto)]

mod blocks;
mod checking;
mod held;
mod interleaving;
mod judge;
mod make;
mod numbers;
mod pairs;

pub use interleaving::interleave;

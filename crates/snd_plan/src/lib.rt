//! A disk whose bytes somebody else moves. It notes what is to be done to a file, in its order, and
//! answers reads from what was read before; where that is not enough it says what it wants, the read
//! is a fault, and it is made again once those bytes were given.
#![tactic(auto)]

mod carry;
mod disk;
pub mod laws;
mod patch;
mod plan;
mod planned;
mod windows;

pub use carry::carry_out;
pub use disk::{PlanDisk, Wanted};
pub use planned::Planned;

//! Sound files copied into other containers and codecs.
#![tactic(auto)]

mod chunks;
mod converting;
mod make;
mod plan;
mod racks;

pub use converting::convert;
pub use plan::{Plan, plan_of};

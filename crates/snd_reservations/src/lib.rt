//! An open WAVE file that gets a reservation for 64-bit sizes, and that is promoted to RF64 by it: the states to
//! which these calls lead, what they answer, and the laws of a promotion. Nothing here names a handle.
#![tactic(auto)]

mod error;
pub mod laws;
mod laying;
mod place;

pub use error::{PromoteError, ReserveError};
pub use laying::lay_ruled;
pub use place::has_place;

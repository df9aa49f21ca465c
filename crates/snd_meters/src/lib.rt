//! The taps of a session: which of them wait, and which are on and see each frame that is read.
#![tactic(auto)]

mod laws;
mod meters;
mod slot;

pub use laws::at_most_one_is_on;
pub use meters::Meters;

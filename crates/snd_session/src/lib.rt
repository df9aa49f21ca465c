//! Commands on an open file, with exact replies: one session for any number of files, one after the other.
#![tactic(auto)]

mod asking;
mod carry;
mod change;
mod handle;
mod reading;
mod room;
mod session;
mod setting;
mod step;
mod tapping;

pub use handle::Handle;
pub use session::Session;

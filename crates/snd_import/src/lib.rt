//! Files of other forms made into sound files: samples without a head, PVF, and Dialogic VOX.
#![tactic(auto)]

mod codes;
mod filling;
mod importing;
mod input;
mod making;
mod plan;
mod source;

pub use importing::import;

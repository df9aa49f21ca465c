//! The further chunks of a WAVE or RF64 file that a copy of it carries.
#![tactic(auto)]

mod bodies;
mod carry;
mod choice;
mod laws;

pub use bodies::{carry_chunk, put_chunk};
pub use carry::carry_pieces;
pub use choice::{carried_size, is_carried};
pub use laws::bodies_fit;

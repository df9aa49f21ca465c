//! What a WAVE file with a reservation becomes as RF64, where the chunk `JUNK` at its front gives its place to
//! `ds64`: definitions on lists of bytes, and their laws.
#![tactic(auto)]

mod laws;

pub use laws::{promoted_files_read_back, promotion_leaves_one_of_two};

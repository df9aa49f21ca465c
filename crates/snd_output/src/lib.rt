//! What the tools stand on that make sound files: a file is begun, is given frames piece by piece from
//! other files, and is finished; and which bytes it then has, whole.
#![tactic(auto)]

mod blocks;
mod codec;
mod ends;
pub mod laws;
mod making;
mod pages;
mod samples;
mod steps;
mod stop;
mod widths;

pub use blocks::{append, numbers_of};
pub use codec::{codec_like, params_like};
pub use ends::finish;
pub use making::Making;
pub use pages::frames_first;
pub use samples::{give_passed, recode_into};
pub use steps::{read_some, read_some_bytes};
pub use stop::Stop;
pub use widths::{change_numbers, width_of};

//! Linear samples as bytes, both ways, and numbers of one width as numbers of another. Nothing here
//! allocates or is refused.
#![tactic(auto)]

mod blocks;
mod laws;
mod linear;
mod puts;
mod reads;
mod sample;
mod width;

pub use blocks::{in_range, put_samples, read_samples};
pub use laws::{
    read_samples_are_written_back, samples_stand_side_by_side, written_samples_read_back,
};
pub use linear::Linear;
pub use sample::{put_sample, read_sample};
pub use width::change_width;

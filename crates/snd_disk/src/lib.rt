//! The outside, as traits: disks and the shelves that hand them out, sources of bytes and sinks for
//! them. Each has a clause for what every call does, also where it fails, and a disk says what a
//! crash may leave. Those in memory stand in `snd_memory`, real files and streams in `snd_files`.
#![tactic(auto)]

mod disk;
mod filling;
pub mod laws;
mod shelf;
mod streams;
mod two_fields;

pub use disk::{Disk, Failed, Step};
pub use filling::fill;
pub use shelf::{Shelf, ShelfFault};
pub use streams::{Sink, Source};
pub use two_fields::patch_two;

//! The outside in memory: disks, a shelf of them, a source and a sink, which tell what they hold, and
//! of which each call can be told to fail; and all that a crash may leave of such a disk, as a list.
#![tactic(auto)]

mod call;
mod images;
mod memory;
mod memory_shelf;
mod memory_streams;
mod steady;

pub use call::{Call, End, FailingCall, Made};
pub use images::images_between;
pub use memory::MemoryDisk;
pub use memory_shelf::MemoryShelf;
pub use memory_streams::{FailingPut, MemorySink, MemorySource};
pub use steady::SteadyDisk;

//! The outside as the system has it: the regular files below the current folder, as a shelf of disks,
//! and readers and writers as sources and sinks. They tell nothing of what they hold.
#![tactic(auto)]

mod file;
mod folder;
mod regular_file;
mod std_streams;

pub use file::FileDisk;
pub use folder::FolderShelf;
pub use std_streams::{ReaderSource, WriterSink};

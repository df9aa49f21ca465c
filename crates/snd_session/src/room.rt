//! What is used again from command to command.

use arrayvec::ArrayVec;
use snd_rules::PAGE_BYTES;
use std::alloc::Global;

/// Room for samples, for the text of a reply, and what other memory is taken from.
#[derive(Drop)]
pub struct Room {
    pub(crate) alloc: Global,
    pub(crate) samples: Vec<i32>,
    pub(crate) page: ArrayVec<u8, PAGE_BYTES>,
}

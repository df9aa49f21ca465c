#![tactic(auto)]

mod chunk;
mod error;
mod fields;
mod format;
mod front;
mod head;
mod list;
mod parts;
mod put;
mod replacing;
mod walk;

pub use chunk::Chunk;
pub use error::WalkError;
pub use fields::{inner_field, side_field};
pub use format::read_format;
pub use front::{Ending, Front};
pub use head::head_at;
pub use list::ChunkList;
pub use parts::{Parts, has_id, parts_of};
pub use put::{put_chunk, put_pad};
pub use replacing::replace_from;
pub use walk::{walk_front, walk_tail};

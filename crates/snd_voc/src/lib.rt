//! Creative Voice files.
#![tactic(auto)]

mod blocks;
mod head;
mod laws;
mod layout;
mod reads;
mod sound;
mod values;

pub use head::lay_head;
pub use laws::keeps_laws;
pub use layout::open_layout;
pub use values::{closing_bytes, inner_bytes, room};

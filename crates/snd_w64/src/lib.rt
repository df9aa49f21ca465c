//! Sony Wave64 files.
#![tactic(auto)]

mod count;
mod head;
mod laws;
mod layout;
mod put;
mod reads;
mod seen;
mod start;
mod values;
mod walk;

pub use head::lay_head;
pub use laws::keeps_laws;
pub use layout::open_layout;
pub use start::start_with;
pub use values::{closing_bytes, inner_bytes, outer_bytes, room, side_bytes};

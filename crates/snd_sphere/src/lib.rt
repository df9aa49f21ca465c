//! The SPHERE files of NIST.
#![tactic(auto)]

mod head;
mod heading;
mod laws;
mod layout;
mod line;
mod lines;
mod put;
mod reads;
mod stated;
mod texts;
mod values;

pub use head::lay_head;
pub use laws::keeps_laws;
pub use layout::open_layout;
pub use values::{closing_bytes, inner_bytes, room};

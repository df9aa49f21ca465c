//! PVF, the portable voice format of vgetty: what the head of a file says, and the head that is written.
//! Nothing here allocates.
#![tactic(auto)]

mod head;
mod laws;
mod line;
mod text;

pub use head::{Head, read_head};
pub use laws::written_heads_read_back;
pub use text::head_text;

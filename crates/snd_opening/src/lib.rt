//! Sound files that are opened to be read or updated, and that are made: each gives a handle at its first frame, or the reason
//! and the disk.
#![tactic(auto)]

mod making;
mod open;
mod updating;

pub use making::{create, create_blocks};
pub use open::{open_laid, open_read};
pub use updating::open_update;

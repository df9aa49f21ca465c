//! Sun's and NeXT's AU files, in both byte orders.
#![tactic(auto)]

mod codecs;
mod head;
mod laws;
mod layout;
mod numbers;
mod values;

pub use head::lay_head;
pub use laws::keeps_laws;
pub use layout::open_layout;
pub use values::{closing_bytes, inner_bytes, room};

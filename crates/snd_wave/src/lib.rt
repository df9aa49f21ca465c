//! WAVE files.
#![tactic(auto)]

mod change;
mod changing;
mod closing;
mod ends;
mod head;
mod laws;
mod laying;
mod layout;
mod pieces;
mod plan;
mod reads;
mod reserve;
mod rest;
mod start;
mod values;

pub use change::change_head;
pub use changing::put_piece;
pub use closing::put_filler;
pub use head::{lay_head, lay_reserved};
pub use laws::{
    keeps_head_laws, keeps_laws, late_chunks_read_back, made_files_read_back,
    reserved_files_read_back,
};
pub use layout::open_layout;
pub use pieces::add_pieces;
pub use plan::{Plan, plan_piece};
pub use rest::Closing;
pub use start::{filled_start, start_with};
pub use values::{closing_bytes, inner_bytes, outer_bytes, outer_to, room, side_bytes};

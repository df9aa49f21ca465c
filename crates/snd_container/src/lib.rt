//! Sound files of every kind, by one call: which container a file is, what it says of itself, and how one
//! is made.
#![tactic(auto)]

mod fields;
mod fixed;
mod laws;
mod made;
mod new_room;
mod open;
mod pieces;
mod recognition;
mod size;

pub use fields::{closing_bytes, data_bytes, inner_bytes, outer_bytes, outer_to, room, side_bytes};
pub use fixed::{Fixed, fixed_form, in_range, put_samples, read_samples};
pub use laws::{
    keep_all_head_laws, keep_all_laws, late_chunks_read_back, written_samples_are_kept,
};
pub use made::{fit, lay_head, lay_reserved};
pub use new_room::room_with;
pub use open::open_layout;
pub use pieces::{add_piece, put_piece};
pub use recognition::recognise;
pub use size::chunk_size;

//! What a sound file says of itself: its kind, its parameters and its layout, and why it is refused.
//! Nothing here reads a file, nothing but `write_whole` and `lay_made` writes one, and nothing allocates
//! but the list of pieces.
#![tactic(auto)]

mod codec;
mod error;
mod field;
mod fit;
mod format;
mod kind;
mod laws;
mod laying;
mod layout;
mod limits;
mod made;
mod own;
mod params;
mod piece;
mod refusal;
mod written;

pub use codec::Codec;
pub use error::{OpenError, PieceError};
pub use field::{Field, one_sector};
pub use format::read_fmt;
pub use kind::Kind;
pub use laws::written_format_reads_back;
pub use laying::write_whole;
pub use layout::Layout;
pub use limits::{LAST_PLACE, LONGEST_PIECE, MOST_PIECES};
pub use made::lay_made;
pub use params::Params;
pub use piece::{Piece, PieceList};
pub use refusal::OpenRefusal;
pub use written::put_fmt;

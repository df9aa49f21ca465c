//! Numbers in the fields of a file's head, identifiers, bytes put behind one another, and the
//! words of a command line. Nothing here allocates.
#![tactic(auto)]

mod digits;
mod field;
mod ident;
mod laws;
mod put;
mod words;

pub use digits::decimal;
pub use field::{Order, put_u16, put_u24, put_u32, put_u64, u16_at, u24_at, u32_at, u64_at};
pub use ident::{Guid, Id4};
pub use laws::{number_is_of_its_field, read_bytes_are_written_back, written_number_reads_back};
pub use put::{put_all, put_long, put_number};
pub use words::Words;

//! The files that a tool reads, looked at or opened, and the file that it makes: how it is taken out, and what
//! it has room for.
#![tactic(auto)]

mod checking;
mod input;
mod looking;
mod opening;
mod output;
mod room;

pub use checking::{check_laid, first_bad, has_bad_block};
pub use input::Input;
pub use looking::{Inputs, look, look_all, see};
pub use opening::{close_read, open_input, params_of};
pub use output::take_output;
pub use room::{bare_room, exceeds_room, is_full};

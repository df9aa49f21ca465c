//! What a command of a script does to an editing state: its rule, its reply or its refusal, and its bounds.
//! No handle and no disk: definitions and laws on lists, and the code that puts replies as text.
#![tactic(auto)]

mod held;
mod hex;
mod laws;
mod page;
mod refusal;
mod replies;
mod reply;
mod say;
mod text;
mod work;

pub use held::held_refusal;
pub use hex::bytes_of_hex;
pub use laws::refused_commands_leave_the_taps;
pub use refusal::line_refusal;
pub use replies::{bext_text, body_text, chunks_text, points_text, texts_text};
pub use reply::{Reply, StepFault};
pub use say::{refuse, say_file, say_frames, say_ok, say_report, say_text};
pub use text::{PAGE_BYTES, put_file_line, put_ok, put_refusal};
pub use work::{Asking, Setting, Work, work_of};

//! Further chunks, texts, fields and cue points of a sound file as they are printed, gathered in a text, and refusals.
#![tactic(auto)]

mod chunks;
mod refusal;
mod texts;
mod words;

pub use chunks::{push_chunks, push_hex};
pub use refusal::Refusal;
pub use texts::{count_texts, push_bext, push_cues, push_texts};
pub use words::{is_printed, push_line, push_number, push_number_line};

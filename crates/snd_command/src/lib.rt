//! The commands of a script, each one line of text. Nothing here allocates.
#![tactic(auto)]

mod command;
mod forms;
mod frames;
mod line;
mod numbers;
mod opens;
mod refusal;
mod sets;
mod tables;
mod words;

pub use command::{Command, MOST_CUES, MOST_SAMPLES};
pub use forms::is_text;
pub use line::parse_line;
pub use numbers::NumberRoom;
pub use refusal::ScriptRefusal;
pub use tables::CodecWord;

//! Scripts of commands on sound files: one line each, with exact replies.
#![tactic(auto)]

mod closed;
mod open;
mod opened;
mod opening;
mod pinned;
mod reader;
mod run;
mod serving;
mod stop;

pub use serving::{ScriptEnd, serve};

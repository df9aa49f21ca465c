//! Stages, through which the frames of a sound pass one after the other, and racks of them as a command line says them.
//! Nothing here takes memory or fails.
#![tactic(auto)]

mod boxes;
mod copies;
mod fade;
mod gain;
mod invert;
mod laws;
mod parts;
mod passing;
mod pick;
mod samples;
mod setting;
mod spec;
mod stage;

pub use boxes::{choose, keep_width, start_all};
pub use fade::Fade;
pub use gain::Gain;
pub use invert::Invert;
pub use laws::stages_compose;
pub use passing::{Room, pass_frames, pass_in_place};
pub use pick::Pick;
pub use setting::{Setting, StageKind};
pub use spec::RackSpec;
pub use stage::Stage;

//! VOX: files without a head of Dialogic's ADPCM, which shares the step of IMA ADPCM.
#![tactic(auto)]

mod laws;
mod vox;

pub use laws::vox_calls_give_files;
pub use vox::{VoxReader, VoxWriter};

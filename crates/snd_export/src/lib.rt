//! Sound files made into files of other forms: samples without a head, PVF, and Dialogic VOX.
#![tactic(auto)]

mod blocks;
mod coding;
mod exporting;
mod make;
mod pairs;
mod target;

pub use exporting::export;

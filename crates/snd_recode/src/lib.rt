//! Samples of a codec with a fixed number of bytes for each, as those of another one. Pairs of codecs that files
//! often have get a loop of their own; those of all others go by their numbers. Nothing here allocates or is
//! refused.
#![tactic(auto)]

mod alaw;
mod mulaw;
mod pair;
mod recoding;
mod wider;

pub use recoding::{change_widths, recode};

//! The mu-law and the A-law of ITU-T G.711: one byte for each 16-bit sample.
#![tactic(auto)]

mod alaw;
mod mulaw;
mod segment;

pub use alaw::{alaw_decode, alaw_decode_all, alaw_encode, alaw_encode_all, alaw_round_trip};
pub use mulaw::{mulaw_decode, mulaw_decode_all, mulaw_encode, mulaw_encode_all, mulaw_round_trip};

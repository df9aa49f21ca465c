//! What a header says, without its count.

use crate::stated::Stated;
use snd_fields::Order;

/// How the samples are coded.
#[derive(Clone, Copy, Debug, PartialEq, Eq)]
pub(crate) enum Coding {
    /// Linear.
    Pcm,
    MuLaw,
    ALaw,
    /// In another way, which is not read.
    Other,
}

/// What the lines of a header say, where they are there.
#[derive(Clone, Copy, Debug, PartialEq, Eq)]
pub(crate) struct Heading {
    pub(crate) channels: Option<Stated>,
    pub(crate) rate: Option<Stated>,
    /// The bytes of a sample.
    pub(crate) width: Option<Stated>,
    /// Which byte of a sample comes first.
    pub(crate) order: Option<Order>,
    pub(crate) coding: Coding,
}

//! What a sound file says of itself.

ghost use Rattle.snd_layout.specs.Shape.{KeepsRule};

use crate::field::Field;
use crate::kind::Kind;
use crate::params::Params;
use crate::piece::PieceList;
use std::marker::Model;

/// What the head of a sound file says. Its kind holds its parameters; its fields have the sizes that
/// the kind gives them and end by `start`; in a Creative Voice file `start` is 5 or 15 bytes behind
/// `inner`; each piece ends below 2^63; the data of its frames end 8 bytes below that, and, where the
/// length is known, are at most what the head has room for or declares.
#[derive(Drop)]
pub struct Layout {
    pub kind: Kind,
    pub params: Params,
    /// The place of the first data byte.
    pub start: u64,
    /// How many frames the file holds.
    pub frames: u64,
    /// The length of the data in bytes that `inner` states, at most 2^63 - 1.
    pub declared: u64,
    /// The field that decides the count of the frames.
    pub inner: Field,
    /// The size of the whole, where the kind has one.
    pub outer: Option<Field>,
    /// A count that is kept up but not read, where there is one.
    pub side: Option<Field>,
    /// Whether the file goes on behind its data, so that the data do not grow or shrink.
    pub trailing: bool,
    /// Whether the head leaves the length open, so that the data end where the file does.
    pub unknown_length: bool,
    /// The size of the chunk that is reserved for 64-bit sizes, where there is one.
    pub reserve: Option<u32>,
    /// The further chunks, in the file's order.
    pub pieces: PieceList,
}

impl Model for Layout {
    ghost use Rattle.snd_layout.specs.Shape.{KeepsRule, Shape};

    ghost Value = { Shape };

    ghost view = { λ l. record { kind = l.kind; params = l.params; start = l.start; frames = l.frames; declared = l.declared; inner = l.inner; outer = l.outer; side = l.side; trailing = l.trailing; unknown_length = l.unknown_length; reserve = l.reserve; pieces = l.pieces } };

    ghost invariant = { λ l. KeepsRule (record { kind = l.kind; params = l.params; start = l.start; frames = l.frames; declared = l.declared; inner = l.inner; outer = l.outer; side = l.side; trailing = l.trailing; unknown_length = l.unknown_length; reserve = l.reserve; pieces = l.pieces }) };
}

impl Layout {
    /// What holds of every layout.
    pub fn keeps_rule(&self)
        ensures { KeepsRule self.now }
    {
        let _ = &self.start;
    }
}

//! The chunks of a file that are kept as they are.

ghost use Rattle.std.specs.Prelude.{◌≡◌, ◌↔◌, [], ◌∷◌, ◌++◌, IsTrue, OnOk, OnErr, length, slice_get};

use snd_fields::Id4;
use std::alloc::{AllocError, Global};
use std::marker::Model;

/// A chunk that a file keeps beside its sound.
#[derive(Clone, Copy, Debug, PartialEq, Eq)]
pub struct Piece {
    pub id: Id4,
    /// The place of the body's first byte.
    pub at: u64,
    /// How many bytes the body has.
    pub len: u64,
    /// Whether it stands behind the data.
    pub after: bool,
}

/// The pieces of a file, in the file's order. Contracts see a list of pieces.
#[derive(Drop)]
pub struct PieceList {
    list: Vec<Piece>,
}

impl Model for PieceList {
    ghost use Rattle.std.specs.Prelude.{List};
    ghost use Rattle.snd_layout.specs.declared.piece.Piece.{Piece};

    ghost Value = { List Piece };

    ghost view = { λ p. p.list.items };
}

impl PieceList {
    /// No piece.
    pub fn new(alloc: Global) -> PieceList
        ensures { result ≡ [] }
    {
        PieceList {
            list: Vec::new(alloc),
        }
    }

    /// What the list takes its memory from.
    pub fn allocator(&self) -> Global {
        *self.list.allocator()
    }

    /// How many pieces there are.
    pub fn len(&self) -> usize
        ensures { result ≡ length self.now }
    {
        self.list.len()
    }

    /// Whether there is no piece.
    pub fn is_empty(&self) -> bool
        ensures { IsTrue result ↔ (self.now ≡ []) }
    {
        self.list.is_empty()
    }

    /// The piece at a place, counted from 0: none from the length on.
    pub fn get(&self, at: usize) -> Option<Piece>
        ensures { result ≡ slice_get self.now at }
    {
        self.list.get(at).copied()
    }

    /// The pieces as a slice.
    pub fn as_slice(&self) -> &[Piece]
        ensures { result.now ≡ self.now }
    {
        self.list.as_slice()
    }

    /// Adds a piece behind the others. Where there is no memory the list stays as it was.
    pub fn push(&mut self, piece: Piece) -> Result<(), AllocError>
        ensures added { OnOk result (self.new ≡ self.old ++ piece ∷ []) }
        ensures same { OnErr result (self.new ≡ self.old) }
    {
        self.list.push(piece)?;
        Ok(())
    }
}

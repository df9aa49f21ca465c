//! The words of a command line.

ghost use Rattle.std.specs.Prelude.{◌≡◌, ◌↔◌, [], IsTrue, length, map, option_map, slice_get};
ghost use Rattle.std.specs.String.{string_bytes};

use std::marker::Model;

/// The words that a program was called with, without the program's own name. Contracts see a list of
/// texts.
#[derive(Drop)]
pub struct Words {
    list: Vec<String>,
}

impl Model for Words {
    ghost use Rattle.std.specs.Prelude.{ℕ, List, map};
    ghost use Rattle.std.specs.String.{string_bytes};

    ghost Value = { List (List ℕ) };

    ghost view = { λ w. map string_bytes w.list.items };
}

impl Words {
    /// The words of a list, in its order.
    pub fn new(list: Vec<String>) -> Words
        ensures { result ≡ map string_bytes list.items }
    {
        Words { list }
    }

    /// How many words there are.
    pub fn len(&self) -> usize
        ensures { result ≡ length self.now }
    {
        self.list.len()
    }

    /// Whether there is no word.
    pub fn is_empty(&self) -> bool
        ensures { IsTrue result ↔ (self.now ≡ []) }
    {
        self.list.is_empty()
    }

    /// The word at a place, counted from 0: none from the length on.
    pub fn get(&self, at: usize) -> Option<&str>
        ensures { option_map (λ word. word.now) result ≡ slice_get self.now at }
    {
        if at < self.list.len() {
            return Some(self.list[at].as_str());
        }
        None
    }
}

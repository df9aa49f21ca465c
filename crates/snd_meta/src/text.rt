//! Texts, which end at their first 0.

ghost use Rattle.std.specs.Prelude.{◌≡◌, ◌≤◌, ◌==◌, [], length, position, IfOk};
ghost use Rattle.snd_meta.specs.Text.{text_of};

use arrayvec::ArrayVec;
use std::alloc::{AllocError, Global};

/// A text that a draft keeps: no byte of it is 0.
#[derive(Drop)]
pub(crate) struct Text {
    pub(crate) bytes: Vec<u8>,
    ghost no_zero: { text_of bytes.items ≡ bytes.items },
    ghost short: { length bytes.items ≤ 65536 },
}

impl Text {
    pub(crate) fn new(alloc: Global, bytes: &[u8]) -> Result<Text, AllocError>
        requires no_zero { text_of bytes.now ≡ bytes.now }
        requires short { length bytes.now ≤ 65536 }
        ensures { IfOk result (λ text. text.bytes.items ≡ bytes.now) }
    {
        Ok(Text {
            bytes: Vec::from_slice(alloc, bytes)?,
        })
    }

    /// The bytes before the first 0, or all where there is none.
    #[tactic(auto, using(crate::proofs::Texts::text_whole, crate::proofs::Texts::text_short))]
    pub(crate) fn until_zero(alloc: Global, bytes: &[u8]) -> Result<Text, AllocError>
        requires { length bytes.now ≤ 65536 }
        ensures { IfOk result (λ text. text.bytes.items ≡ text_of bytes.now) }
    {
        Text::new(alloc, until_zero(bytes))
    }

    pub(crate) fn empty(alloc: Global) -> Text
        ensures { result.bytes.items ≡ [] }
    {
        Text {
            bytes: Vec::new(alloc),
        }
    }
}

impl Clone for Text {
    ghost is_clone = { λ text copy. copy.bytes.items ≡ text.bytes.items };

    fn clone(&self) -> Result<Text, AllocError> {
        Ok(Text {
            bytes: Vec::from_slice(*self.bytes.allocator(), self.bytes.as_slice())?,
        })
    }
}

/// A text in a field of `N` bytes: no byte of it is 0.
#[derive(Drop)]
pub(crate) struct FieldText<const N: usize> {
    pub(crate) bytes: ArrayVec<u8, N>,
    ghost no_zero: { text_of bytes.items ≡ bytes.items },
    ghost fits: { length bytes.items ≤ N },
}

impl<const N: usize> FieldText<N> {
    pub(crate) fn new(text: &[u8]) -> FieldText<N>
        requires no_zero { text_of text.now ≡ text.now }
        requires fits { length text.now ≤ N }
        ensures { result.bytes.items ≡ text.now }
    {
        let mut bytes = ArrayVec::new();
        bytes.try_extend_from_slice(text).unwrap();
        FieldText { bytes }
    }

    /// The bytes before the first 0, or all where there is none.
    #[tactic(auto, using(crate::proofs::Texts::text_whole, crate::proofs::Texts::text_short))]
    pub(crate) fn until_zero(bytes: &[u8]) -> FieldText<N>
        requires { length bytes.now ≤ N }
        ensures { result.bytes.items ≡ text_of bytes.now }
    {
        FieldText::new(until_zero(bytes))
    }

    pub(crate) fn copy(&self) -> FieldText<N>
        ensures { result.bytes.items ≡ self.now.bytes.items }
    {
        FieldText::new(self.bytes.as_slice())
    }
}

/// The place of the first 0.
fn first_zero(bytes: &[u8]) -> Option<usize>
    ensures { result ≡ position (λ b. b == 0) bytes.now }
{
    bytes.iter().position(|b| *b == 0)
}

/// The bytes before the first 0, or all where there is none.
pub(crate) fn until_zero(bytes: &[u8]) -> &[u8]
    ensures { result.now ≡ text_of bytes.now }
{
    match first_zero(bytes) {
        Some(end) => &bytes[..end],
        None => bytes,
    }
}

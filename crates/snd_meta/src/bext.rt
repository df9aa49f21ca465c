//! The broadcast extension.

ghost use Rattle.std.specs.Prelude.{◌≡◌, ◌≢◌, ◌⊎◌, ◌↔◌, ◌+◌, ◌*◌, ◌^◌, ◌<◌, ◌≤◌, ◌++◌, length, take, drop, All, Some, None, IfOk, OnOk, IfErr, OnErr, IsErrOf};
ghost use Rattle.snd_meta.specs.Text.{text_of, padded};
ghost use Rattle.snd_meta.specs.Broadcast.{field_place, field_size};

use crate::error::MetaError;
use crate::text::{FieldText, Text};
use snd_fields::{Order, u16_at, u64_at};
use std::alloc::{AllocError, Global};
use std::marker::Model;

/// A field of the broadcast extension.
#[derive(Clone, Copy, Debug, PartialEq, Eq)]
pub enum BextKey {
    Description,
    Originator,
    OrigRef,
    OrigDate,
    OrigTime,
    TimeRef,
    CodingHist,
}

impl BextKey {
    /// Where the field begins in a body, in bytes.
    pub fn place(self) -> usize
        ensures { result ≡ field_place self }
    {
        match self {
            BextKey::Description => 0,
            BextKey::Originator => 256,
            BextKey::OrigRef => 288,
            BextKey::OrigDate => 320,
            BextKey::OrigTime => 330,
            BextKey::TimeRef => 338,
            BextKey::CodingHist => 602,
        }
    }

    /// How many bytes the field has; of the coding history, how many may be set.
    pub fn size(self) -> usize
        ensures { result ≡ field_size self }
    {
        match self {
            BextKey::Description => 256,
            BextKey::Originator => 32,
            BextKey::OrigRef => 32,
            BextKey::OrigDate => 10,
            BextKey::OrigTime => 8,
            BextKey::TimeRef => 8,
            BextKey::CodingHist => 1024,
        }
    }
}

/// A broadcast extension. Contracts see its fields. The version, the UMID and the bytes after it stay as they
/// were read.
#[derive(Drop)]
pub struct Bext {
    alloc: Global,
    description: FieldText<256>,
    originator: FieldText<32>,
    reference: FieldText<32>,
    date: FieldText<10>,
    time: FieldText<8>,
    time_reference: u64,
    version: u16,
    umid: [u8; 64],
    further: [u8; 190],
    history: Text,
}

impl Model for Bext {
    ghost use Rattle.snd_meta.specs.Broadcast.{Broadcast, IsBroadcast};

    ghost Value = { Broadcast };

    ghost use Rattle.snd_meta.specs.Fields.{broadcast_in};

    ghost view = { broadcast_in };

    ghost invariant = { λ s. IsBroadcast (broadcast_in s) };
}

/// The text in the field of `N` bytes at a place.
fn field_at<const N: usize>(body: &[u8], at: usize) -> FieldText<N>
    requires { at + N ≤ length body.now }
    ensures { result.bytes.items ≡ text_of (take N (drop at body.now)) }
{
    FieldText::until_zero(&body[at..at + N])
}

/// The `N` bytes at a place.
fn bytes_at<const N: usize>(body: &[u8], at: usize) -> [u8; N]
    requires { at + N ≤ length body.now }
    ensures { result ≡ take N (drop at body.now) }
{
    let mut bytes = [0; N];
    bytes.copy_from_slice(&body[at..at + N]);
    bytes
}

/// Appends a text and zeros behind it, up to the size of its field.
fn push_padded(body: &mut Vec<u8>, size: usize, text: &[u8]) -> Result<(), AllocError>
    requires fits { length text.now ≤ size }
    requires small { size ≤ 256 }
    ensures { OnOk result (body.new.items ≡ body.old.items ++ padded size text.now) }
{
    body.extend_from_slice(text)?;
    body.resize(body.len() + (size - text.len()), 0)?;
    Ok(())
}

impl Bext {
    ghost use Rattle.snd_meta.specs.Broadcast.{text_parts, other_parts, blank, bext_of, bext_body, bext_text, with_bext_text};

    /// An empty draft: version 1, and zeros elsewhere.
    pub fn new(alloc: Global) -> Bext
        ensures { result ≡ blank }
    {
        Bext {
            alloc,
            description: FieldText::new(&[]),
            originator: FieldText::new(&[]),
            reference: FieldText::new(&[]),
            date: FieldText::new(&[]),
            time: FieldText::new(&[]),
            time_reference: 0,
            version: 1,
            umid: [0; 64],
            further: [0; 190],
            history: Text::empty(alloc),
        }
    }

    /// What a body says. A text ends at its first 0.
    ///
    /// # Errors
    ///
    /// `BadBext` exactly where the body has fewer than 602 bytes; `Memory`.
    #[tactic(auto, unfolding(crate::specs::Broadcast::bext_of))]
    pub fn read(alloc: Global, body: &[u8]) -> Result<Bext, MetaError>
        requires { length body.now ≤ 65536 }
        ensures read { IfOk result (λ draft. bext_of body.now ≡ Some draft) }
        // A draft that is not changed is written with the texts that the body had.
        ensures again { IfOk result (λ draft. bext_of (bext_body draft) ≡ bext_of body.now) }
        ensures bad { IsErrOf result MetaError.BadBext ↔ (length body.now < 602) }
        ensures only { IfErr result (λ e. (e ≡ MetaError.BadBext) ⊎ (e ≡ MetaError.Memory)) }
    {
        if body.len() < 602 {
            return Err(MetaError::BadBext);
        }
        Ok(Bext {
            alloc,
            description: field_at(body, BextKey::Description.place()),
            originator: field_at(body, BextKey::Originator.place()),
            reference: field_at(body, BextKey::OrigRef.place()),
            date: field_at(body, BextKey::OrigDate.place()),
            time: field_at(body, BextKey::OrigTime.place()),
            time_reference: u64_at(body, BextKey::TimeRef.place(), Order::Little),
            version: u16_at(body, 346, Order::Little),
            umid: bytes_at(body, 348),
            further: bytes_at(body, 412),
            history: Text::until_zero(alloc, &body[602..])?,
        })
    }

    /// The text of a key, which has no 0. The time reference is a number: `time` gives it.
    pub fn text(&self, key: BextKey) -> &[u8]
        requires { key ≢ BextKey.TimeRef }
        ensures { result.now ≡ bext_text key self.now }
    {
        match key {
            BextKey::Description => self.description.bytes.as_slice(),
            BextKey::Originator => self.originator.bytes.as_slice(),
            BextKey::OrigRef => self.reference.bytes.as_slice(),
            BextKey::OrigDate => self.date.bytes.as_slice(),
            BextKey::OrigTime => self.time.bytes.as_slice(),
            BextKey::TimeRef => unreachable!(),
            BextKey::CodingHist => self.history.bytes.as_slice(),
        }
    }

    /// The first sample's place since midnight, in samples.
    pub fn time(&self) -> u64
        ensures { result ≡ self.now.time_reference }
    {
        self.time_reference
    }

    /// Puts a text under a key. After an error the draft is as before.
    ///
    /// # Errors
    ///
    /// `TextTooLong` exactly where the text exceeds its field, or a coding history 1024 bytes; `Memory`.
    #[tactic(auto, using(crate::proofs::Texts::whole_text))]
    pub fn set(&mut self, key: BextKey, text: &[u8]) -> Result<(), MetaError>
        requires is_text { key ≢ BextKey.TimeRef }
        requires no_zero { All (λ b. b ≢ 0) text.now }
        ensures set { OnOk result (self.new ≡ with_bext_text key text.now self.old) }
        ensures too_long { IsErrOf result MetaError.TextTooLong ↔ (field_size key < length text.now) }
        ensures only { IfErr result (λ e. (e ≡ MetaError.TextTooLong) ⊎ (e ≡ MetaError.Memory)) }
        ensures same { OnErr result (self.new ≡ self.old) }
    {
        if text.len() > key.size() {
            return Err(MetaError::TextTooLong);
        }
        match key {
            BextKey::Description => self.description = FieldText::new(text),
            BextKey::Originator => self.originator = FieldText::new(text),
            BextKey::OrigRef => self.reference = FieldText::new(text),
            BextKey::OrigDate => self.date = FieldText::new(text),
            BextKey::OrigTime => self.time = FieldText::new(text),
            BextKey::TimeRef => unreachable!(),
            BextKey::CodingHist => self.history = Text::new(self.alloc, text)?,
        }
        Ok(())
    }

    /// Sets the first sample's place since midnight, in samples.
    pub fn set_time(&mut self, value: u64)
        ensures { self.new ≡ record self.old { time_reference = value } }
    {
        self.time_reference = value;
    }

    /// An equal draft.
    ///
    /// # Errors
    ///
    /// `Memory`.
    pub fn duplicate(&self, alloc: Global) -> Result<Bext, MetaError>
        ensures equal { IfOk result (λ copy. copy ≡ self.now) }
        ensures only { IfErr result (λ e. e ≡ MetaError.Memory) }
    {
        Ok(Bext {
            alloc,
            description: self.description.copy(),
            originator: self.originator.copy(),
            reference: self.reference.copy(),
            date: self.date.copy(),
            time: self.time.copy(),
            time_reference: self.time_reference,
            version: self.version,
            umid: self.umid,
            further: self.further,
            history: self.history.clone()?,
        })
    }

    /// Appends the five texts of fixed size.
    fn push_texts(&self, body: &mut Vec<u8>) -> Result<(), AllocError>
        ensures { OnOk result (body.new.items ≡ body.old.items ++ text_parts self.now) }
    {
        push_padded(body, 256, self.description.bytes.as_slice())?;
        push_padded(body, 32, self.originator.bytes.as_slice())?;
        push_padded(body, 32, self.reference.bytes.as_slice())?;
        push_padded(body, 10, self.date.bytes.as_slice())?;
        push_padded(body, 8, self.time.bytes.as_slice())?;
        Ok(())
    }

    /// Appends what follows the five texts.
    fn push_others(&self, body: &mut Vec<u8>) -> Result<(), AllocError>
        ensures { OnOk result (body.new.items ≡ body.old.items ++ other_parts self.now) }
    {
        body.extend_from_slice(&self.time_reference.to_le_bytes())?;
        body.extend_from_slice(&self.version.to_le_bytes())?;
        body.extend_from_slice(&self.umid)?;
        body.extend_from_slice(&self.further)?;
        body.extend_from_slice(&self.history.bytes)?;
        Ok(())
    }

    /// The body that says this.
    #[tactic(auto, unfolding(crate::specs::Broadcast::bext_body))]
    fn body(&self) -> Result<Vec<u8>, AllocError>
        ensures written { IfOk result (λ body. body.items ≡ bext_body self.now) }
        ensures again { OnOk result (bext_of (bext_body self.now) ≡ Some self.now) }
    {
        let mut body = Vec::new(self.alloc);
        self.push_texts(&mut body)?;
        self.push_others(&mut body)?;
        Ok(body)
    }

    /// Appends the body that says this; no 0 ends the coding history. After an error `into` is as before.
    ///
    /// # Errors
    ///
    /// `Memory`.
    pub fn put(&self, into: &mut Vec<u8>) -> Result<(), MetaError>
        ensures written { OnOk result (into.new.items ≡ into.old.items ++ bext_body self.now) }
        // What is written is read again as the same draft.
        ensures again { OnOk result (bext_of (bext_body self.now) ≡ Some self.now) }
        ensures only { IfErr result (λ e. e ≡ MetaError.Memory) }
        ensures same { OnErr result (into.new.items ≡ into.old.items) }
    {
        let body = self.body()?;
        into.extend_from_slice(&body)?;
        Ok(())
    }
}

//! The INFO list.

ghost use Rattle.std.specs.Prelude.{◌≡◌, ◌≢◌, ◌⊎◌, ◌↔◌, ◌+◌, ◌<◌, ◌≤◌, ◌%◌, List, [], ◌∷◌, ◌++◌, length, take, drop, All, Some, None, IfOk, OnOk, IfErr, OnErr, IsErrOf, IfNone, IfSome, option_map};
ghost use Rattle.std.specs.Option.{option_copied};
ghost use Rattle.snd_meta.specs.Text.{text_of};
ghost use Rattle.snd_meta.specs.Info.{place_of, id_of, key_of, text_under, with_text, with_item, completed, items_of, info_of, info_body, size_of, text_bytes, IsInfo, IsItemAt};

use crate::error::MetaError;
use crate::text::{Text, until_zero};
use snd_fields::{Order, u32_at};
use std::alloc::{AllocError, Global};
use std::marker::Model;

/// What a text of an INFO list is about. The order is that in which texts are written.
#[derive(Clone, Copy, Debug, PartialEq, Eq)]
pub enum InfoKey {
    Title,
    Copyright,
    Software,
    Artist,
    Comment,
    Date,
    Album,
    Genre,
    Track,
}

/// Every key, in the order in which texts are written.
pub const INFO_KEYS: [InfoKey; 9] = [
    InfoKey::Title,
    InfoKey::Copyright,
    InfoKey::Software,
    InfoKey::Artist,
    InfoKey::Comment,
    InfoKey::Date,
    InfoKey::Album,
    InfoKey::Genre,
    InfoKey::Track,
];

impl InfoKey {
    /// The place of the key among all keys.
    fn place(self) -> usize
        ensures value { result ≡ place_of self }
        ensures within { result < 9 }
    {
        self as usize
    }

    /// The key whose text stands under an id, if it is a known one.
    #[tactic(auto, unfolding(crate::specs::Info::key_of))]
    fn from_id(id: &[u8]) -> Option<InfoKey>
        ensures { result ≡ key_of id.now }
    {
        INFO_KEYS
            .iter()
            .copied()
            .find(|key| id == key.id().as_slice())
    }

    /// The id under which a text stands in a file.
    fn id(self) -> [u8; 4]
        ensures { result ≡ id_of self }
    {
        match self {
            InfoKey::Title => *b"INAM",
            InfoKey::Copyright => *b"ICOP",
            InfoKey::Software => *b"ISFT",
            InfoKey::Artist => *b"IART",
            InfoKey::Comment => *b"ICMT",
            InfoKey::Date => *b"ICRD",
            InfoKey::Album => *b"IPRD",
            InfoKey::Genre => *b"IGNR",
            InfoKey::Track => *b"ITRK",
        }
    }
}

/// The texts of an INFO list, at most one for each key. Contracts see a list of keys and texts, in the
/// order of the keys.
#[derive(Drop)]
pub struct InfoList {
    alloc: Global,
    texts: [Option<Text>; 9],
}

impl Model for InfoList {
    ghost use Rattle.std.specs.Prelude.{◌≡◌, List, length};
    ghost use Rattle.snd_meta.specs.Info.{Entry, listed};

    ghost Value = { List Entry };

    ghost use Rattle.snd_meta.specs.Slots.{text_in};

    ghost view = { λ s. listed (text_in s.texts) };

    ghost invariant = { λ s. length s.texts ≡ 9 };
}

/// One text as it stands in a body.
#[derive(Clone, Copy)]
struct Item<'a> {
    id: &'a [u8],
    text: &'a [u8],
}

/// The item at the front, and what follows it: none where its text runs past the end.
fn item_at(bytes: &[u8]) -> Option<(Item<'_>, &[u8])>
    requires { 8 ≤ length bytes.now }
    ensures cut { IfNone result (length bytes.now < 8 + size_of bytes.now) }
    ensures item { IfSome result (λ f. IsItemAt bytes.now f.0.id.now f.0.text.now f.1.now) }
{
    let size = u32_at(bytes, 4, Order::Little) as usize;
    let (head, rest) = bytes.split_at(8);
    if rest.len() < size {
        return None;
    }
    let (text, rest) = rest.split_at(size);
    let pad = (size % 2).min(rest.len());
    let item = Item {
        id: &head[..4],
        text: until_zero(text),
    };
    Some((item, &rest[pad..]))
}

/// The texts of the items of a body.
fn read_items(alloc: Global, items: &[u8]) -> Result<InfoList, MetaError>
    requires { length items.now ≤ 65536 }
    ensures read { IfOk result (λ list. option_map (completed []) (items_of items.now) ≡ Some list) }
    ensures info { IfOk result (λ list. IsInfo list) }
    ensures bad { IsErrOf result MetaError.BadInfo → items_of items.now ≡ None }
    ensures only { IfErr result (λ e. (e ≡ MetaError.BadInfo) ⊎ (e ≡ MetaError.Memory)) }
{
    let mut list = InfoList::new(alloc);
    let mut rest = items;
    while rest.len() >= 8 {
        let Some((item, later)) = item_at(rest) else {
            return Err(MetaError::BadInfo);
        };
        list.complete(&item)?;
        rest = later;
    }
    Ok(list)
}

/// Appends a text as it stands in a body: its id, its size, the text and a 0, and a pad byte after an odd size.
fn push_item(body: &mut Vec<u8>, key: InfoKey, text: &[u8]) -> Result<(), AllocError>
    requires { length text.now ≤ 65536 }
    ensures { OnOk result (body.new.items ≡ body.old.items ++ text_bytes key text.now) }
{
    let size = text.len() + 1;
    body.extend_from_slice(&key.id())?;
    body.extend_from_slice(&(size as u32).to_le_bytes())?;
    body.extend_from_slice(text)?;
    body.extend_from_slice(&[0, 0][..1 + size % 2])?;
    Ok(())
}

impl InfoList {
    /// An empty draft.
    pub fn new(alloc: Global) -> InfoList
        ensures { result ≡ [] }
    {
        InfoList {
            alloc,
            texts: [None, None, None, None, None, None, None, None, None],
        }
    }

    /// The texts of a body that begins with `INFO`. A text ends at its first 0 or at its size, of a repeated
    /// id the first counts, and unknown ids are passed over, as are fewer than eight bytes at the end.
    ///
    /// # Errors
    ///
    /// `BadInfo` exactly where the body does not begin with `INFO` or a text runs past its end; `Memory`.
    #[tactic(auto, unfolding(crate::specs::Info::info_of))]
    pub fn read(alloc: Global, body: &[u8]) -> Result<InfoList, MetaError>
        requires { length body.now ≤ 65536 }
        ensures read { IfOk result (λ list. info_of body.now ≡ Some list) }
        // A list that is not changed is written with the texts that the body had.
        ensures again { IfOk result (λ list. info_of (info_body list) ≡ info_of body.now) }
        ensures bad { IsErrOf result MetaError.BadInfo → info_of body.now ≡ None }
        ensures only { IfErr result (λ e. (e ≡ MetaError.BadInfo) ⊎ (e ≡ MetaError.Memory)) }
    {
        if !body.starts_with(b"INFO") {
            return Err(MetaError::BadInfo);
        }
        read_items(alloc, &body[4..])
    }

    /// The text at the place of a key.
    fn held(&self, key: InfoKey) -> Option<&Text>
        ensures value { option_map (λ text. text.now.bytes.items) result ≡ text_under key self.now }
        ensures info { IsInfo self.now }
    {
        self.texts[key.place()].as_ref()
    }

    /// The text of a key: none exactly where the list holds none. No byte of it is 0.
    pub fn text(&self, key: InfoKey) -> Option<&[u8]>
        ensures value { option_copied result ≡ text_under key self.now }
        ensures info { IsInfo self.now }
    {
        match self.held(key) {
            Some(text) => Some(text.bytes.as_slice()),
            None => None,
        }
    }

    /// Puts a text under its key.
    fn keep(&mut self, key: InfoKey, text: &[u8]) -> Result<(), AllocError>
        requires no_zero { text_of text.now ≡ text.now }
        requires short { length text.now ≤ 65536 }
        ensures kept { OnOk result (self.new ≡ with_text key text.now self.old) }
        ensures info { OnOk result (IsInfo self.new) }
        ensures same { OnErr result (self.new ≡ self.old) }
    {
        let text = Text::new(self.alloc, text)?;
        self.texts[key.place()] = Some(text);
        Ok(())
    }

    /// Keeps the text of an item, if its id is known and its key has no text yet.
    fn complete(&mut self, item: &Item<'_>) -> Result<(), AllocError>
        requires no_zero { text_of item.now.text.now ≡ item.now.text.now }
        requires short { length item.now.text.now ≤ 65536 }
        ensures kept { OnOk result (self.new ≡ with_item item.now.id.now item.now.text.now self.old) }
        ensures info { OnOk result (IsInfo self.new) }
    {
        let Some(key) = InfoKey::from_id(item.id) else {
            let _ = &self.texts;
            return Ok(());
        };
        if self.held(key).is_some() {
            return Ok(());
        }
        self.keep(key, item.text)
    }

    /// Puts a text of at most 1024 bytes under a key, in place of the one that was there. After an error the
    /// draft is as before.
    ///
    /// # Errors
    ///
    /// `TextTooLong` exactly where the text has more than 1024 bytes; `Memory`.
    #[tactic(auto, using(crate::proofs::Texts::whole_text))]
    pub fn set(&mut self, key: InfoKey, text: &[u8]) -> Result<(), MetaError>
        requires { All (λ b. b ≢ 0) text.now }
        ensures set { OnOk result (self.new ≡ with_text key text.now self.old) }
        ensures too_long { IsErrOf result MetaError.TextTooLong ↔ (1024 < length text.now) }
        ensures only { IfErr result (λ e. (e ≡ MetaError.TextTooLong) ⊎ (e ≡ MetaError.Memory)) }
        ensures same { OnErr result (self.new ≡ self.old) }
    {
        if text.len() > 1024 {
            return Err(MetaError::TextTooLong);
        }
        self.keep(key, text)?;
        Ok(())
    }

    /// An equal draft.
    ///
    /// # Errors
    ///
    /// `Memory`.
    pub fn duplicate(&self, alloc: Global) -> Result<InfoList, MetaError>
        ensures equal { IfOk result (λ copy. copy ≡ self.now) }
        ensures only { IfErr result (λ e. e ≡ MetaError.Memory) }
    {
        Ok(InfoList {
            alloc,
            texts: self.texts.clone()?,
        })
    }

    /// The body that holds these texts.
    fn body(&self) -> Result<Vec<u8>, AllocError>
        ensures written { IfOk result (λ body. body.items ≡ info_body self.now) }
        ensures again { OnOk result (info_of (info_body self.now) ≡ Some self.now) }
    {
        let mut body = Vec::from_slice(self.alloc, b"INFO")?;
        for key in INFO_KEYS {
            if let Some(text) = self.held(key) {
                push_item(&mut body, key, text.bytes.as_slice())?;
            }
        }
        Ok(body)
    }

    /// Appends the body that holds these texts, in the order of the keys, each with a 0 that its size counts.
    /// After an error `into` is as before.
    ///
    /// # Errors
    ///
    /// `Memory`.
    pub fn put(&self, into: &mut Vec<u8>) -> Result<(), MetaError>
        ensures written { OnOk result (into.new.items ≡ into.old.items ++ info_body self.now) }
        // What is written is read again as the same list.
        ensures again { OnOk result (info_of (info_body self.now) ≡ Some self.now) }
        ensures only { IfErr result (λ e. e ≡ MetaError.Memory) }
        ensures same { OnErr result (into.new.items ≡ into.old.items) }
    {
        let body = self.body()?;
        into.extend_from_slice(&body)?;
        Ok(())
    }
}

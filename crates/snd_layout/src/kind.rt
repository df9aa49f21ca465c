//! The kinds of sound files, and what each is beside its layout.

ghost use Rattle.std.specs.Prelude.{◌≡◌};
ghost use Rattle.snd_layout.specs.Kinds.{eight_bits, holds_meta, holds_order, holds_pieces, kind_in, kind_named, kind_of_suffix, own_order};
ghost use Rattle.snd_layout.specs.Names.{kind_name};

use crate::codec::Codec;
use snd_fields::Order;

/// A container for sound.
#[derive(Clone, Copy, Debug, PartialEq, Eq)]
pub enum Kind {
    /// RIFF WAVE, of Microsoft and IBM.
    Wave,
    /// RIFF WAVE with 64-bit sizes, of EBU Tech 3306.
    Rf64,
    /// Sony's Wave64.
    W64,
    /// Sun's and NeXT's AU, all numbers with the highest byte first.
    Au,
    /// AU with the lowest byte first.
    Dns,
    /// Creative Voice.
    Voc,
    /// The 8-bit sampled voice of IFF, of Electronic Arts.
    Svx,
    /// The SPHERE files of NIST.
    Sphere,
}

/// Every kind of sound file.
const KINDS: [Kind; 8] = [
    Kind::Wave,
    Kind::Rf64,
    Kind::W64,
    Kind::Au,
    Kind::Dns,
    Kind::Voc,
    Kind::Svx,
    Kind::Sphere,
];

impl Kind {
    /// The word that stands for it in scripts and in what is printed, as `wave`.
    pub fn name(&self) -> &'static str
        ensures { result.now ≡ kind_name self.now }
    {
        match self {
            Kind::Wave => "wave",
            Kind::Rf64 => "rf64",
            Kind::W64 => "w64",
            Kind::Au => "au",
            Kind::Dns => "dns",
            Kind::Voc => "voc",
            Kind::Svx => "svx",
            Kind::Sphere => "sphere",
        }
    }

    /// The kind that a word names, as `name` gives it.
    pub fn named(word: &[u8]) -> Option<Kind>
        ensures { result ≡ kind_named word.now }
    {
        KINDS
            .iter()
            .copied()
            .find(|kind| word == kind.name().as_bytes())
    }

    /// The kind that the suffix of a file's name stands for, without its dot and in lower case, as `wav`.
    #[tactic(auto, unfolding(crate::specs::Kinds::kind_of_suffix))]
    pub fn of_suffix(suffix: &[u8]) -> Option<Kind>
        ensures { result ≡ kind_of_suffix suffix.now }
    {
        if suffix == b"wav".as_slice() {
            Some(Kind::Wave)
        } else if suffix == b"rf64".as_slice() {
            Some(Kind::Rf64)
        } else if suffix == b"w64".as_slice() {
            Some(Kind::W64)
        } else if suffix == b"au".as_slice() {
            Some(Kind::Au)
        } else if suffix == b"snd".as_slice() {
            Some(Kind::Au)
        } else if suffix == b"voc".as_slice() {
            Some(Kind::Voc)
        } else if suffix == b"svx".as_slice() {
            Some(Kind::Svx)
        } else if suffix == b"8svx".as_slice() {
            Some(Kind::Svx)
        } else if suffix == b"nist".as_slice() {
            Some(Kind::Sphere)
        } else if suffix == b"sph".as_slice() {
            Some(Kind::Sphere)
        } else {
            None
        }
    }

    /// Whether files of this kind are given further chunks.
    pub fn holds_pieces(&self) -> bool
        ensures { result ≡ holds_pieces self.now }
    {
        match self {
            Kind::Wave | Kind::Rf64 | Kind::Svx => true,
            Kind::W64 | Kind::Au | Kind::Dns | Kind::Voc | Kind::Sphere => false,
        }
    }

    /// Whether they have an INFO list, cue points and a broadcast extension.
    pub fn holds_meta(&self) -> bool
        ensures { result ≡ holds_meta self.now }
    {
        match self {
            Kind::Svx => false,
            Kind::Wave | Kind::Rf64 | Kind::W64 | Kind::Au | Kind::Dns | Kind::Voc | Kind::Sphere =>
                self.holds_pieces(),
        }
    }

    /// The order of the bytes of a sample, where none is asked for.
    pub fn own_order(&self) -> Order
        ensures { result ≡ own_order self.now }
    {
        match self {
            Kind::Au | Kind::Svx => Order::Big,
            Kind::Wave | Kind::Rf64 | Kind::W64 | Kind::Dns | Kind::Voc | Kind::Sphere =>
                Order::Little,
        }
    }

    /// Whether it holds samples in an order of bytes, whatever their codec: its own where none is asked for.
    pub fn holds_order(&self, order: Option<Order>) -> bool
        ensures { result ≡ holds_order self.now order }
    {
        *self == Kind::Sphere || order.unwrap_or(self.own_order()) == self.own_order()
    }

    /// The kind that holds samples in an order of bytes: AU with the lowest byte first is a kind of its own.
    pub fn in_order(&self, order: Option<Order>) -> Kind
        ensures { result ≡ kind_in order self.now }
    {
        match (order, *self) {
            (Some(Order::Little), Kind::Au) => Kind::Dns,
            (_, kind) => kind,
        }
    }

    /// The linear codec of 8 bits that it holds.
    pub fn eight_bits(&self) -> Codec
        ensures { result ≡ eight_bits self.now }
    {
        match self {
            Kind::Au | Kind::Dns | Kind::Svx => Codec::S8,
            Kind::Wave | Kind::Rf64 | Kind::W64 | Kind::Voc | Kind::Sphere => Codec::U8,
        }
    }
}

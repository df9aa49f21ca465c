//! The identifiers of the chunks that a file of each kind has of its own, and those that are reserved.

ghost use Rattle.std.specs.Prelude.{◌≡◌};
ghost use Rattle.std.specs.Str.{bytes_eq};
ghost use Rattle.snd_layout.specs.Kinds.{is_own_id, is_reserved, is_svx_own, is_wave_own};

use crate::kind::Kind;
use snd_fields::Id4;

fn has(id: Id4, name: &[u8]) -> bool
    ensures { result ≡ bytes_eq id.0 name.now }
{
    id.0.as_slice() == name
}

fn is_wave_own(id: Id4) -> bool
    ensures { result ≡ is_wave_own id.0 }
{
    has(id, b"fmt ")
        || has(id, b"fact")
        || has(id, b"data")
        || has(id, b"ds64")
        || has(id, b"JUNK")
        || has(id, b"junk")
        || has(id, b"FLLR")
        || has(id, b"PAD ")
}

fn is_svx_own(id: Id4) -> bool
    ensures { result ≡ is_svx_own id.0 }
{
    has(id, b"VHDR")
        || has(id, b"CHAN")
        || has(id, b"BODY")
        || has(id, b"JUNK")
        || has(id, b"junk")
        || has(id, b"FLLR")
        || has(id, b"PAD ")
}

impl Kind {
    /// Whether an identifier is one of those of the file's own format, sound, counts, 64-bit sizes and
    /// fillers, which no further chunk of a file of this kind has.
    pub fn is_own_id(&self, id: Id4) -> bool
        ensures { result ≡ is_own_id self.now id.0 }
    {
        match self {
            Kind::Wave | Kind::Rf64 => is_wave_own(id),
            Kind::Svx => is_svx_own(id),
            Kind::W64 | Kind::Au | Kind::Dns | Kind::Voc | Kind::Sphere => false,
        }
    }

    /// Whether an identifier is not given to a chunk of a file of this kind: its own, those of chunks that
    /// have a call of their own, and that of the whole.
    pub fn is_reserved(&self, id: Id4) -> bool
        ensures { result ≡ is_reserved self.now id.0 }
    {
        match self {
            Kind::Wave | Kind::Rf64 => {
                is_wave_own(id)
                    || has(id, b"LIST")
                    || has(id, b"bext")
                    || has(id, b"cue ")
                    || has(id, b"RIFF")
            }
            Kind::Svx => is_svx_own(id) || has(id, b"FORM"),
            Kind::W64 | Kind::Au | Kind::Dns | Kind::Voc | Kind::Sphere => false,
        }
    }
}
